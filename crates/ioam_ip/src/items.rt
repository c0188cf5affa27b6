//! The options of one options header, one after the other.
ghost use Rattle.std.specs.Prelude.{◌≡◌, IsTrue};
ghost use Rattle.ioam_ip.specs.Options.{OptionFits, is_option, item_at};
ghost use Rattle.ioam_ip.specs.OptionsLeft.{item_of};

use crate::scan::option_end;

/// An option of an options header (RFC 8200 section 4.2).
#[derive(Clone, Copy, Debug, PartialEq, Eq)]
pub struct Opt<'a> {
    /// The option's type, above 1.
    pub kind: u8,
    /// The place of its type octet in the header.
    pub at: usize,
    /// Its data, without type and length.
    pub body: &'a [u8],
}

/// The options of one options header in order, without paddings. Made by [`crate::options`].
#[derive(Clone, Copy)]
pub struct Options<'a> {
    pub(crate) head: &'a [u8],
    pub(crate) at: usize,
}

impl<'a> Iterator for Options<'a> {
    ghost use Rattle.std.specs.Iterator.{YieldsFirstBy, item_count};
    ghost use Rattle.ioam_ip.specs.OptionsLeft.{item_of, options_left};

    type Item = Opt<'a>;

    ghost next_gives = { YieldsFirstBy item_of options_left };

    ghost remaining = { item_count options_left };

    fn next(&mut self) -> Option<Opt<'a>> {
        let head = self.head;
        while self.at < head.len() {
            let at = self.at;
            let Some(end) = option_end(head, at) else {
                return None;
            };
            self.at = end;
            if head[at] > 1 {
                return Some(option_at(head, at));
            }
        }
        None
    }
}

// The option at a place.
fn option_at(head: &[u8], at: usize) -> Opt<'_>
    requires fits { OptionFits head.now at }
    requires option { IsTrue (is_option (item_at head.now at)) }
    ensures { item_of result ≡ item_at head.now at }
{
    let size = head[at + 1] as usize;
    Opt {
        kind: head[at],
        at,
        body: &head[at + 2..at + 2 + size],
    }
}
