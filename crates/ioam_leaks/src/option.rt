//! Whether an options header has an IOAM option, where its octets may end anywhere.
ghost use Rattle.std.specs.Prelude.{◌≡◌, ◌↔◌, ◌<◌, IsTrue, length, MatchOption};
ghost use Rattle.ioam_ip.specs.Options.{OptionFits, option_end};
ghost use Rattle.ioam_leaks.specs.Shows.{Counts, HasOption};

use ioam_ip::option_type::is_ioam_type;

/// How much of an option has to be there for it to count.
#[derive(Clone, Copy)]
pub(crate) enum Part {
    /// Its type, its length and its data.
    Whole,
    /// Its type.
    Begun,
}

/// Whether an options header, given with those of its octets that are there, has an IOAM option.
pub(crate) fn has_option(head: &[u8], part: Part) -> bool
    ensures { IsTrue result ↔ HasOption part head.now 2 }
{
    let mut at = 2;
    'options: while at < head.len() {
        let end = option_end(head, at);
        if counts(head, at, end, part) {
            return true;
        }
        let Some(next) = end else {
            return false;
        };
        at = next;
    }
    false
}

// Whether an IOAM option stands at `at`, of which enough is there.
fn counts(head: &[u8], at: usize, end: Option<usize>, part: Part) -> bool
    requires within { at < length head.now }
    requires end { MatchOption end (length head.now < option_end head.now at) (λ next. (next ≡ option_end head.now at) × OptionFits head.now at) }
    ensures { IsTrue result ↔ Counts part head.now at }
{
    if !is_ioam_type(head[at]) {
        return false;
    }
    match part {
        Part::Whole => end.is_some(),
        Part::Begun => true,
    }
}

// Where the option at `at` ends, if it lies within the header.
fn option_end(head: &[u8], at: usize) -> Option<usize>
    requires { at < length head.now }
    ensures { MatchOption result (length head.now < option_end head.now at)
        (λ next. (next ≡ option_end head.now at) × OptionFits head.now at) }
{
    if head[at] == 0 {
        return Some(at + 1);
    }
    if head.len() - at < 2 {
        return None;
    }
    let size = usize::from(head[at + 1]) + 2;
    if head.len() - at < size {
        return None;
    }
    Some(at + size)
}
