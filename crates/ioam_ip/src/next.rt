//! Where the next option of an options header stands.
ghost use Rattle.std.specs.Prelude.{◌≡◌, [], length, MatchOption};
ghost use Rattle.ioam_ip.specs.OptionsLeft.{options_from};
ghost use Rattle.ioam_ip.specs.Spot.{IsNext};

use crate::scan::option_end;

/// Where an option stands in its header. It holds no borrow, so its data can be changed in place.
#[derive(Clone, Copy, Debug, PartialEq, Eq)]
pub struct OptionSpot {
    /// The option's type, above 1.
    pub kind: u8,
    /// The place of its type octet in the header.
    pub at: usize,
    /// How many octets its data has.
    pub size: usize,
}

/// The first option from a place on, without paddings.
pub fn next_option(head: &[u8], from: usize) -> Option<OptionSpot>
    ensures { MatchOption result (options_from (length head.now) head.now from ≡ []) (IsNext head.now from) }
{
    let mut at = from;
    'options: while at < head.len() {
        let Some(end) = option_end(head, at) else {
            return None;
        };
        if head[at] > 1 {
            return Some(OptionSpot {
                kind: head[at],
                at,
                size: head[at + 1] as usize,
            });
        }
        at = end;
    }
    None
}
