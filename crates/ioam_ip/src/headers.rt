//! The headers on the chain of a packet, one after the other.
ghost use Rattle.std.specs.Prelude.{◌≡◌, MatchOption, IsTrue, false};
ghost use Rattle.ioam_ip.specs.Chain.{behind};
ghost use Rattle.ioam_ip.specs.HeadsLeft.{goes_on};

use crate::chain::{Head, HeadSpot, kind_of};
use crate::extents::{goes_on, next_value, whole_end};
use crate::next_header::IPV6;

/// The headers on the chain of a sound packet, in order, nested ones included, without the one
/// with which the chain ends. Made by [`crate::heads`].
#[derive(Clone, Copy)]
pub struct Heads<'a> {
    pub(crate) packet: &'a [u8],
    pub(crate) spot: HeadSpot,
}

impl<'a> Iterator for Heads<'a> {
    ghost use Rattle.std.specs.Iterator.{YieldsFirst, item_count};
    ghost use Rattle.ioam_ip.specs.HeadsLeft.{heads_left};

    type Item = Head;

    ghost next_gives = { YieldsFirst heads_left };

    ghost remaining = { item_count heads_left };

    fn next(&mut self) -> Option<Head> {
        let spot = self.spot;
        let Some(next) = spot_behind(self.packet, spot) else {
            return None;
        };
        self.spot = next;
        Some(Head {
            value: spot.value,
            range: spot.at..next.at,
        })
    }
}

// The spot behind the header at a spot, unless the chain ends there.
fn spot_behind(packet: &[u8], spot: HeadSpot) -> Option<HeadSpot>
    ensures { MatchOption result (goes_on packet.now spot ≡ false)
        (λ next. IsTrue (goes_on packet.now spot) × (next ≡ behind packet.now spot)) }
{
    if packet.len() < spot.at {
        return None;
    }
    let kind = kind_of(spot.value);
    let Some(end) = whole_end(packet, spot.at, kind) else {
        return None;
    };
    if !goes_on(packet, spot.at, kind) {
        return None;
    }
    Some(HeadSpot {
        value: next_value(packet, spot.at, kind),
        at: end,
        behind_ip: spot.value == IPV6,
    })
}
