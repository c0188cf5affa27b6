//! A walk along the headers of a packet that may end anywhere.
ghost use Rattle.std.specs.Prelude.{◌↔◌, ◌≤◌, IsTrue, length};
ghost use Rattle.ioam_leaks.specs.Shows.{Shows, ShowsAt};
ghost use Rattle.ioam_leaks.specs.Spots.{spot_of};

use crate::option::{Part, has_option};
use crate::spot::Spot;

/// Whether an options header has an IOAM option, among those that the chain reaches from a spot on, up to the first
/// header that it doesn't go on after, that one too.
pub(crate) fn shows(packet: &[u8], from: Spot, part: Part) -> bool
    requires { from.at ≤ length packet.now }
    ensures { IsTrue result ↔ Shows part packet.now (spot_of from) }
{
    let mut spot = from;
    'headers: loop {
        if shows_at(packet, spot, part) {
            return true;
        }
        match spot.next(packet) {
            Some(next) => spot = next,
            None => return false,
        }
    }
}

// Whether an options header with an IOAM option stands at the spot.
fn shows_at(packet: &[u8], spot: Spot, part: Part) -> bool
    requires { spot.at ≤ length packet.now }
    ensures { IsTrue result ↔ ShowsAt part packet.now (spot_of spot) }
{
    spot.holds_options() && has_option(spot.octets(packet), part)
}
