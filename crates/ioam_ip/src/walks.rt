//! The walk along the chain of a packet (RFC 8200 section 4).
ghost use Rattle.std.specs.Prelude.{◌≡◌, ◌↔◌, IsTrue, ◌||◌, ◌&&◌, ◌==◌, not, if◌then◌else◌};
ghost use Rattle.std.specs.Option.{option_or};
ghost use Rattle.ioam_ip.specs.Packet.{IsPacket};
ghost use Rattle.ioam_ip.specs.Chain.{IsSound};
ghost use Rattle.ioam_ip.specs.Walks.{Tells, is_whole};

use crate::answer::Walk;
use crate::chain::start;
use crate::next_header::{DESTINATION, IPV6};
use crate::scan::Findings;
use crate::steps::{HeadStep, step_at};

// What the headers passed so far had.
#[derive(Clone, Copy)]
struct Passed {
    // Whether one of them was a nested IPv6 header.
    inside: bool,
    ioam: bool,
    limit: Option<u8>,
}

impl Passed {
    // The same with one header more, by its value and what its options have.
    fn with(self, value: u8, found: Findings) -> Passed
        ensures inside { result.inside ≡ (self.inside || (value == 41)) }
        ensures ioam { result.ioam ≡ (self.ioam || found.ioam) }
        ensures limit { result.limit ≡
            (if (value == 60) && not self.inside then option_or self.limit found.limit else self.limit) }
    {
        Passed {
            inside: self.inside || value == IPV6,
            ioam: self.ioam || found.ioam,
            limit: if value == DESTINATION && !self.inside {
                self.limit.or(found.limit)
            } else {
                self.limit
            },
        }
    }
}

/// Walks along the chain of headers of one IPv6 packet (RFC 8200 section 4), through nested IPv6
/// headers too, whose payload length isn't compared. Takes no memory.
pub fn walk(packet: &[u8]) -> Walk
    requires { IsPacket packet.now }
    ensures whole { IsTrue (is_whole result) ↔ IsSound packet.now }
    ensures tells { Tells packet.now result }
{
    let mut spot = start(packet);
    let mut passed = Passed {
        inside: false,
        ioam: false,
        limit: None,
    };
    loop {
        match step_at(packet, spot) {
            HeadStep::On { next, found } => {
                passed = passed.with(spot.value, found);
                spot = next;
            }
            HeadStep::Ends => {
                return Walk::Whole {
                    ioam: passed.ioam,
                    upper: spot.value,
                    at: spot.at as u32,
                    limit: passed.limit,
                };
            }
            HeadStep::Breaks => return Walk::Bad { at: spot.at as u32 },
        }
    }
}
