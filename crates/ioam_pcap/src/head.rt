//! The head of a capture.
ghost use Rattle.std.specs.Prelude.{◌≡◌, MatchOption};
ghost use Rattle.ioam_pcap.specs.Form.{spelling, IsUnspelled};
ghost use Rattle.ioam_pcap.specs.Steps.{TellsHead};

use crate::capture::CapFault;
use crate::form::{Form, Fraction, Order, link_type};
use crate::numbers::number_at;
use ioam_base::octets::u32_at;

/// What the front of a capture shows of its head.
#[derive(Clone, Copy)]
pub enum HeadStep {
    Whole(Form),
    Cut,
    Bad(CapFault),
}

// The magic number of a capture whose fractions are microseconds, as it reads in the order of its numbers.
const MICRO_MAGIC: u32 = 0xa1b2_c3d4;

/// The magic number of a capture whose fractions are nanoseconds, as it reads in the order of its numbers.
pub(crate) const NANO_MAGIC: u32 = 0xa1b2_3c4d;

// The same two as they read in the other order.
const SWAPPED_MICRO_MAGIC: u32 = 0xd4c3_b2a1;

const SWAPPED_NANO_MAGIC: u32 = 0x4d3c_b2a1;

// The order and the fraction that a magic number spells.
fn spelled(magic: u32) -> Option<(Order, Fraction)>
    ensures { MatchOption result (IsUnspelled magic) (λ s. magic ≡ spelling s.0 s.1) }
{
    match magic {
        MICRO_MAGIC => Some((Order::Big, Fraction::Micro)),
        NANO_MAGIC => Some((Order::Big, Fraction::Nano)),
        SWAPPED_MICRO_MAGIC => Some((Order::Little, Fraction::Micro)),
        SWAPPED_NANO_MAGIC => Some((Order::Little, Fraction::Nano)),
        _ => None,
    }
}

/// What the octets at the front of a capture show of its head.
pub fn head_step(octets: &[u8]) -> HeadStep
    ensures { TellsHead octets.now result }
{
    if octets.len() < 4 {
        return HeadStep::Cut;
    }
    let magic = u32_at(octets, 0);
    let Some((order, fraction)) = spelled(magic) else {
        return HeadStep::Bad(CapFault::Magic { found: magic });
    };
    if octets.len() < 24 {
        return HeadStep::Cut;
    }
    let number = number_at(order, octets, 20);
    match link_type(number) {
        Some(link) => HeadStep::Whole(Form {
            order,
            fraction,
            link,
        }),
        None => HeadStep::Bad(CapFault::Link { found: number }),
    }
}
