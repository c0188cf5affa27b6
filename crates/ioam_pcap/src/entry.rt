//! The head of a record.
ghost use Rattle.std.specs.Prelude.{◌+◌};
ghost use Rattle.ioam_pcap.specs.Steps.{IsTimely, TellsEntry};

use crate::capture::{CapFault, MOST_PACKET};
use crate::form::{Form, Fraction};
use crate::numbers::entry_numbers;

/// The head of a whole record.
#[derive(Clone, Copy)]
pub struct EntryHead {
    pub time: u64,
    pub original: u32,
    pub captured: u32,
}

/// What the octets where a record is due show of it.
#[derive(Clone, Copy)]
pub enum EntryStep {
    Whole(EntryHead),
    Cut,
    Bad(CapFault),
}

/// What the octets that begin where a record is due show of it.
pub fn entry_step(form: Form, octets: &[u8]) -> EntryStep
    ensures tells { TellsEntry form octets.now result }
    ensures timely { IsTimely result }
{
    if octets.len() < 16 {
        return EntryStep::Cut;
    }
    let numbers = entry_numbers(form.order, octets);
    if numbers.captured > MOST_PACKET {
        return EntryStep::Bad(CapFault::RecordLong {
            found: numbers.captured,
        });
    }
    if octets.len() - 16 < numbers.captured as usize {
        return EntryStep::Cut;
    }
    let fraction = u64::from(numbers.fraction);
    let nanoseconds = match form.fraction {
        Fraction::Micro => fraction * 1000,
        Fraction::Nano => fraction,
    };
    EntryStep::Whole(EntryHead {
        time: u64::from(numbers.seconds) * 1_000_000_000 + nanoseconds,
        original: numbers.original,
        captured: numbers.captured,
    })
}
