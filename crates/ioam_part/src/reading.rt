//! A part that is read as a whole.
ghost use Rattle.std.specs.Prelude.{◌<◌, ◌^◌, MatchResult};
ghost use Rattle.ioam_part.specs.Reading.{IsReadAs, RefusedBy};

use crate::reader::{PartReader, PartRefused};
use ioam_base::memory::NoMemory;
use ioam_collect::Collector;
use std::alloc::Global;

// No slice has as many octets.
const TOO_MANY: u64 = 1 << 63;

/// The collector of a part of at most so many records, below 2^31. `Full` comes exactly where the octets are a part, of
/// more records; a fault is that of the first place that has one.
pub fn read_part(alloc: Global, octets: &[u8], limit: u32) -> Result<Collector, PartRefused>
    requires { limit < 2 ^ 31 }
    ensures { MatchResult result (IsReadAs limit octets.now) (RefusedBy limit octets.now) }
{
    if octets.len() as u64 >= TOO_MANY {
        return Err(PartRefused::NoMemory);
    }
    let reader = match PartReader::new(alloc, limit) {
        Ok(reader) => reader,
        Err(NoMemory) => return Err(PartRefused::NoMemory),
    };
    match reader.feed(octets) {
        Ok(reader) => reader.finish(),
        Err(NoMemory) => Err(PartRefused::NoMemory),
    }
}
