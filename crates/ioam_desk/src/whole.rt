//! Files that are read whole, and octets that are written whole.
ghost use Rattle.std.specs.Prelude.{◌≡◌, ◌≤◌, ◌<◌, take, length, OnErr, MatchResult};
ghost use Rattle.ioam_desk.specs.Desk.{holds, Grows};
ghost use Rattle.ioam_desk.specs.Whole.{ReadsWhole, FailsWhole, sent, WritesSide};

use crate::desk::Desk;
use crate::fault::{DeskFault, WholeFault, WriteAll};
use crate::intake::{Intake, read_into};
use ioam_base::memory::NoMemory;
use std::alloc::Global;

/// All octets of a file, unless they are more than a limit.
#[derive(Drop)]
pub(crate) struct Whole {
    octets: Vec<u8>,
    limit: usize,
    // more than `limit` octets came
    long: bool,
}

impl Intake for Whole {
    ghost use Rattle.ioam_desk.specs.Whole.{Gathers, room_of};

    ghost stands = { Gathers };

    ghost full = { λ whole. whole.long };

    ghost room = { room_of };

    fn is_full(&self) -> bool {
        self.long
    }

    fn take(self, piece: &[u8]) -> Result<Whole, NoMemory> {
        let mut whole = self;
        if piece.len() > whole.limit.saturating_sub(whole.octets.len()) {
            whole.long = true;
            return Ok(whole);
        }
        whole.octets.extend_from_slice(piece)?;
        Ok(whole)
    }
}

/// The octets of a file that holds no more than `limit`. The name is opened once, and nothing else
/// is; other input slots are as before.
///
/// A file that holds more answers `TooLong`, a fault of the desk `Failed`, and want of memory
/// `NoMemory`. The buffer for reading is taken before anything is opened.
pub fn read_whole<D: Desk>(
    alloc: Global,
    desk: &mut D,
    name: &str,
    limit: usize,
) -> Result<Vec<u8>, WholeFault>
    ensures inputs { MatchResult result
        (λ octets. ReadsWhole D.tells (D.reading desk.old) (D.reading desk.new) (holds (D.writing desk.old) name.now) name.now limit octets.items)
        (FailsWhole D.tells (D.reading desk.old) (D.reading desk.new) (holds (D.writing desk.old) name.now) name.now limit) }
    ensures outputs { D.writing desk.new ≡ D.writing desk.old }
{
    let nothing = Whole {
        octets: Vec::new(alloc),
        limit,
        long: false,
    };
    let whole = match read_into(alloc, desk, name, nothing) {
        Ok(whole) => whole,
        Err(DeskFault::Failed) => return Err(WholeFault::Failed),
        Err(DeskFault::NoMemory) => return Err(WholeFault::NoMemory),
    };
    if whole.long {
        return Err(WholeFault::TooLong { limit });
    }
    Ok(whole.octets)
}

/// Writes all octets to an output slot.
///
/// `Failed`: a write failed, and the desk's count of faults rose. Either error says how many of the
/// octets were appended: the first ones.
pub fn write_all<D: Desk>(desk: &mut D, slot: u32, octets: &[u8]) -> Result<(), WriteAll>
    requires { slot < (D.writing desk.old).side.slots }
    ensures sent { sent (length octets.now) result ≤ length octets.now }
    // An error comes only where something is left to write.
    ensures left { OnErr result (sent (length octets.now) result < length octets.now) }
    ensures side { WritesSide (D.writing desk.old).side result (D.writing desk.new).side }
    ensures written { Grows D.tells (D.writing desk.old) (D.writing desk.new) slot (take (sent (length octets.now) result) octets.now) }
    ensures inputs { D.reading desk.new ≡ D.reading desk.old }
{
    let mut written = 0;
    while written < octets.len() {
        match desk.write(slot, &octets[written..]) {
            Ok(count) => written += count,
            Err(DeskFault::Failed) => return Err(WriteAll::Failed { written }),
            Err(DeskFault::NoMemory) => return Err(WriteAll::NoMemory { written }),
        }
    }
    Ok(())
}
