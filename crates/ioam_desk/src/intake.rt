//! Files that are read in pieces, to their ends or until no more is needed.
ghost use Rattle.std.specs.Prelude.{◌≡◌, ◌<◌, ◌≤◌, ◌+◌, ◌++◌, [], Bool, List, ℕ, IfOk, MatchResult, false, length};
ghost use Rattle.ioam_desk.specs.Desk.{holds};
ghost use Rattle.ioam_desk.specs.Intake.{FailsFile, FailsSlot, HandsFew, ReadsFew, Standing, TakesFile, TakesSlot};

use crate::desk::Desk;
use crate::fault::DeskFault;
use crate::piece::new_piece;
use ioam_base::fed::PIECE;
use ioam_base::memory::NoMemory;
use std::alloc::Global;

/// What takes the octets of a file, in pieces.
pub trait Intake: Drop {
    // begun as the first, it has taken these octets and is now the second
    ghost stands: { Self → List ℕ → Self → Type 0 };

    // whether it needs no more octets, whatever they are
    ghost full: { Self → Bool };

    // how many octets are still read for it, at most
    ghost room: { Self → ℕ };

    /// Whether it needs no more octets, whatever they are. If not, there is room for a piece.
    fn is_full(&self) -> bool
        ensures full { result ≡ full self.now }
        ensures room { result ≡ false → 65536 ≤ room self.now };

    /// Takes the next octets, a piece or less.
    fn take(self, piece: &[u8]) -> Result<Self, NoMemory>
        requires needed { full self ≡ false }
        requires some { 0 < length piece.now }
        requires few { length piece.now ≤ 65536 }
        requires stands { Standing stands self }
        ensures takes { IfOk result (λ after. (begun : Self) (octets : List ℕ) → stands begun octets self → stands begun (octets ++ piece.now) after) }
        ensures room { IfOk result (λ after. room after + length piece.now ≤ room self) };
}

/// Opens a file and hands its octets to `intake`, in pieces, to the end of the file or until the intake needs no more.
///
/// The buffer is allocated before the file is opened. No other input is touched.
pub fn read_into<T: Intake, D: Desk>(
    alloc: Global,
    desk: &mut D,
    name: &str,
    intake: T,
) -> Result<T, DeskFault>
    requires { T.stands intake [] intake }
    ensures reads { MatchResult result
        (TakesFile T.stands T.full D.tells intake (D.reading desk.old) (D.reading desk.new) (holds (D.writing desk.old) name.now) name.now)
        (FailsFile (D.reading desk.old) (D.reading desk.new) name.now) }
    ensures few { ReadsFew D.tells (T.room intake) (D.reading desk.old) (D.reading desk.new) (holds (D.writing desk.old) name.now) }
    ensures outputs { D.writing desk.new ≡ D.writing desk.old }
{
    let Ok(mut piece) = new_piece(alloc) else {
        return Err(DeskFault::NoMemory);
    };
    match desk.open_in(name) {
        Ok(slot) => read_slot(desk, slot, &mut piece, intake),
        Err(fault) => Err(fault),
    }
}

// Hands what is left of an input slot to an intake.
fn read_slot<T: Intake, D: Desk>(
    desk: &mut D,
    slot: u32,
    piece: &mut [u8],
    intake: T,
) -> Result<T, DeskFault>
    requires input { slot < (D.reading desk.old).side.slots }
    requires room { length piece.old ≡ PIECE }
    requires stands { T.stands intake [] intake }
    ensures reads { MatchResult result
        (TakesSlot T.stands T.full D.tells intake (D.reading desk.old) (D.reading desk.new) slot)
        (FailsSlot (D.reading desk.old) (D.reading desk.new) slot) }
    ensures few { HandsFew D.tells (T.room intake) (D.reading desk.old) (D.reading desk.new) slot }
    ensures outputs { D.writing desk.new ≡ D.writing desk.old }
{
    let mut intake = intake;
    'pieces: while !intake.is_full() {
        let count = match desk.read(slot, piece) {
            Ok(count) => count,
            Err(fault) => return Err(fault),
        };
        if count == 0 {
            return Ok(intake);
        }
        intake = match intake.take(&piece[..count]) {
            Ok(intake) => intake,
            Err(NoMemory) => return Err(DeskFault::NoMemory),
        };
    }
    Ok(intake)
}
