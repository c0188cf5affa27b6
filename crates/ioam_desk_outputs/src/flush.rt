//! Writing of gathered octets.
ghost use Rattle.std.specs.Prelude.{◌≡◌, ◌≤◌, ◌<◌, [], ℕ, List, All, IsTrue, OnErr, OnOk, length};
ghost use Rattle.ioam_desk.specs.Touches.{Touches, state, write_to, writes_from, failing_out};
ghost use Rattle.ioam_desk_outputs.specs.Flush.{KeepsFew, KeepsTold, LeavesSome, Moves};
ghost use Rattle.ioam_desk_outputs.specs.Held.{HoldTexts};
ghost use Rattle.ioam_desk_outputs.specs.Told.{AreTold, AreOpen, GathersFew, GathersNothing};

use crate::output::Output;
use ioam_base::octets::drop_front;
use ioam_desk::{Desk, DeskFault, PIECE, WriteAll, write_all};

/// So many octets are gathered for an output before they are written: as many as a read asks for.
pub const GATHER: usize = PIECE;

// Writes all that is gathered for an output. What was written is no longer gathered, also behind a fault.
fn flush<D: Desk>(desk: &mut D, output: &mut Output) -> Result<(), DeskFault>
    requires { output.old.slot < (D.writing desk.old).side.slots }
    ensures moved { Moves D.tells (D.writing desk.old) (D.writing desk.new) output.old output.new }
    ensures all { OnOk result (output.new.gathered.items ≡ []) }
    ensures left { OnErr result (0 < length output.new.gathered.items) }
    ensures inputs { D.reading desk.new ≡ D.reading desk.old }
    ensures touches { Touches D.tells (write_to output.old.slot) (failing_out result)
        (state (D.reading desk.old) (D.writing desk.old)) (state (D.reading desk.new) (D.writing desk.new)) }
{
    match write_all(desk, output.slot, &output.gathered) {
        Ok(()) => {
            output.gathered.clear();
            Ok(())
        }
        Err(WriteAll::Failed { written }) => {
            drop_front(&mut output.gathered, written);
            Err(DeskFault::Failed)
        }
        Err(WriteAll::NoMemory { written }) => {
            drop_front(&mut output.gathered, written);
            Err(DeskFault::NoMemory)
        }
    }
}

// Writes what is gathered for an output, if that is at least so much.
fn flush_from<D: Desk>(desk: &mut D, output: &mut Output, least: usize) -> Result<(), DeskFault>
    requires open { output.old.slot < (D.writing desk.old).side.slots }
    requires some { 1 ≤ least }
    ensures moved { Moves D.tells (D.writing desk.old) (D.writing desk.new) output.old output.new }
    ensures kept { length output.old.gathered.items < least → (output.new ≡ output.old) × (D.writing desk.new ≡ D.writing desk.old) }
    ensures few { OnOk result (length output.new.gathered.items < least) }
    ensures full { OnErr result (least ≤ length output.old.gathered.items) }
    ensures left { OnErr result (0 < length output.new.gathered.items) }
    ensures inputs { D.reading desk.new ≡ D.reading desk.old }
    ensures touches { Touches D.tells (write_to output.old.slot) (failing_out result)
        (state (D.reading desk.old) (D.writing desk.old)) (state (D.reading desk.new) (D.writing desk.new)) }
{
    if output.gathered.len() < least {
        return Ok(());
    }
    flush(desk, output)
}

// Writes what is gathered for each output that has at least so much.
fn flush_each<D: Desk>(desk: &mut D, outputs: &mut [Output], least: usize) -> Result<(), DeskFault>
    requires open { AreOpen (D.writing desk.old) outputs.old }
    requires some { 1 ≤ least }
    ensures told { KeepsTold D.tells (D.writing desk.old) (D.writing desk.new) outputs.old outputs.new }
    ensures kept { KeepsFew least (D.writing desk.old) (D.writing desk.new) outputs.old outputs.new }
    ensures few { OnOk result (All (λ output. length output.gathered.items < least) outputs.new) }
    ensures left { OnErr result (LeavesSome least outputs.old outputs.new) }
    ensures open { AreOpen (D.writing desk.new) outputs.new }
    ensures inputs { D.reading desk.new ≡ D.reading desk.old }
    ensures touches { (slot : ℕ) (names texts : List (List ℕ)) → AreTold D.tells (D.writing desk.old) slot names outputs.old texts
        → Touches D.tells (writes_from slot) (failing_out result)
        (state (D.reading desk.old) (D.writing desk.old)) (state (D.reading desk.new) (D.writing desk.new)) }
{
    'outputs: for output in outputs.iter_mut() {
        match flush_from(desk, output, least) {
            Ok(()) => {}
            Err(fault) => return Err(fault),
        }
    }
    Ok(())
}

/// Writes what is gathered for each output that has a full piece, of 65,536 octets or more, and
/// keeps the room; an output that has less is left as it is. What was said to the outputs is what was
/// said before, also behind a fault.
///
/// `Failed`: a write failed, and the desk's count of faults rose.
pub fn flush_full<D: Desk>(desk: &mut D, outputs: &mut [Output]) -> Result<(), DeskFault>
    requires { AreOpen (D.writing desk.old) outputs.old }
    ensures told { (slot : ℕ) (names texts : List (List ℕ)) → AreTold D.tells (D.writing desk.old) slot names outputs.old texts
        → AreTold D.tells (D.writing desk.new) slot names outputs.new texts }
    ensures few { OnOk result (GathersFew outputs.new) }
    // A fault comes only where an output had a full piece, of which something is left.
    ensures left { OnErr result (LeavesSome 65536 outputs.old outputs.new) }
    ensures kept { KeepsFew 65536 (D.writing desk.old) (D.writing desk.new) outputs.old outputs.new }
    ensures open { AreOpen (D.writing desk.new) outputs.new }
    ensures inputs { D.reading desk.new ≡ D.reading desk.old }
    ensures touches { (slot : ℕ) (names texts : List (List ℕ)) → AreTold D.tells (D.writing desk.old) slot names outputs.old texts
        → Touches D.tells (writes_from slot) (failing_out result)
        (state (D.reading desk.old) (D.writing desk.old)) (state (D.reading desk.new) (D.writing desk.new)) }
{
    flush_each(desk, outputs, GATHER)
}

/// Writes all that is gathered: then each name holds its text.
///
/// `Failed`: a write failed, and the desk's count of faults rose.
pub fn finish<D: Desk>(desk: &mut D, outputs: &mut [Output]) -> Result<(), DeskFault>
    requires { AreOpen (D.writing desk.old) outputs.old }
    ensures texts { OnOk result (IsTrue D.tells → (slot : ℕ) (names texts : List (List ℕ))
        → AreTold D.tells (D.writing desk.old) slot names outputs.old texts → HoldTexts (D.writing desk.new) names texts) }
    ensures told { (slot : ℕ) (names texts : List (List ℕ)) → AreTold D.tells (D.writing desk.old) slot names outputs.old texts
        → AreTold D.tells (D.writing desk.new) slot names outputs.new texts }
    ensures all { OnOk result (GathersNothing outputs.new) }
    // A fault comes only where something is left.
    ensures left { OnErr result (LeavesSome 1 outputs.old outputs.new) }
    // Nothing is written to a slot that is no output's, or for which nothing is gathered.
    ensures kept { KeepsFew 1 (D.writing desk.old) (D.writing desk.new) outputs.old outputs.new }
    ensures inputs { D.reading desk.new ≡ D.reading desk.old }
    ensures touches { (slot : ℕ) (names texts : List (List ℕ)) → AreTold D.tells (D.writing desk.old) slot names outputs.old texts
        → Touches D.tells (writes_from slot) (failing_out result)
        (state (D.reading desk.old) (D.writing desk.old)) (state (D.reading desk.new) (D.writing desk.new)) }
{
    flush_each(desk, outputs, 1)
}
