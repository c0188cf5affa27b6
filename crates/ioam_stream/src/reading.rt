//! Pieces of the inputs that are read and handed to a stage, while what it says is written.
ghost use Rattle.std.specs.Prelude.{◌≡◌, ◌<◌, ◌≤◌, ◌+◌, ℕ, List, true, false, IfOk, IsTrue, OnErr, OnOk, length};
ghost use Rattle.ioam_desk.specs.Touches.{Touches, state, reads_from, writes_from, failing_out};
ghost use Rattle.ioam_desk_outputs.specs.Flush.{KeepsTold};
ghost use Rattle.ioam_desk_outputs.specs.Open.{AreSlots};
ghost use Rattle.ioam_desk_outputs.specs.Told.{AreOpen, AreTold, GathersFew, GathersNothing};
ghost use Rattle.ioam_stream.specs.Stage.{Standing};
ghost use Rattle.ioam_stream.specs.Streams.{Going, Start, Streams, Pauses, ReadsNone, Refills, Sticks, Stopped, Stops, failing, failing_piece, streams_from};

use crate::stage::{Stage, Step};
use ioam_base::memory::NoMemory;
use ioam_desk::{Desk, DeskFault};
use ioam_desk_outputs::{Output, finish, flush_full};

/// How a run ended.
#[derive(Clone, Copy)]
pub enum Stop {
    /// All is said. Why it came to an end, the stage knows.
    Ended,
    /// An input could not be opened or read.
    ReadFault,
    /// An output could not be opened or written.
    WriteFault,
    /// Memory ran out.
    NoMemory,
}

// Why no item was taken.
#[derive(Clone, Copy)]
pub(crate) enum Pause {
    More { input: usize },
    End,
}

// Takes all items that were handed out whole, and writes what is full.
fn take_shown<S: Stage, D: Desk>(
    stage: &mut S,
    outputs: &mut [Output],
    desk: &mut D,
) -> Result<Pause, DeskFault>
    ghost going: { Going S }
    requires streams { Streams S.kind D.tells going.start going.cut (state (D.reading desk.old) (D.writing desk.old)) stage.old outputs.old }
    requires width { length outputs.old ≡ S.kind.width going.start.begun }
    requires few { GathersFew outputs.old }
    ensures paused { IfOk result (Pauses S.kind D.tells going.start going.cut (state (D.reading desk.new) (D.writing desk.new)) stage.new outputs.new) }
    ensures sticks { OnErr result (Sticks S.kind D.tells going.start (D.writing desk.new)) }
    ensures room { OnOk result (S.kind.room stage.new ≡ S.kind.room stage.old) }
    ensures few { OnOk result (GathersFew outputs.new) }
    ensures unread { D.reading desk.new ≡ D.reading desk.old }
    ensures touches { Touches D.tells (writes_from going.start.base_out) (failing_out result)
        (state (D.reading desk.old) (D.writing desk.old)) (state (D.reading desk.new) (D.writing desk.new)) }
{
    'items: loop {
        match stage.step(outputs) {
            Ok(Step::Taken) => {}
            Ok(Step::More { input }) => return Ok(Pause::More { input }),
            Ok(Step::End) => return Ok(Pause::End),
            Err(NoMemory) => return Err(DeskFault::NoMemory),
        }
        match flush_full(desk, outputs) {
            Ok(()) => {}
            Err(fault) => return Err(fault),
        }
    }
}

// Takes the rest of what was handed out, after a read of `input` failed, and says all of it.
fn take_rest<S: Stage, D: Desk>(
    stage: &mut S,
    outputs: &mut [Output],
    desk: &mut D,
    input: usize,
) -> Result<(), DeskFault>
    ghost start: { Start S }
    requires streams { Streams S.kind D.tells start false (state (D.reading desk.old) (D.writing desk.old)) stage.old outputs.old }
    requires waits { S.kind.waits stage.old input }
    requires width { length outputs.old ≡ S.kind.width start.begun }
    requires few { GathersFew outputs.old }
    ensures stopped { OnOk result (Stopped S.kind D.tells start true (state (D.reading desk.new) (D.writing desk.new)) stage.new outputs.new) }
    ensures sticks { OnErr result (Sticks S.kind D.tells start (D.writing desk.new)) }
    ensures touches { Touches D.tells (writes_from start.base_out) (failing_out result)
        (state (D.reading desk.old) (D.writing desk.old)) (state (D.reading desk.new) (D.writing desk.new)) }
{
    stage.cut(input);
    match take_shown(stage, outputs, desk) {
        Ok(_pause) => Ok(()),
        Err(fault) => Err(fault),
    }
}

// What became of a piece.
#[derive(Clone, Copy)]
pub(crate) enum Piece {
    // This count of octets was handed to the stage, or at 0 its end.
    Fed { count: usize },
    ReadFault,
    NoMemory,
}

// Reads the next piece of an input and hands it to the stage, or tells the stage that the input has ended.
fn read_piece<S: Stage, D: Desk>(
    stage: &mut S,
    desk: &mut D,
    input: usize,
    slot: u32,
    piece: &mut [u8],
) -> Piece
    ghost start: { Start S }
    requires waits { S.kind.waits stage.old input }
    requires inside { input < S.kind.inputs start.begun }
    requires slot { slot ≡ start.base_in + input }
    requires open { slot < (D.reading desk.old).side.slots }
    requires room { (0 < length piece.old) × (length piece.old ≤ 65536) }
    requires stands { Standing S.kind stage.old }
    ensures read { Refills S.kind D.tells start input (D.reading desk.old) (D.reading desk.new) stage.old stage.new result }
    ensures touches { Touches D.tells (reads_from start.base_in) (failing_piece result)
        (state (D.reading desk.old) (D.writing desk.old)) (state (D.reading desk.new) (D.writing desk.new)) }
{
    match desk.read(slot, piece) {
        Ok(0) => {
            stage.end(input);
            Piece::Fed { count: 0 }
        }
        Ok(count) => match stage.feed(input, &piece[..count]) {
            Ok(()) => Piece::Fed { count },
            Err(NoMemory) => Piece::NoMemory,
        },
        Err(DeskFault::Failed) => Piece::ReadFault,
        Err(DeskFault::NoMemory) => Piece::NoMemory,
    }
}

// Writes all that is gathered, if the last read gave less than a piece: the next one may wait for long, as on a pipe.
fn flush_late<D: Desk>(desk: &mut D, outputs: &mut [Output], late: bool) -> Result<(), DeskFault>
    requires are_open { AreOpen (D.writing desk.old) outputs.old }
    requires few { GathersFew outputs.old }
    ensures told { KeepsTold D.tells (D.writing desk.old) (D.writing desk.new) outputs.old outputs.new }
    ensures live { OnOk result (IsTrue late → GathersNothing outputs.new) }
    ensures few { OnOk result (GathersFew outputs.new) }
    ensures unread { D.reading desk.new ≡ D.reading desk.old }
    ensures touches { (slot : ℕ) (names texts : List (List ℕ)) → AreTold D.tells (D.writing desk.old) slot names outputs.old texts
        → Touches D.tells (writes_from slot) (failing_out result)
        (state (D.reading desk.old) (D.writing desk.old)) (state (D.reading desk.new) (D.writing desk.new)) }
{
    if late {
        return finish(desk, outputs);
    }
    Ok(())
}

/// Reads pieces of the inputs, to their end or to what stops the stage, and takes what they show.
pub(crate) fn read_on<S: Stage, D: Desk>(
    stage: &mut S,
    outputs: &mut [Output],
    desk: &mut D,
    slots: &[u32],
    piece: &mut [u8],
) -> Stop
    ghost start: { Start S }
    requires streams { Streams S.kind D.tells start false (state (D.reading desk.old) (D.writing desk.old)) stage.old outputs.old }
    requires width { length outputs.old ≡ S.kind.width start.begun }
    requires few { GathersFew outputs.old }
    requires slots { AreSlots start.base_in (S.kind.inputs start.begun) slots.now }
    requires room { (0 < length piece.old) × (length piece.old ≤ 65536) }
    ensures stops { Stops S.kind D.tells start (state (D.reading desk.new) (D.writing desk.new)) stage.new outputs.new result }
    ensures alone { S.kind.inputs start.begun ≡ 0 → ReadsNone (D.reading desk.old) (D.reading desk.new) result }
    ensures touches { Touches D.tells (streams_from start.base_in start.base_out) (failing result)
        (state (D.reading desk.old) (D.writing desk.old)) (state (D.reading desk.new) (D.writing desk.new)) }
{
    let mut late = false;
    'pieces: loop {
        let input = match take_shown(stage, outputs, desk) {
            Ok(Pause::More { input }) => input,
            Ok(Pause::End) => return Stop::Ended,
            Err(DeskFault::Failed) => return Stop::WriteFault,
            Err(DeskFault::NoMemory) => return Stop::NoMemory,
        };
        match flush_late(desk, outputs, late) {
            Ok(()) => {}
            Err(DeskFault::Failed) => return Stop::WriteFault,
            Err(DeskFault::NoMemory) => return Stop::NoMemory,
        }
        match read_piece(stage, desk, input, slots[input], piece) {
            Piece::Fed { count } => late = count < piece.len(),
            Piece::ReadFault => match take_rest(stage, outputs, desk, input) {
                Ok(()) => return Stop::ReadFault,
                Err(DeskFault::Failed) => return Stop::WriteFault,
                Err(DeskFault::NoMemory) => return Stop::NoMemory,
            },
            Piece::NoMemory => return Stop::NoMemory,
        }
    }
}
