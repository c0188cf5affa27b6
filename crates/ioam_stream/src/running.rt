//! A run over inputs and outputs.
ghost use Rattle.std.specs.Prelude.{◌≡◌, ◌<◌, ◌≤◌, ◌↔◌, IsTrue, length};
ghost use Rattle.ioam_desk.specs.Touches.{Touches, state};
ghost use Rattle.ioam_desk_outputs.specs.Open.{AreSlots};
ghost use Rattle.ioam_desk_outputs.specs.Told.{AreTold, GathersNothing, unsaid};
ghost use Rattle.ioam_stream.specs.Stage.{HasSaid, unseen};
ghost use Rattle.ioam_stream.specs.Streams.{Start, IsFedSo, Finishes, ReadsNone, failing, streams_from};
ghost use Rattle.ioam_stream.specs.declared.reading.Stop.{Stop};
ghost use Rattle.ioam_stream.specs.Frame.{Frame, IsBroken, Leaves, Marked, Unsealed, contents};
ghost use Rattle.ioam_desk_outputs.specs.Names.{AreApart};

use crate::reading::{Stop, read_on};
use crate::stage::Stage;
use ioam_base::name::Name;
use ioam_desk::{Desk, DeskFault, new_piece};
use ioam_desk_outputs::{Output, finish, open_inputs, open_outputs};
use std::alloc::Global;

// Whether the answer leaves the outputs as they are.
fn is_broken(answer: &Stop) -> bool
    ensures { IsTrue result ↔ IsBroken answer.now }
{
    matches!(answer, Stop::WriteFault | Stop::NoMemory)
}

/// Runs a stage over files that were opened.
pub fn run_open<S: Stage, D: Desk>(
    stage: &mut S,
    outputs: &mut [Output],
    desk: &mut D,
    slots: &[u32],
    piece: &mut [u8],
) -> Stop
    ghost start: { Start S }
    requires fed { IsFedSo S.kind D.tells start (D.reading desk.old) unseen }
    requires told { AreTold D.tells (D.writing desk.old) start.base_out start.names outputs.old (unsaid start.names) }
    requires nothing { GathersNothing outputs.old }
    requires width { length outputs.old ≡ S.kind.width start.begun }
    requires same { start.begun ≡ stage.old }
    requires fresh { S.kind.fresh stage.old }
    requires slots { AreSlots start.base_in (S.kind.inputs start.begun) slots.now }
    requires room { (0 < length piece.old) × (length piece.old ≤ 65536) }
    ensures finishes { Finishes S.kind D.tells start (state (D.reading desk.new) (D.writing desk.new)) stage.new result }
    ensures alone { S.kind.inputs start.begun ≡ 0 → ReadsNone (D.reading desk.old) (D.reading desk.new) result }
    ensures touches { Touches D.tells (streams_from start.base_in start.base_out) (failing result) (state (D.reading desk.old) (D.writing desk.old)) (state (D.reading desk.new) (D.writing desk.new)) }
{
    let Ok(()) = stage.begin(outputs) else {
        return Stop::NoMemory;
    };
    let answer = read_on(stage, outputs, desk, slots, piece);
    if is_broken(&answer) {
        return answer;
    }
    match finish(desk, outputs) {
        Ok(()) => answer,
        Err(DeskFault::Failed) => Stop::WriteFault,
        Err(DeskFault::NoMemory) => Stop::NoMemory,
    }
}

/// Opens the inputs and then the outputs, each in their order, and runs a stage over them.
pub fn run<S: Stage, D: Desk>(
    alloc: Global,
    desk: &mut D,
    inputs: &[Name],
    outputs: &[Name],
    stage: &mut S,
) -> Stop
    requires apart { AreApart outputs.now }
    requires inputs { length inputs.now ≡ S.kind.inputs stage.old }
    requires width { length outputs.now ≡ S.kind.width stage.old }
    requires fresh { S.kind.fresh stage.old }
    ensures frame { Frame D.tells inputs.now outputs.now (state (D.reading desk.old) (D.writing desk.old)) (state (D.reading desk.new) (D.writing desk.new)) (S.kind.drains stage.new) result }
    ensures leaves { IsTrue D.tells → Leaves D.tells inputs.now outputs.now (state (D.reading desk.old) (D.writing desk.old)) (state (D.reading desk.new) (D.writing desk.new)) (S.kind.texts stage.old stage.new) (S.kind.firsts stage.old) result }
    ensures sealed { IsTrue D.tells → Unsealed D.tells inputs.now outputs.now (state (D.reading desk.old) (D.writing desk.old)) (state (D.reading desk.new) (D.writing desk.new)) (S.kind.sealed stage.old) (S.kind.parts stage.old) result }
    ensures marks { IsTrue D.tells → Marked D.tells inputs.now outputs.now (state (D.reading desk.old) (D.writing desk.old)) (state (D.reading desk.new) (D.writing desk.new)) (S.kind.marks stage.new) result }
    ensures alone { length inputs.now ≡ 0 → ReadsNone (D.reading desk.old) (D.reading desk.new) result }
    // Told or not, a stage that answers an end has said all of some octets.
    ensures said { result ≡ Stop.Ended → HasSaid S.kind stage.old stage.new }
{
    run_begun(alloc, desk, inputs, outputs, stage)
}

// Runs a stage, with `start` for how the run began.
fn run_begun<S: Stage, D: Desk>(
    alloc: Global,
    desk: &mut D,
    inputs: &[Name],
    outputs: &[Name],
    stage: &mut S,
) -> Stop
    ghost start: { Start S }
    requires apart { AreApart outputs.now }
    requires inputs { length inputs.now ≡ S.kind.inputs stage.old }
    requires width { length outputs.now ≡ S.kind.width stage.old }
    requires fresh { S.kind.fresh stage.old }
    requires starts { start ≡ record {
      contents = contents D.tells inputs.now outputs.now (state (D.reading desk.old) (D.writing desk.old)) (state (D.reading desk.old) (D.writing desk.old));
      base_in = (D.reading desk.old).side.slots;
      base_out = (D.writing desk.old).side.slots;
      names = outputs.now;
      begun = stage.old;
    } }
    ensures frame { Frame D.tells inputs.now outputs.now (state (D.reading desk.old) (D.writing desk.old)) (state (D.reading desk.new) (D.writing desk.new)) (S.kind.drains stage.new) result }
    ensures leaves { IsTrue D.tells → Leaves D.tells inputs.now outputs.now (state (D.reading desk.old) (D.writing desk.old)) (state (D.reading desk.new) (D.writing desk.new)) (S.kind.texts stage.old stage.new) (S.kind.firsts stage.old) result }
    ensures sealed { IsTrue D.tells → Unsealed D.tells inputs.now outputs.now (state (D.reading desk.old) (D.writing desk.old)) (state (D.reading desk.new) (D.writing desk.new)) (S.kind.sealed stage.old) (S.kind.parts stage.old) result }
    ensures marks { IsTrue D.tells → Marked D.tells inputs.now outputs.now (state (D.reading desk.old) (D.writing desk.old)) (state (D.reading desk.new) (D.writing desk.new)) (S.kind.marks stage.new) result }
    ensures alone { length inputs.now ≡ 0 → ReadsNone (D.reading desk.old) (D.reading desk.new) result }
    // Told or not, a stage that answers an end has said all of some octets.
    ensures said { result ≡ Stop.Ended → HasSaid S.kind stage.old stage.new }
{
    let Ok(mut piece) = new_piece(alloc) else {
        return Stop::NoMemory;
    };
    let slots = match open_inputs(alloc, desk, inputs) {
        Ok(slots) => slots,
        Err(DeskFault::Failed) => return Stop::ReadFault,
        Err(DeskFault::NoMemory) => return Stop::NoMemory,
    };
    match open_outputs(alloc, desk, outputs) {
        Ok(mut outputs) => run_open(stage, &mut outputs, desk, &slots, &mut piece),
        Err(DeskFault::Failed) => Stop::WriteFault,
        Err(DeskFault::NoMemory) => Stop::NoMemory,
    }
}
