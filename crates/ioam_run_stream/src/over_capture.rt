//! A command over one capture: its names, its files and its answer.
ghost use Rattle.std.specs.Prelude.{◌≡◌, ◌∷◌, ◌++◌, ◌+◌, ◌<◌, ◌≤◌, ◌⊎◌, [], IsTrue, Some, length};
ghost use Rattle.ioam_desk.specs.Asked.{AsksFront};
ghost use Rattle.ioam_desk.specs.Desk.{holds};
ghost use Rattle.ioam_desk.specs.Kept.{KeepsInputs, KeepsOutputs};
ghost use Rattle.ioam_desk_outputs.specs.Names.{AreApart};
ghost use Rattle.ioam_run_answer.specs.Desks.{around};
ghost use Rattle.ioam_run_answer.specs.Failures.{AnswersFailures};
ghost use Rattle.ioam_run_answer.specs.Outcomes.{IsDone, IsBehindAll, OpensNothing};
ghost use Rattle.ioam_run_stream.specs.Answers.{Answers, FileCause};
ghost use Rattle.ioam_run_stream.specs.Promise.{most_packets, HasCause, Keeps, Leaves, all_names};

use crate::captured::{Captured, End, MOST_PACKETS};
use crate::files::CaptureFiles;
use crate::gather::Gather;
use ioam_base::name::Name;
use ioam_desk::Desk;
use ioam_desk_outputs::first_repeat;
use ioam_run_answer::{Outcome, capture_outcome, names_outcome};
use ioam_stream::{Conversion, Stop, run};
use std::alloc::Global;
use std::slice;

/// Runs a command over the capture and the outputs that are named.
///
/// Two names that are equal are refused first; then the capture is opened, and the outputs are, and
/// nothing of it is read before. It is read in pieces, and what is gathered of its records is written in
/// pieces: also before a fault of the capture, a fault of reading or the limit is answered, and at the end.
pub fn run_over_capture<G: Gather, D: Desk>(
    alloc: Global,
    files: &CaptureFiles<'_>,
    desk: &mut D,
    gathered: G,
) -> Outcome
    requires width { length files.now.outputs ≡ G.width }
    requires fresh { G.fresh gathered }
    ensures keeps { Keeps (G.texts gathered) (around D.tells (D.reading desk.old) (D.reading desk.new) (D.writing desk.old) (D.writing desk.new)) files.now result }
{
    run_names::<G, D>(alloc, files, desk, gathered)
}

// The same, clause by clause.
fn run_names<G: Gather, D: Desk>(
    alloc: Global,
    files: &CaptureFiles<'_>,
    desk: &mut D,
    gathered: G,
) -> Outcome
    requires width { length files.now.outputs ≡ G.width }
    requires fresh { G.fresh gathered }
    ensures cause { HasCause (around D.tells (D.reading desk.old) (D.reading desk.new) (D.writing desk.old) (D.writing desk.new)) files.now result }
    ensures leaves { IsTrue D.tells → Leaves most_packets (G.texts gathered) files.now.outputs files.now.input (D.reading desk.old) (D.reading desk.new)
        (D.writing desk.old) (D.writing desk.new) result }
    ensures asked_in { AsksFront (D.reading desk.old).side.asked (D.reading desk.new).side.asked (files.now.input ∷ []) }
    ensures asked_out { AsksFront (D.writing desk.old).side.asked (D.writing desk.new).side.asked files.now.outputs }
    ensures all_in { IsBehindAll ⊥ result → (D.reading desk.new).side.asked ≡ (D.reading desk.old).side.asked ++ files.now.input ∷ [] }
    ensures all_out { IsBehindAll ⊥ result → (D.writing desk.new).side.asked ≡ (D.writing desk.old).side.asked ++ files.now.outputs }
    ensures unopened { OpensNothing result → D.reading desk.new ≡ D.reading desk.old }
    ensures differed { (D.reading desk.new ≡ D.reading desk.old) ⊎ AreApart (all_names files.now) }
    ensures no_output { (D.reading desk.new).side.slots ≡ (D.reading desk.old).side.slots → D.writing desk.new ≡ D.writing desk.old }
    ensures unread { IsTrue D.tells → (D.writing desk.new).side.slots < (D.writing desk.old).side.slots + length files.now.outputs
        → (D.reading desk.old).side.slots < (D.reading desk.new).side.slots
        → holds (D.writing desk.old) files.now.input ≡ Some ((D.reading desk.new).left (D.reading desk.old).side.slots) }
    ensures drained { IsDone result → IsTrue D.tells → IsTrue ((D.reading desk.new).ended (D.reading desk.old).side.slots) }
    ensures failures { AnswersFailures (around D.tells (D.reading desk.old) (D.reading desk.new) (D.writing desk.old) (D.writing desk.new)) result }
    ensures kept_in { KeepsInputs (D.reading desk.old) (D.reading desk.new) }
    ensures kept_out { IsTrue D.tells → KeepsOutputs (D.writing desk.old) (D.writing desk.new) }
{
    let names = files.all();
    match first_repeat(names) {
        Some(at) => names_outcome(alloc, &names[at]),
        None => run_capture::<G, D>(
            alloc,
            desk,
            files.input(),
            files.outputs(),
            gathered,
            MOST_PACKETS,
        ),
    }
}

/// Opens a capture, and then outputs whose names differ, and then reads it and gathers the texts of its
/// records, up to `limit` of them, which is 16,777,216 at most.
pub fn run_capture<G: Gather, D: Desk>(
    alloc: Global,
    desk: &mut D,
    input: &Name,
    names: &[Name],
    gathered: G,
    limit: u32,
) -> Outcome
    requires apart { AreApart names.now }
    requires width { length names.now ≡ G.width }
    requires fresh { G.fresh gathered }
    requires limit { limit ≤ most_packets }
    ensures cause { FileCause limit D.tells input.now (D.reading desk.old) (D.writing desk.old) (D.reading desk.new) (D.writing desk.new) result }
    ensures leaves { IsTrue D.tells → Leaves limit (G.texts gathered) names.now input.now (D.reading desk.old) (D.reading desk.new)
        (D.writing desk.old) (D.writing desk.new) result }
    ensures asked_in { AsksFront (D.reading desk.old).side.asked (D.reading desk.new).side.asked (input.now ∷ []) }
    ensures asked_out { AsksFront (D.writing desk.old).side.asked (D.writing desk.new).side.asked names.now }
    ensures all_in { IsBehindAll ⊥ result → (D.reading desk.new).side.asked ≡ (D.reading desk.old).side.asked ++ input.now ∷ [] }
    ensures all_out { IsBehindAll ⊥ result → (D.writing desk.new).side.asked ≡ (D.writing desk.old).side.asked ++ names.now }
    ensures no_output { (D.reading desk.new).side.slots ≤ (D.reading desk.old).side.slots → D.writing desk.new ≡ D.writing desk.old }
    ensures unread { IsTrue D.tells → (D.writing desk.new).side.slots < (D.writing desk.old).side.slots + length names.now
        → (D.reading desk.old).side.slots < (D.reading desk.new).side.slots
        → holds (D.writing desk.old) input.now ≡ Some ((D.reading desk.new).left (D.reading desk.old).side.slots) }
    ensures drained { IsDone result → IsTrue D.tells → IsTrue ((D.reading desk.new).ended (D.reading desk.old).side.slots) }
    ensures failures { AnswersFailures (around D.tells (D.reading desk.old) (D.reading desk.new) (D.writing desk.old) (D.writing desk.new)) result }
    ensures kept_in { KeepsInputs (D.reading desk.old) (D.reading desk.new) }
    ensures kept_out { IsTrue D.tells → KeepsOutputs (D.writing desk.old) (D.writing desk.new) }
{
    let Ok(captured) = Captured::new(alloc, gathered, limit) else {
        return Outcome::NoMemory;
    };
    let mut stage = Conversion::new(captured);
    let stop = run(alloc, desk, slice::from_ref(input), names, &mut stage);
    stop_outcome(alloc, input, limit, stop, stage.converter.end)
}

// The answer of a run that ended so.
fn stop_outcome(alloc: Global, input: &Name, limit: u32, stop: Stop, end: End) -> Outcome
    ensures { Answers input.now limit stop end result }
{
    match stop {
        Stop::Ended => match end {
            End::Open | End::Whole => Outcome::Done,
            End::Bad { at, fault } => capture_outcome(alloc, input, at, fault),
            End::Limit => Outcome::Packets { limit },
        },
        Stop::ReadFault => Outcome::ReadFault,
        Stop::WriteFault => Outcome::WriteFault,
        Stop::NoMemory => Outcome::NoMemory,
    }
}
