//! The files of the command but for DOMAIN: BEFORE, AFTER, and then REPORT.
ghost use Rattle.std.specs.Prelude.{◌≡◌, ◌⊎◌};
ghost use Rattle.ioam_desk_outputs.specs.Names.{AreApart};
ghost use Rattle.ioam_run_answer.specs.Bounds.{answered};
ghost use Rattle.ioam_run_answer.specs.Desks.{around};
ghost use Rattle.ioam_run_answer.specs.Failures.{AnswersFailures};
ghost use Rattle.ioam_run_audit.specs.Comparing.{place_of};
ghost use Rattle.ioam_run_audit.specs.Ends.{Ran, answer_of};
ghost use Rattle.ioam_run_audit.specs.Promise.{audit_files};
ghost use Rattle.ioam_run_audit.specs.declared.cursor.End.{End};
ghost use Rattle.ioam_stream.specs.declared.reading.Stop.{Stop};
ghost use Rattle.ioam_run_answer.specs.declared.outcome.Outcome.{Outcome};

use crate::comparison::Comparison;
use crate::cursor::End;
use crate::names::AuditFiles;
use crate::seat::Seat;
use ioam_base::name::Name;
use ioam_desk::Desk;
use ioam_run_answer::{Outcome, capture_outcome};
use ioam_run_stream::MOST_PACKETS;
use ioam_stream::{Stop, run};
use std::alloc::Global;

// The answer of a run that stopped so, of which BEFORE, of a name, ends so, and AFTER, of another, so: what is wrong with
// BEFORE comes before what is wrong with AFTER.
fn answer(alloc: Global, before: &Name, after: &Name, stop: Stop, how: End, last: End) -> Outcome
    ensures said { (result ≡ answered stop (answer_of before.now after.now how last)) ⊎ ((stop ≡ Stop.Ended) × (result ≡ Outcome.NoMemory)) }
    // Of two whole captures it is Done, which takes no memory.
    ensures done { stop ≡ Stop.Ended → how ≡ End.Whole → last ≡ End.Whole → result ≡ Outcome.Done }
{
    match stop {
        Stop::Ended => ended(alloc, before, after, how, last),
        Stop::ReadFault => Outcome::ReadFault,
        Stop::WriteFault => Outcome::WriteFault,
        Stop::NoMemory => Outcome::NoMemory,
    }
}

// The answer of a run that has ended.
fn ended(alloc: Global, before: &Name, after: &Name, how: End, last: End) -> Outcome
    ensures said { (result ≡ answer_of before.now after.now how last) ⊎ (result ≡ Outcome.NoMemory) }
    ensures done { how ≡ End.Whole → last ≡ End.Whole → result ≡ Outcome.Done }
{
    match (how, last) {
        (End::Bad { at, fault }, _) => capture_outcome(alloc, before, at, fault),
        (End::Limit, _) | (_, End::Limit) => Outcome::Packets {
            limit: MOST_PACKETS,
        },
        (_, End::Bad { at, fault }) => capture_outcome(alloc, after, at, fault),
        (_, _) => Outcome::Done,
    }
}

/// Opens BEFORE, then AFTER, then REPORT, and compares the two captures. `names` are those of all files.
pub(crate) fn run_files<D: Desk>(
    alloc: Global,
    files: &AuditFiles<'_>,
    names: &[Name],
    seat: &Seat<'_>,
    desk: &mut D,
) -> Outcome
    requires names { names.now ≡ audit_files files.now }
    requires apart { AreApart (audit_files files.now) }
    ensures ran { Ran D.tells files.now (D.reading desk.old) (D.reading desk.new) (D.writing desk.old) (D.writing desk.new) (place_of seat.now) result }
    ensures failures { AnswersFailures (around D.tells (D.reading desk.old) (D.reading desk.new) (D.writing desk.old) (D.writing desk.new)) result }
{
    let Ok(mut stage) = Comparison::new(alloc, seat) else {
        return Outcome::NoMemory;
    };
    let stop = run(alloc, desk, &names[1..3], &names[3..], &mut stage);
    answer(
        alloc,
        files.before,
        files.after,
        stop,
        stage.before.end,
        stage.after.end,
    )
}
