//! The command: its names, its files and its answer.
ghost use Rattle.std.specs.Prelude.{◌≡◌, ◌≢◌, ◌∷◌, [], IsTrue};
ghost use Rattle.ioam_desk.specs.Desk.{holds};
ghost use Rattle.ioam_run_answer.specs.Bounds.{Bounds};
ghost use Rattle.ioam_run_answer.specs.Desks.{around};
ghost use Rattle.ioam_run_collect.specs.Promise.{CollectNames, HasCause, Keeps, Leaves};

use crate::groups::Groups;
use crate::names::CollectFiles;
use ioam_base::name::Name;
use ioam_collect::{Collector, MOST_HELD};
use ioam_collect_stream::{Regrouping, answer};
use ioam_desk::Desk;
use ioam_run_answer::{Outcome, names_outcome};
use ioam_stream::{Conversion, run};
use std::alloc::Global;
use std::slice;

/// Runs `collect EXPORTS REPORT`: REPORT lists the records of EXPORTS by the packets that they tell of
/// (RFC 9326 section 3.2), each record once.
///
/// Two names that are equal are refused; then EXPORTS is opened, and then REPORT. EXPORTS is read in
/// pieces, up to 67,108,864 records, of which up to 1,048,576 are held. Before a faulty record, a fault
/// of reading or a limit is answered, REPORT is written of the records before it.
pub fn run_collect<D: Desk>(alloc: Global, files: &CollectFiles<'_>, desk: &mut D) -> Outcome
    ensures keeps { Keeps (around D.tells (D.reading desk.old) (D.reading desk.new) (D.writing desk.old) (D.writing desk.new)) files.now result }
{
    run_names(alloc, files, desk)
}

// The same, clause by clause, without what is asked for.
fn run_names<D: Desk>(alloc: Global, files: &CollectFiles<'_>, desk: &mut D) -> Outcome
    ensures cause { HasCause D.tells (holds (D.writing desk.old) files.now.exports) files.now.exports files.now.report
        (D.reading desk.old) (D.reading desk.new) (D.writing desk.old) (D.writing desk.new) result }
    ensures leaves { IsTrue D.tells → Leaves (holds (D.writing desk.old) files.now.exports) files.now.report
        (D.reading desk.old) (D.reading desk.new) (D.writing desk.old) (D.writing desk.new) result }
    ensures bounds { Bounds (around D.tells (D.reading desk.old) (D.reading desk.new) (D.writing desk.old) (D.writing desk.new))
        files.now.exports (files.now.report ∷ []) (files.now.exports ≢ files.now.report) result }
{
    if files.exports.is(files.report) {
        names_outcome(alloc, files.report)
    } else {
        run_files(
            alloc,
            slice::from_ref(files.exports),
            slice::from_ref(files.report),
            desk,
        )
    }
}

// Opens EXPORTS, and then REPORT, regroups the records of the one and writes the other.
fn run_files<D: Desk>(alloc: Global, ins: &[Name], outs: &[Name], desk: &mut D) -> Outcome
    ghost files: { CollectNames }
    requires exports { ins.now ≡ files.exports ∷ [] }
    requires report { outs.now ≡ files.report ∷ [] }
    requires apart { files.exports ≢ files.report }
    ensures cause { HasCause D.tells (holds (D.writing desk.old) files.exports) files.exports files.report
        (D.reading desk.old) (D.reading desk.new) (D.writing desk.old) (D.writing desk.new) result }
    ensures leaves { IsTrue D.tells → Leaves (holds (D.writing desk.old) files.exports) files.report
        (D.reading desk.old) (D.reading desk.new) (D.writing desk.old) (D.writing desk.new) result }
    ensures bounds { Bounds (around D.tells (D.reading desk.old) (D.reading desk.new) (D.writing desk.old) (D.writing desk.new))
        files.exports (files.report ∷ []) (files.exports ≢ files.report) result }
{
    let Ok(mut collector) = Collector::new(alloc, MOST_HELD) else {
        return Outcome::NoMemory;
    };
    let Ok(regrouping) = Regrouping::<Groups>::new(alloc, &mut collector) else {
        return Outcome::NoMemory;
    };
    let mut stage = Conversion::new(regrouping);
    let stop = run(alloc, desk, ins, outs, &mut stage);
    answer(stop, stage.converter.cause)
}
