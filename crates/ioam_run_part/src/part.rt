//! `part EXPORTS PART`: what a collector of export records holds, as a file.
ghost use Rattle.std.specs.Prelude.{◌≡◌, ◌≢◌, ◌∷◌, [], IsTrue};
ghost use Rattle.ioam_desk.specs.Desk.{holds};
ghost use Rattle.ioam_run_answer.specs.Bounds.{Bounds};
ghost use Rattle.ioam_run_answer.specs.Desks.{around};
ghost use Rattle.ioam_run_part.specs.Files.{PartNames};
ghost use Rattle.ioam_run_part.specs.PartPromise.{PartCause, PartKeeps, PartLeaves};

use crate::names::PartFiles;
use crate::records::Part;
use ioam_base::name::Name;
use ioam_collect::{Collector, MOST_HELD};
use ioam_collect_stream::{Regrouping, answer};
use ioam_desk::Desk;
use ioam_run_answer::{Outcome, names_outcome};
use ioam_stream::{Conversion, run};
use std::alloc::Global;
use std::slice;

/// Runs `part EXPORTS PART`: PART becomes the part of the records of EXPORTS, regrouped by the packets that they tell of
/// (RFC 9326 section 3.2), each record once.
///
/// Two names that are equal are refused; then EXPORTS is opened, and then PART. EXPORTS is read in pieces, up to
/// 67,108,864 records, of which up to 1,048,576 are held. Before a faulty record, a fault of reading or a limit is
/// answered, PART is written of the records before it.
pub fn run_part<D: Desk>(alloc: Global, files: &PartFiles<'_>, desk: &mut D) -> Outcome
    ensures keeps { PartKeeps (around D.tells (D.reading desk.old) (D.reading desk.new) (D.writing desk.old) (D.writing desk.new)) files.now result }
{
    run_names(alloc, files, desk)
}

// The same, clause by clause, without what is asked for.
fn run_names<D: Desk>(alloc: Global, files: &PartFiles<'_>, desk: &mut D) -> Outcome
    ensures cause { PartCause D.tells (holds (D.writing desk.old) files.now.exports) files.now.exports files.now.part
        (D.reading desk.old) (D.reading desk.new) (D.writing desk.old) (D.writing desk.new) result }
    ensures leaves { IsTrue D.tells → PartLeaves (holds (D.writing desk.old) files.now.exports) files.now.part
        (D.reading desk.old) (D.reading desk.new) (D.writing desk.old) (D.writing desk.new) result }
    ensures bounds { Bounds (around D.tells (D.reading desk.old) (D.reading desk.new) (D.writing desk.old) (D.writing desk.new))
        files.now.exports (files.now.part ∷ []) (files.now.exports ≢ files.now.part) result }
{
    if files.exports.is(files.part) {
        names_outcome(alloc, files.part)
    } else {
        run_files(
            alloc,
            slice::from_ref(files.exports),
            slice::from_ref(files.part),
            desk,
        )
    }
}

// Opens EXPORTS, and then PART, regroups the records of the one and writes the other.
fn run_files<D: Desk>(alloc: Global, ins: &[Name], outs: &[Name], desk: &mut D) -> Outcome
    ghost files: { PartNames }
    requires exports { ins.now ≡ files.exports ∷ [] }
    requires part { outs.now ≡ files.part ∷ [] }
    requires apart { files.exports ≢ files.part }
    ensures cause { PartCause D.tells (holds (D.writing desk.old) files.exports) files.exports files.part
        (D.reading desk.old) (D.reading desk.new) (D.writing desk.old) (D.writing desk.new) result }
    ensures leaves { IsTrue D.tells → PartLeaves (holds (D.writing desk.old) files.exports) files.part
        (D.reading desk.old) (D.reading desk.new) (D.writing desk.old) (D.writing desk.new) result }
    ensures bounds { Bounds (around D.tells (D.reading desk.old) (D.reading desk.new) (D.writing desk.old) (D.writing desk.new))
        files.exports (files.part ∷ []) (files.exports ≢ files.part) result }
{
    let Ok(mut collector) = Collector::new(alloc, MOST_HELD) else {
        return Outcome::NoMemory;
    };
    let Ok(regrouping) = Regrouping::<Part<'_>>::new(alloc, &mut collector) else {
        return Outcome::NoMemory;
    };
    let mut stage = Conversion::new(regrouping);
    let stop = run(alloc, desk, ins, outs, &mut stage);
    answer(stop, stage.converter.cause)
}
