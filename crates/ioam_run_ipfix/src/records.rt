//! `records`: its names, its files and its answer.
ghost use Rattle.std.specs.Prelude.{◌≡◌, ◌≢◌, ◌∷◌, [], IsTrue};
ghost use Rattle.ioam_desk.specs.Desk.{holds};
ghost use Rattle.ioam_run_answer.specs.Bounds.{Bounds};
ghost use Rattle.ioam_run_answer.specs.Desks.{around};
ghost use Rattle.ioam_run_ipfix.specs.Promise.{RecordsCause, RecordsKeeps, RecordsLeaves, RecordsNames};

use crate::names::RecordsFiles;
use crate::taker::{Taker, answer};
use ioam_base::name::Name;
use ioam_desk::Desk;
use ioam_run_answer::{Outcome, names_outcome};
use ioam_stream::{Conversion, run};
use std::alloc::Global;
use std::slice;

/// Runs `records IN OUT`: OUT has the export records (RFC 9326 section 3.2) of the IPFIX messages of IN (RFC 7011 section 3),
/// one behind the other.
///
/// Two names that are equal are refused; then IN is opened, and then OUT. IN is read in pieces, up to 67,108,865 messages and
/// 67,108,864 records. Before a faulty message, a fault of reading or a limit is answered, OUT is written of the records
/// before it: of a faulty message and of one too many, no record is.
pub fn run_records<D: Desk>(alloc: Global, files: &RecordsFiles<'_>, desk: &mut D) -> Outcome
    ensures keeps { RecordsKeeps (around D.tells (D.reading desk.old) (D.reading desk.new) (D.writing desk.old) (D.writing desk.new)) files.now result }
{
    run_names(alloc, files, desk)
}

// The same, clause by clause, without what is asked for.
fn run_names<D: Desk>(alloc: Global, files: &RecordsFiles<'_>, desk: &mut D) -> Outcome
    ensures cause { RecordsCause D.tells (holds (D.writing desk.old) files.now.input) files.now.input files.now.out
        (D.reading desk.old) (D.reading desk.new) (D.writing desk.old) (D.writing desk.new) result }
    ensures leaves { IsTrue D.tells → RecordsLeaves (holds (D.writing desk.old) files.now.input) files.now.out
        (D.reading desk.old) (D.reading desk.new) (D.writing desk.old) (D.writing desk.new) result }
    ensures bounds { Bounds (around D.tells (D.reading desk.old) (D.reading desk.new) (D.writing desk.old) (D.writing desk.new)) files.now.input (files.now.out ∷ []) (files.now.input ≢ files.now.out) result }
{
    if files.input.is(files.out) {
        names_outcome(alloc, files.out)
    } else {
        run_files(
            alloc,
            slice::from_ref(files.input),
            slice::from_ref(files.out),
            desk,
        )
    }
}

// Opens IN, and then OUT, and writes the records of the one to the other.
fn run_files<D: Desk>(alloc: Global, ins: &[Name], outs: &[Name], desk: &mut D) -> Outcome
    ghost files: { RecordsNames }
    requires input { ins.now ≡ files.input ∷ [] }
    requires out { outs.now ≡ files.out ∷ [] }
    requires apart { files.input ≢ files.out }
    ensures cause { RecordsCause D.tells (holds (D.writing desk.old) files.input) files.input files.out
        (D.reading desk.old) (D.reading desk.new) (D.writing desk.old) (D.writing desk.new) result }
    ensures leaves { IsTrue D.tells → RecordsLeaves (holds (D.writing desk.old) files.input) files.out
        (D.reading desk.old) (D.reading desk.new) (D.writing desk.old) (D.writing desk.new) result }
    ensures bounds { Bounds (around D.tells (D.reading desk.old) (D.reading desk.new) (D.writing desk.old) (D.writing desk.new)) files.input (files.out ∷ []) (files.input ≢ files.out) result }
{
    let Ok(taker) = Taker::new(alloc) else {
        return Outcome::NoMemory;
    };
    let mut stage = Conversion::new(taker);
    let stop = run(alloc, desk, ins, outs, &mut stage);
    answer(stop, stage.converter.cause)
}
