//! `ipfix`: its names, its files and its answer.
ghost use Rattle.std.specs.Prelude.{◌≡◌, ◌≢◌, ◌∷◌, [], IsTrue};
ghost use Rattle.ioam_desk.specs.Desk.{holds};
ghost use Rattle.ioam_run_answer.specs.Bounds.{Bounds};
ghost use Rattle.ioam_run_answer.specs.Desks.{around};
ghost use Rattle.ioam_run_ipfix.specs.Promise.{IpfixCause, IpfixKeeps, IpfixLeaves, IpfixNames};

use crate::names::IpfixFiles;
use crate::packer::{Packer, answer};
use ioam_base::name::Name;
use ioam_desk::Desk;
use ioam_run_answer::{Outcome, names_outcome};
use ioam_stream::{Conversion, run};
use std::alloc::Global;
use std::slice;

/// Runs `ipfix EXPORTS OUT`: OUT has the records of EXPORTS (RFC 9326 section 3.2) as IPFIX messages (RFC 7011 section 3):
/// one with the eight templates, and one for each longest run of at most 32 records of one template.
///
/// Two names that are equal are refused; then EXPORTS is opened, and then OUT. EXPORTS is read in pieces, up to 67,108,864
/// records. Before a faulty record, a fault of reading or the limit is answered, OUT is written of the records before it.
pub fn run_ipfix<D: Desk>(alloc: Global, files: &IpfixFiles<'_>, desk: &mut D) -> Outcome
    ensures keeps { IpfixKeeps (around D.tells (D.reading desk.old) (D.reading desk.new) (D.writing desk.old) (D.writing desk.new)) files.now result }
{
    run_names(alloc, files, desk)
}

// The same, clause by clause, without what is asked for.
fn run_names<D: Desk>(alloc: Global, files: &IpfixFiles<'_>, desk: &mut D) -> Outcome
    ensures cause { IpfixCause D.tells (holds (D.writing desk.old) files.now.exports) files.now.exports files.now.out
        (D.reading desk.old) (D.reading desk.new) (D.writing desk.old) (D.writing desk.new) result }
    ensures leaves { IsTrue D.tells → IpfixLeaves (holds (D.writing desk.old) files.now.exports) files.now.out
        (D.reading desk.old) (D.reading desk.new) (D.writing desk.old) (D.writing desk.new) result }
    ensures bounds { Bounds (around D.tells (D.reading desk.old) (D.reading desk.new) (D.writing desk.old) (D.writing desk.new)) files.now.exports (files.now.out ∷ []) (files.now.exports ≢ files.now.out) result }
{
    if files.exports.is(files.out) {
        names_outcome(alloc, files.out)
    } else {
        run_files(
            alloc,
            slice::from_ref(files.exports),
            slice::from_ref(files.out),
            desk,
        )
    }
}

// Opens EXPORTS, and then OUT, and writes the records of the one to the other.
fn run_files<D: Desk>(alloc: Global, ins: &[Name], outs: &[Name], desk: &mut D) -> Outcome
    ghost files: { IpfixNames }
    requires exports { ins.now ≡ files.exports ∷ [] }
    requires out { outs.now ≡ files.out ∷ [] }
    requires apart { files.exports ≢ files.out }
    ensures cause { IpfixCause D.tells (holds (D.writing desk.old) files.exports) files.exports files.out
        (D.reading desk.old) (D.reading desk.new) (D.writing desk.old) (D.writing desk.new) result }
    ensures leaves { IsTrue D.tells → IpfixLeaves (holds (D.writing desk.old) files.exports) files.out
        (D.reading desk.old) (D.reading desk.new) (D.writing desk.old) (D.writing desk.new) result }
    ensures bounds { Bounds (around D.tells (D.reading desk.old) (D.reading desk.new) (D.writing desk.old) (D.writing desk.new)) files.exports (files.out ∷ []) (files.exports ≢ files.out) result }
{
    let Ok(packer) = Packer::new(alloc) else {
        return Outcome::NoMemory;
    };
    let mut stage = Conversion::new(packer);
    let stop = run(alloc, desk, ins, outs, &mut stage);
    answer(stop, stage.converter.cause)
}
