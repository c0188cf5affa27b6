//! `save IN OUT`: writes a capture as pcapng.
ghost use Rattle.std.specs.Prelude.{◌≡◌, length};
ghost use Rattle.ioam_run_answer.specs.Desks.{around};
ghost use Rattle.ioam_run_capture.specs.Promise.{SaveKeeps};

use crate::saving::Saving;
use ioam_desk::Desk;
use ioam_run_answer::Outcome;
use ioam_run_stream::{CaptureFiles, run_over_capture};
use std::alloc::Global;

/// Runs `save IN OUT`: OUT becomes a capture of the form pcapng (a section and two interfaces, one of
/// packets that begin with an IP header and one of packets with an Ethernet header, both in nanoseconds)
/// of all records of IN, which may be of either form.
///
/// IN is read in pieces, up to 16,777,216 records.
pub fn run_save<D: Desk>(alloc: Global, files: &CaptureFiles<'_>, desk: &mut D) -> Outcome
    requires { length files.now.outputs ≡ 1 }
    ensures keeps { SaveKeeps (around D.tells (D.reading desk.old) (D.reading desk.new) (D.writing desk.old) (D.writing desk.new)) files.now result }
{
    run_over_capture::<Saving, D>(alloc, files, desk, Saving { packets: 0 })
}
