//! `paths IN REPORT`: lists the traces of each packet.
ghost use Rattle.std.specs.Prelude.{◌≡◌, length};
ghost use Rattle.ioam_run_answer.specs.Desks.{around};
ghost use Rattle.ioam_run_capture.specs.Promise.{PathsKeeps};

use crate::listing::{Listing, none_listed};
use crate::packet_text::TraceList;
use ioam_desk::Desk;
use ioam_run_answer::Outcome;
use ioam_run_stream::{CaptureFiles, run_over_capture};
use std::alloc::Global;

/// Runs `paths IN REPORT`: REPORT lists, for each packet of IN whose header chain is whole, the
/// pre-allocated traces in its options headers in front of any nested IPv6 header (RFC 9197 section
/// 4.4, RFC 9486 section 3).
///
/// IN is read in pieces, up to 16,777,216 records.
pub fn run_paths<D: Desk>(alloc: Global, files: &CaptureFiles<'_>, desk: &mut D) -> Outcome
    requires { length files.now.outputs ≡ 1 }
    ensures keeps { PathsKeeps (around D.tells (D.reading desk.old) (D.reading desk.new) (D.writing desk.old) (D.writing desk.new)) files.now result }
{
    run_over_capture::<Listing<TraceList>, D>(alloc, files, desk, none_listed())
}
