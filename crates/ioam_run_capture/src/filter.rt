//! `filter IN OUT REPORT`: keeps the packets that may leave a domain.
ghost use Rattle.std.specs.Prelude.{◌≡◌, length};
ghost use Rattle.ioam_run_answer.specs.Desks.{around};
ghost use Rattle.ioam_run_capture.specs.Promise.{FilterKeeps};

use crate::filtering::Filtering;
use ioam_desk::Desk;
use ioam_run_answer::Outcome;
use ioam_run_stream::{CaptureFiles, run_over_capture};
use std::alloc::Global;

/// Runs `filter IN OUT REPORT`: OUT becomes the capture of the packets of IN whose header chain is
/// whole and has no IOAM option (RFC 8200 section 4, RFC 9486 section 3), unchanged, each with its time,
/// and REPORT says what became of each.
///
/// IN is read in pieces, up to 16,777,216 records.
pub fn run_filter<D: Desk>(alloc: Global, files: &CaptureFiles<'_>, desk: &mut D) -> Outcome
    requires { length files.now.outputs ≡ 2 }
    ensures keeps { FilterKeeps (around D.tells (D.reading desk.old) (D.reading desk.new) (D.writing desk.old) (D.writing desk.new)) files.now result }
{
    let none = Filtering {
        kept: 0,
        dropped: 0,
    };
    run_over_capture::<Filtering, D>(alloc, files, desk, none)
}
