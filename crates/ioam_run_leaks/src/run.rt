//! `leaks IN OUT REPORT`: finds the packets that show IOAM data.
ghost use Rattle.std.specs.Prelude.{◌≡◌, length};
ghost use Rattle.ioam_run_answer.specs.Desks.{around};
ghost use Rattle.ioam_run_leaks.specs.Promise.{LeaksKeeps};

use crate::counts::Counts;
use crate::gathering::Leaking;
use ioam_desk::Desk;
use ioam_leak_flows::Flows;
use ioam_run_answer::Outcome;
use ioam_run_stream::{CaptureFiles, run_over_capture};
use std::alloc::Global;

/// Runs `leaks IN OUT REPORT`: OUT becomes the capture of the packets of IN that carry IOAM data on their header chain,
/// or quote it in an ICMPv6 error (RFC 9486 section 4, RFC 4443 section 3), unchanged, each with its time, and REPORT
/// says which these are, what hides what can't be seen, and from whom to whom most leak.
///
/// IN is read in pieces, up to 16,777,216 records.
pub fn run_leaks<D: Desk>(alloc: Global, files: &CaptureFiles<'_>, desk: &mut D) -> Outcome
    requires { length files.now.outputs ≡ 2 }
    ensures keeps { LeaksKeeps (around D.tells (D.reading desk.old) (D.reading desk.new) (D.writing desk.old) (D.writing desk.new)) files.now result }
{
    let none = Leaking {
        alloc,
        counts: Counts::NONE,
        flows: Flows::new(alloc),
    };
    run_over_capture::<Leaking, D>(alloc, files, desk, none)
}
