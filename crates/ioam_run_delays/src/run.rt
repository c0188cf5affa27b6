//! `delays FORMAT IN REPORT`: where packets lose time.
ghost use Rattle.std.specs.Prelude.{◌≡◌, length};
ghost use Rattle.ioam_run_answer.specs.Desks.{around};
ghost use Rattle.ioam_run_delays.specs.Promise.{DelaysKeeps};

use crate::gathering::Delaying;
use ioam_delay_traces::Totals;
use ioam_desk::Desk;
use ioam_run_answer::Outcome;
use ioam_run_stream::{CaptureFiles, run_over_capture};
use ioam_topo::Format;
use std::alloc::Global;

/// Runs `delays FORMAT IN REPORT`: REPORT says, for each namespace of the traces that `paths` lists, which ways their
/// packets went and their shares, how long each hop took and how long each node said that it took, each with a picture
/// of its delays, by time stamps in this format (RFC 9197 section 5).
///
/// IN is read in pieces, up to 16,777,216 records.
pub fn run_delays<D: Desk>(
    alloc: Global,
    format: Format,
    files: &CaptureFiles<'_>,
    desk: &mut D,
) -> Outcome
    requires { length files.now.outputs ≡ 1 }
    ensures keeps { DelaysKeeps format (around D.tells (D.reading desk.old) (D.reading desk.new) (D.writing desk.old) (D.writing desk.new)) files.now result }
{
    let none = Delaying {
        alloc,
        format,
        packets: 0,
        skipped: 0,
        totals: Totals::new(alloc),
    };
    run_over_capture::<Delaying, D>(alloc, files, desk, none)
}
