//! `show IN REPORT`: decodes every IOAM option of each packet.
ghost use Rattle.std.specs.Prelude.{◌≡◌, length};
ghost use Rattle.ioam_run_answer.specs.Desks.{around};
ghost use Rattle.ioam_run_capture.specs.Promise.{ShowKeeps};

use crate::listing::{Listing, none_listed};
use crate::packet_text::OptionList;
use ioam_desk::Desk;
use ioam_run_answer::Outcome;
use ioam_run_stream::{CaptureFiles, run_over_capture};
use std::alloc::Global;

/// Runs `show IN REPORT`: REPORT decodes, for each packet of IN whose header chain is whole, every
/// IOAM option on the chain, nested IPv6 headers included (RFC 9486 section 3): traces, pre-allocated and
/// incremental, proofs of transit, edge-to-edge data (RFC 9197) and direct export data (RFC 9326).
///
/// IN is read in pieces, up to 16,777,216 records.
pub fn run_show<D: Desk>(alloc: Global, files: &CaptureFiles<'_>, desk: &mut D) -> Outcome
    requires { length files.now.outputs ≡ 1 }
    ensures keeps { ShowKeeps (around D.tells (D.reading desk.old) (D.reading desk.new) (D.writing desk.old) (D.writing desk.new)) files.now result }
{
    run_over_capture::<Listing<OptionList>, D>(alloc, files, desk, none_listed())
}
