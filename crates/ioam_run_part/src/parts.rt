//! `parts PART REPORT`: a part printed.
ghost use Rattle.std.specs.Prelude.{◌≢◌};
ghost use Rattle.ioam_run_answer.specs.Desks.{around};
ghost use Rattle.ioam_run_part.specs.PartsPromise.{PartsKeeps};

use crate::kept::Lines;
use crate::names::PartsFiles;
use crate::telling::{stored_outcome, tell};
use crate::unread::{read_held, unread_outcome};
use ioam_base::name::Name;
use ioam_desk::Desk;
use ioam_run_answer::{Outcome, names_outcome};
use std::alloc::Global;

/// Runs `parts PART REPORT`: REPORT lists the records of PART by the packets that they tell of (RFC 9326 section 3.2),
/// and says how many there are.
///
/// Two names that are equal are refused; then PART is opened and read, in pieces, at most its first 300,000,000 octets;
/// then REPORT is opened, unless PART is no part.
pub fn run_parts<D: Desk>(alloc: Global, files: &PartsFiles<'_>, desk: &mut D) -> Outcome
    ensures keeps { PartsKeeps (around D.tells (D.reading desk.old) (D.reading desk.new) (D.writing desk.old) (D.writing desk.new)) files.now result }
{
    if files.part.is(files.report) {
        names_outcome(alloc, files.report)
    } else {
        run_apart(alloc, files.part, files.report, desk)
    }
}

// The same where the names differ.
fn run_apart<D: Desk>(alloc: Global, part: &Name, report: &Name, desk: &mut D) -> Outcome
    requires { part.now ≢ report.now }
    ensures { PartsKeeps (around D.tells (D.reading desk.old) (D.reading desk.new) (D.writing desk.old) (D.writing desk.new)) (record { part = part.now; report = report.now }) result }
{
    match read_held(alloc, desk, part) {
        Ok(collector) => stored_outcome(tell(alloc, desk, report, Lines { collector })),
        Err(why) => unread_outcome(alloc, part, why),
    }
}
