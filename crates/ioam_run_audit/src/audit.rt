//! `audit DOMAIN NODE LINK BEFORE AFTER REPORT`.
ghost use Rattle.std.specs.Prelude.{◌≡◌, ◌≢◌, ◌+◌, ◌≤◌, ◌∷◌, [], Err, IfErr, IfOk, IsTrue, OnOk};
ghost use Rattle.ioam_desk.specs.Asked.{AsksFront, HaveSlots};
ghost use Rattle.ioam_desk.specs.Desk.{holds, opened_side};
ghost use Rattle.ioam_desk.specs.Kept.{KeepsInputs};
ghost use Rattle.ioam_run_answer.specs.Desks.{around};
ghost use Rattle.ioam_run_answer.specs.Failures.{AnswersFailures};
ghost use Rattle.ioam_run_answer.specs.Outcomes.{IsSettled};
ghost use Rattle.ioam_run_audit.specs.Ends.{Ends, EndsAt};
ghost use Rattle.ioam_run_audit.specs.Comparing.{place_of};
ghost use Rattle.ioam_run_audit.specs.Promise.{Keeps, Owes};
ghost use Rattle.ioam_run_files.specs.Answer.{refused_as};
ghost use Rattle.ioam_run_files.specs.Reads.{IsDomainRead};

use crate::files::run_files;
use crate::names::{AuditFiles, audit_files, link_to};
use crate::seat::Seat;
use ioam_desk::Desk;
use ioam_desk_outputs::first_repeat;
use ioam_run_answer::{Outcome, names_outcome};
use ioam_run_files::{Refusal, read_domain_file, refused};
use ioam_topo::Domain;
use std::alloc::Global;

/// Runs `audit DOMAIN NODE LINK BEFORE AFTER REPORT`: REPORT says of each packet of the capture BEFORE whether the next packet of
/// the capture AFTER can be this one, as NODE, to which it came by LINK, sends it on: the hop limit lowered by one, and in each
/// pre-allocated trace of the outer Hop-by-Hop Options header what a node may add (RFC 9197 section 4.4, RFC 9486 section 3). Its
/// verdict is whether each packet of AFTER is one of BEFORE, in their order.
///
/// DOMAIN is read first; then NODE, LINK and two files of one name are refused; then BEFORE and AFTER are opened, then REPORT, and
/// only then anything of the two captures is read. Up to 16,777,216 packets of each are taken. What is wrong with BEFORE is answered
/// before what is wrong with AFTER.
pub fn run_audit<D: Desk>(alloc: Global, files: &AuditFiles<'_>, desk: &mut D) -> Outcome
    ensures keeps { Keeps (around D.tells (D.reading desk.old) (D.reading desk.new) (D.writing desk.old) (D.writing desk.new)) files.now result }
{
    run_names(alloc, files, desk)
}

// Reads the domain, and runs the command in it.
fn run_names<D: Desk>(alloc: Global, files: &AuditFiles<'_>, desk: &mut D) -> Outcome
    ensures owes { Owes D.tells files.now (D.reading desk.old) (D.reading desk.new) (D.writing desk.old) (D.writing desk.new) result }
    ensures failures { AnswersFailures (around D.tells (D.reading desk.old) (D.reading desk.new) (D.writing desk.old) (D.writing desk.new)) result }
{
    match read_named(alloc, files, desk) {
        Ok(domain) => run_set(alloc, files, &domain, desk),
        Err(refusal) => refused(refusal),
    }
}

// Reads the domain.
fn read_named<D: Desk>(
    alloc: Global,
    files: &AuditFiles<'_>,
    desk: &mut D,
) -> Result<Domain, Refusal>
    ensures read { IsDomainRead D.tells (D.reading desk.old) (D.reading desk.new) (holds (D.writing desk.old) files.now.domain) result }
    ensures settled { IfErr result (λ refusal. IsSettled (refused_as refusal)
        → (D.reading desk.new).side.faults ≡ (D.reading desk.old).side.faults) }
    ensures opens { IfErr result (λ refusal. refused_as refusal ≢ Outcome.ReadFault
        → HaveSlots (D.reading desk.old).side (D.reading desk.new).side) }
    ensures side { OnOk result ((D.reading desk.new).side ≡ opened_side (D.reading desk.old).side files.now.domain) }
    ensures ended { OnOk result (IsTrue D.tells → IsTrue ((D.reading desk.new).ended (D.reading desk.old).side.slots)) }
    ensures asked { AsksFront (D.reading desk.old).side.asked (D.reading desk.new).side.asked (files.now.domain ∷ []) }
    ensures few { (D.reading desk.new).side.slots ≤ (D.reading desk.old).side.slots + 1 }
    ensures kept { KeepsInputs (D.reading desk.old) (D.reading desk.new) }
    ensures outputs { D.writing desk.new ≡ D.writing desk.old }
{
    read_domain_file(alloc, desk, files.domain)
}

// Runs the command at the node and the link that are named in a domain.
fn run_set<D: Desk>(alloc: Global, files: &AuditFiles<'_>, domain: &Domain, desk: &mut D) -> Outcome
    ensures ends { Ends D.tells files.now (D.reading desk.old) (D.reading desk.new) (D.writing desk.old) (D.writing desk.new) domain.now result }
    ensures failures { AnswersFailures (around D.tells (D.reading desk.old) (D.reading desk.new) (D.writing desk.old) (D.writing desk.new)) result }
{
    let Some(node) = domain.node_named(files.node.text()) else {
        return names_outcome(alloc, files.node);
    };
    let Some(link) = link_to(domain, node, files.link) else {
        return names_outcome(alloc, files.link);
    };
    let seat = Seat { domain, node, link };
    run_at(alloc, files, &seat, desk)
}

// Runs the command at a node and a link: the files have to differ.
fn run_at<D: Desk>(alloc: Global, files: &AuditFiles<'_>, seat: &Seat<'_>, desk: &mut D) -> Outcome
    ensures ends { EndsAt D.tells files.now (D.reading desk.old) (D.reading desk.new) (D.writing desk.old) (D.writing desk.new) (place_of seat.now) result }
    ensures failures { AnswersFailures (around D.tells (D.reading desk.old) (D.reading desk.new) (D.writing desk.old) (D.writing desk.new)) result }
{
    let Ok(mut names) = audit_files(alloc, files) else {
        return Outcome::NoMemory;
    };
    match first_repeat(&names) {
        Some(at) => Outcome::Names {
            name: names.swap_remove(at),
        },
        None => run_files(alloc, files, &names, seat, desk),
    }
}
