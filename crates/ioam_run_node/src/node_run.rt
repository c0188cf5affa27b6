//! `node DOMAIN READINGS NODE LINK IN OUT REPORT EXPORTS`.
ghost use Rattle.std.specs.Prelude.{◌≡◌, ◌≢◌, ◌+◌, ◌<◌, ◌≤◌, ◌∷◌, [], IsTrue, Err, IfOk, IfErr, OnOk, length};
ghost use Rattle.ioam_run_files.specs.Desks.{around};
ghost use Rattle.ioam_desk.specs.Asked.{AsksFront, HaveSlots};
ghost use Rattle.ioam_desk.specs.Desk.{opened_each};
ghost use Rattle.ioam_desk.specs.Kept.{KeepsInputs};
ghost use Rattle.ioam_run_files.specs.DomainFault.{DomainFault};
ghost use Rattle.ioam_desk_outputs.specs.Names.{AreApart};
ghost use Rattle.ioam_run_files.specs.Answer.{refused_as};
ghost use Rattle.ioam_run_files.specs.Failures.{AnswersFailures};
ghost use Rattle.ioam_run_files.specs.Outcome.{Outcome};
ghost use Rattle.ioam_run_files.specs.Outcomes.{IsSettled};
ghost use Rattle.ioam_run_files.specs.Setting.{IsDomainFirst, IsSetting, Refuses};
ghost use Rattle.ioam_run_files.specs.declared.setting.Refusal.{Refusal};
ghost use Rattle.ioam_topo.specs.Domain.{nodes};
ghost use Rattle.ioam_run_node.specs.Ends.{Ends, EndsAt, Ran};
ghost use Rattle.ioam_run_node.specs.Promise.{Keeps, Owes, node_files};
ghost use Rattle.ioam_run_node.specs.Seat.{seat_at};

use crate::names::{NodeFiles, inward_of, node_files};
use crate::passing::Passing;
use crate::post::Post;
use crate::sending::Sent;
use ioam_desk::Desk;
use ioam_desk_outputs::first_repeat;
use ioam_run_files::{Outcome, Refusal, Setting, names_outcome, read_setting, refused};
use ioam_run_stream::run_capture;
use ioam_topo::NodeId;
use std::alloc::Global;

/// Runs `node DOMAIN READINGS NODE LINK IN OUT REPORT EXPORTS`: the packets of the capture IN come to NODE by LINK.
/// OUT gets what the node sends on, each with its time: the hop limit lowered by one, and in each pre-allocated trace of
/// the outer Hop-by-Hop Options header (RFC 9197 section 4.4, RFC 9486 section 3) what the node adds. REPORT says what became of each
/// packet, and EXPORTS has the records that its direct export options ask for (RFC 9326 section 3).
///
/// DOMAIN is read first, then READINGS; then NODE, LINK and two files of one name are refused; then IN is opened, then the
/// outputs, and only then anything of IN is read. Up to as many packets as the domain allows are taken.
pub fn run_node<D: Desk>(alloc: Global, files: &NodeFiles<'_>, desk: &mut D) -> Outcome
    ensures keeps { Keeps (around D.tells (D.reading desk.old) (D.reading desk.new) (D.writing desk.old) (D.writing desk.new)) files.now result }
{
    run_names(alloc, files, desk)
}

// Reads the two files that the domain is set by, and runs the node.
fn run_names<D: Desk>(alloc: Global, files: &NodeFiles<'_>, desk: &mut D) -> Outcome
    ensures owes { Owes D.tells files.now (D.reading desk.old) (D.reading desk.new) (D.writing desk.old) (D.writing desk.new) result }
    ensures failures { AnswersFailures (around D.tells (D.reading desk.old) (D.reading desk.new) (D.writing desk.old) (D.writing desk.new)) result }
{
    match read_names(alloc, files, desk) {
        Ok(setting) => run_set(alloc, files, &setting, desk),
        Err(refusal) => refused(refusal),
    }
}

// Reads the two files that the domain is set by.
fn read_names<D: Desk>(
    alloc: Global,
    files: &NodeFiles<'_>,
    desk: &mut D,
) -> Result<Setting, Refusal>
    ensures read { IfOk result (λ setting. IsTrue D.tells
        → IsSetting (D.writing desk.old) files.now.domain files.now.readings setting.domain setting.readings) }
    ensures refused { IfErr result (Refuses (D.writing desk.old) files.now.domain files.now.readings D.tells (D.reading desk.old) (D.reading desk.new)) }
    ensures settled { IfErr result (λ refusal. IsSettled (refused_as refusal)
        → (D.reading desk.new).side.faults ≡ (D.reading desk.old).side.faults) }
    ensures opens { IfErr result (λ refusal. refused_as refusal ≢ Outcome.ReadFault
        → HaveSlots (D.reading desk.old).side (D.reading desk.new).side) }
    ensures side { OnOk result ((D.reading desk.new).side ≡ opened_each (D.reading desk.old).side (files.now.domain ∷ files.now.readings ∷ [])) }
    ensures ended { OnOk result (IsTrue D.tells → IsTrue ((D.reading desk.new).ended (D.reading desk.old).side.slots)
        × IsTrue ((D.reading desk.new).ended ((D.reading desk.old).side.slots + 1))) }
    ensures asked { AsksFront (D.reading desk.old).side.asked (D.reading desk.new).side.asked (files.now.domain ∷ files.now.readings ∷ []) }
    ensures few { (D.reading desk.new).side.slots ≤ (D.reading desk.old).side.slots + 2 }
    ensures domain_first { (fault : DomainFault) → result ≡ Err (Refusal.Domain fault)
        → AsksFront (D.reading desk.old).side.asked (D.reading desk.new).side.asked (files.now.domain ∷ []) }
    ensures in_turn { IsDomainFirst (D.writing desk.old) files.now.domain files.now.readings D.tells (D.reading desk.old) (D.reading desk.new) }
    ensures kept { KeepsInputs (D.reading desk.old) (D.reading desk.new) }
    ensures outputs { D.writing desk.new ≡ D.writing desk.old }
{
    read_setting(alloc, desk, files.domain, files.readings)
}

// Runs the node that is named in a domain that was read.
fn run_set<D: Desk>(
    alloc: Global,
    files: &NodeFiles<'_>,
    setting: &Setting,
    desk: &mut D,
) -> Outcome
    ensures ends { Ends D.tells files.now (D.reading desk.old) (D.reading desk.new) (D.writing desk.old) (D.writing desk.new) setting.now.domain setting.now.readings result }
    ensures failures { AnswersFailures (around D.tells (D.reading desk.old) (D.reading desk.new) (D.writing desk.old) (D.writing desk.new)) result }
{
    let Some(node) = setting.domain.node_named(files.node.text()) else {
        return names_outcome(alloc, files.node);
    };
    let Some(inward) = inward_of(&setting.domain, node, files.link) else {
        return names_outcome(alloc, files.link);
    };
    run_at(alloc, files, setting, node, inward, desk)
}

// Runs a node, by its place in the domain, over what comes by an interface: the files have to differ.
fn run_at<D: Desk>(
    alloc: Global,
    files: &NodeFiles<'_>,
    setting: &Setting,
    node: NodeId,
    inward: u32,
    desk: &mut D,
) -> Outcome
    requires inside { node.0 < length (nodes setting.now.domain) }
    ensures ends { EndsAt D.tells files.now (D.reading desk.old) (D.reading desk.new) (D.writing desk.old) (D.writing desk.new)
        (seat_at setting.now.domain setting.now.readings node inward) result }
    ensures failures { AnswersFailures (around D.tells (D.reading desk.old) (D.reading desk.new) (D.writing desk.old) (D.writing desk.new)) result }
{
    let Ok(mut names) = node_files(alloc, files) else {
        return Outcome::NoMemory;
    };
    match first_repeat(&names) {
        Some(at) => Outcome::Names {
            name: names.swap_remove(at),
        },
        None => run_apart(alloc, files, setting, node, inward, desk),
    }
}

// The same, where they differ.
fn run_apart<D: Desk>(
    alloc: Global,
    files: &NodeFiles<'_>,
    setting: &Setting,
    node: NodeId,
    inward: u32,
    desk: &mut D,
) -> Outcome
    requires inside { node.0 < length (nodes setting.now.domain) }
    requires apart { AreApart (node_files files.now) }
    ensures ran { Ran D.tells files.now (D.reading desk.old) (D.reading desk.new) (D.writing desk.old) (D.writing desk.new)
        (seat_at setting.now.domain setting.now.readings node inward) result }
    ensures failures { AnswersFailures (around D.tells (D.reading desk.old) (D.reading desk.new) (D.writing desk.old) (D.writing desk.new)) result }
{
    let none = Passing {
        alloc,
        post: Post {
            domain: &setting.domain,
            readings: &setting.readings,
            node,
            inward,
        },
        sent: 0,
        dropped: 0,
        spare: Sent::none(alloc),
    };
    let limit = setting.domain.packets();
    run_capture::<Passing<'_>, D>(alloc, desk, files.input, files.outputs(), none, limit)
}
