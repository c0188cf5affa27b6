//! `run DOMAIN READINGS WORKERS REPORT EXPORTS`.
ghost use Rattle.std.specs.Prelude.{◌≡◌, ◌≢◌, ◌+◌, ◌<◌, ◌≤◌, ◌⊎◌, ◌∷◌, ◌++◌, [], IsTrue, Err, IfOk, IfErr, OnOk, length};
ghost use Rattle.ioam_desk.specs.Asked.{AsksFront, HaveSlots};
ghost use Rattle.ioam_desk.specs.Desk.{opened_each};
ghost use Rattle.ioam_desk.specs.Kept.{KeepsInputs, KeepsOutputs};
ghost use Rattle.ioam_run_traffic.specs.Merging.{AreUnread, EndsKept, start_of};
ghost use Rattle.ioam_desk_outputs.specs.Names.{AreApart};
ghost use Rattle.ioam_run_files.specs.Answer.{refused_as};
ghost use Rattle.ioam_run_files.specs.Desks.{around};
ghost use Rattle.ioam_run_files.specs.Failures.{AnswersFailures};
ghost use Rattle.ioam_run_files.specs.Outcome.{Outcome};
ghost use Rattle.ioam_run_files.specs.Outcomes.{IsBehindAll, IsSettled};
ghost use Rattle.ioam_run_files.specs.Setting.{IsDomainFirst, IsSetting, Refuses};
ghost use Rattle.ioam_run_files.specs.declared.setting.Refusal.{Refusal};
ghost use Rattle.ioam_run_files.specs.Outlets.{outlet_count};
ghost use Rattle.ioam_run_files.specs.DomainFault.{DomainFault};
ghost use Rattle.ioam_run_traffic.specs.Traffic.{AllOpened};
ghost use Rattle.ioam_run_domain.specs.Ends.{Ends};
ghost use Rattle.ioam_run_domain.specs.Promise.{Keeps, run_files, run_inputs, run_outputs};

use crate::names::RunFiles;
use ioam_base::memory::NoMemory;
use ioam_base::name::Name;
use ioam_clock::Readings;
use ioam_desk::Desk;
use ioam_desk_outputs::first_repeat;
use ioam_run_files::{
    Outcome, Refusal, Setting, file_names, input_names, input_ports, output_names, read_setting,
    refused,
};
use ioam_run_traffic::{Gate, Halt, run_traffic};
use ioam_topo::Domain;
use std::alloc::Global;
use std::thread::Threads;

/// Runs `run DOMAIN READINGS WORKERS REPORT EXPORTS`: what arrives at the ports of the domain that
/// DOMAIN describes is sent through it, in the order of time: a packet of a flow goes through the
/// flow's tunnel, in which nodes record IOAM data by READINGS and export some (RFC 9197, RFC 9326).
/// Each port's capture has the packets that leave there, each tap's the packets that cross its link,
/// REPORT says what became of each arrival and which path its traces recorded, and EXPORTS has the
/// export records.
///
/// Packets are sent on their ways by so many workers, 1 to 64; the files are the same whatever their
/// number. DOMAIN is read first, then READINGS; then two files of one name are refused; then the
/// captures are opened, and then the outputs: the ports' captures, the taps', REPORT and EXPORTS. Only
/// then are the captures read.
pub fn run_domain<R: Threads + Sync, D: Desk, G: Gate>(
    rt: &R,
    alloc: Global,
    workers: u32,
    files: &RunFiles<'_>,
    desk: &mut D,
    gate: &G,
) -> Outcome
    requires staffed { (1 ≤ workers) × (workers ≤ 64) }
    ensures keeps { Keeps G.opens (around D.tells (D.reading desk.old) (D.reading desk.new) (D.writing desk.old) (D.writing desk.new)) files.now result }
{
    match read_names(alloc, files, desk) {
        Ok(setting) => run_set(
            rt,
            alloc,
            workers,
            files,
            &setting.domain,
            &setting.readings,
            desk,
            gate,
        ),
        Err(refusal) => refused(refusal),
    }
}

// Reads the two files that the domain is set by.
fn read_names<D: Desk>(
    alloc: Global,
    files: &RunFiles<'_>,
    desk: &mut D,
) -> Result<Setting, Refusal>
    ensures read { IfOk result (λ setting. IsTrue D.tells
        → IsSetting (D.writing desk.old) files.now.domain files.now.readings setting.domain setting.readings) }
    ensures refused { IfErr result (Refuses (D.writing desk.old) files.now.domain files.now.readings D.tells (D.reading desk.old) (D.reading desk.new)) }
    ensures settled { IfErr result (λ refusal. IsSettled (refused_as refusal)
        → (D.reading desk.new).side.faults ≡ (D.reading desk.old).side.faults) }
    ensures opens { IfErr result (λ refusal. refused_as refusal ≢ Outcome.ReadFault
        → HaveSlots (D.reading desk.old).side (D.reading desk.new).side) }
    ensures side { OnOk result ((D.reading desk.new).side ≡ opened_each (D.reading desk.old).side (files.now.domain ∷ files.now.readings ∷ [])) }
    ensures ended { OnOk result (IsTrue D.tells → IsTrue ((D.reading desk.new).ended (D.reading desk.old).side.slots)
        × IsTrue ((D.reading desk.new).ended ((D.reading desk.old).side.slots + 1))) }
    ensures asked { AsksFront (D.reading desk.old).side.asked (D.reading desk.new).side.asked (files.now.domain ∷ files.now.readings ∷ []) }
    ensures domain_first { (fault : DomainFault) → result ≡ Err (Refusal.Domain fault)
        → AsksFront (D.reading desk.old).side.asked (D.reading desk.new).side.asked (files.now.domain ∷ []) }
    ensures in_turn { IsDomainFirst (D.writing desk.old) files.now.domain files.now.readings D.tells (D.reading desk.old) (D.reading desk.new) }
    ensures kept { KeepsInputs (D.reading desk.old) (D.reading desk.new) }
    ensures outputs { D.writing desk.new ≡ D.writing desk.old }
{
    read_setting(alloc, desk, files.domain, files.readings)
}

// All files of a run, in the order in which equal ones are looked for.
fn run_files(alloc: Global, files: &RunFiles<'_>, domain: &Domain) -> Result<Vec<Name>, NoMemory>
    ensures { IfOk result (λ names. names.items ≡ run_files files.now domain.now) }
{
    file_names(
        alloc,
        domain,
        files.domain,
        files.readings,
        files.report,
        files.exports,
    )
}

// Those that are written, in the order in which they are opened.
fn run_outputs(alloc: Global, files: &RunFiles<'_>, domain: &Domain) -> Result<Vec<Name>, NoMemory>
    ensures value { IfOk result (λ outputs. outputs.items ≡ run_outputs files.now domain.now) }
    ensures width { IfOk result (λ outputs. length outputs.items ≡ outlet_count domain.now) }
{
    output_names(alloc, domain, files.report, files.exports)
}

// Runs a domain that was read: its files have to differ.
fn run_set<R: Threads + Sync, D: Desk, G: Gate>(
    rt: &R,
    alloc: Global,
    workers: u32,
    files: &RunFiles<'_>,
    domain: &Domain,
    readings: &Readings,
    desk: &mut D,
    gate: &G,
) -> Outcome
    requires staffed { (1 ≤ workers) × (workers ≤ 64) }
    ensures ends { Ends G.opens D.tells files.now domain.now readings.now (D.reading desk.old) (D.reading desk.new) (D.writing desk.old) (D.writing desk.new) result }
    ensures failures { AnswersFailures (around D.tells (D.reading desk.old) (D.reading desk.new) (D.writing desk.old) (D.writing desk.new)) result }
    ensures asked_in { (D.reading desk.new ≡ D.reading desk.old) ⊎ (AreApart (run_files files.now domain.now)
        × AsksFront (D.reading desk.old).side.asked (D.reading desk.new).side.asked (run_inputs domain.now)) }
    ensures asked_out { (D.writing desk.new ≡ D.writing desk.old) ⊎ (AreApart (run_files files.now domain.now)
        × AsksFront (D.writing desk.old).side.asked (D.writing desk.new).side.asked (run_outputs files.now domain.now)) }
    ensures all_in { IsBehindAll ⊥ result → AllOpened (D.reading desk.old).side (D.reading desk.new).side (run_inputs domain.now) }
    ensures all_out { IsBehindAll ⊥ result → AreApart (run_files files.now domain.now)
        × ((D.writing desk.new).side.asked ≡ (D.writing desk.old).side.asked ++ run_outputs files.now domain.now) }
    ensures inputs_first { (D.writing desk.new ≡ D.writing desk.old)
        ⊎ AllOpened (D.reading desk.old).side (D.reading desk.new).side (run_inputs domain.now) }
    ensures unread { IsTrue D.tells → (D.writing desk.new).side.slots < (D.writing desk.old).side.slots + length (run_outputs files.now domain.now)
        → AreUnread (start_of (D.reading desk.old).side.slots (D.writing desk.old) (run_inputs domain.now)) (D.reading desk.new) }
    ensures kept { EndsKept (D.reading desk.old).side.slots (D.reading desk.old) (D.reading desk.new) }
    ensures kept_out { IsTrue D.tells → KeepsOutputs (D.writing desk.old) (D.writing desk.new) }
{
    let Ok(mut names) = run_files(alloc, files, domain) else {
        return Outcome::NoMemory;
    };
    match first_repeat(&names) {
        Some(at) => Outcome::Names {
            name: names.swap_remove(at),
        },
        None => run_apart(rt, alloc, workers, files, domain, readings, desk, gate),
    }
}

// Runs a domain whose files differ.
fn run_apart<R: Threads + Sync, D: Desk, G: Gate>(
    rt: &R,
    alloc: Global,
    workers: u32,
    files: &RunFiles<'_>,
    domain: &Domain,
    readings: &Readings,
    desk: &mut D,
    gate: &G,
) -> Outcome
    requires staffed { (1 ≤ workers) × (workers ≤ 64) }
    requires apart { AreApart (run_files files.now domain.now) }
    ensures ends { Ends G.opens D.tells files.now domain.now readings.now (D.reading desk.old) (D.reading desk.new) (D.writing desk.old) (D.writing desk.new) result }
    ensures failures { AnswersFailures (around D.tells (D.reading desk.old) (D.reading desk.new) (D.writing desk.old) (D.writing desk.new)) result }
    ensures asked_in { AsksFront (D.reading desk.old).side.asked (D.reading desk.new).side.asked (run_inputs domain.now) }
    ensures asked_out { AsksFront (D.writing desk.old).side.asked (D.writing desk.new).side.asked (run_outputs files.now domain.now) }
    ensures all_in { IsBehindAll ⊥ result → AllOpened (D.reading desk.old).side (D.reading desk.new).side (run_inputs domain.now) }
    ensures all_out { IsBehindAll ⊥ result → (D.writing desk.new).side.asked ≡ (D.writing desk.old).side.asked ++ run_outputs files.now domain.now }
    ensures inputs_first { (D.writing desk.new ≡ D.writing desk.old)
        ⊎ AllOpened (D.reading desk.old).side (D.reading desk.new).side (run_inputs domain.now) }
    ensures unread { IsTrue D.tells → (D.writing desk.new).side.slots < (D.writing desk.old).side.slots + length (run_outputs files.now domain.now)
        → AreUnread (start_of (D.reading desk.old).side.slots (D.writing desk.old) (run_inputs domain.now)) (D.reading desk.new) }
    ensures kept { EndsKept (D.reading desk.old).side.slots (D.reading desk.old) (D.reading desk.new) }
    ensures kept_out { IsTrue D.tells → KeepsOutputs (D.writing desk.old) (D.writing desk.new) }
{
    let Ok(ports) = input_ports(alloc, domain) else {
        return Outcome::NoMemory;
    };
    let Ok(mut inputs) = input_names(alloc, domain) else {
        return Outcome::NoMemory;
    };
    let Ok(outputs) = run_outputs(alloc, files, domain) else {
        return Outcome::NoMemory;
    };
    match run_traffic(
        rt, alloc, workers, desk, domain, readings, &ports, &inputs, &outputs, gate,
    ) {
        Halt::Over => Outcome::Done,
        Halt::Broken { place, at, fault } => Outcome::Capture {
            name: inputs.swap_remove(place),
            at,
            fault,
        },
        Halt::Limit => Outcome::Packets {
            limit: domain.packets(),
        },
        Halt::ReadFault => Outcome::ReadFault,
        Halt::WriteFault => Outcome::WriteFault,
        Halt::NoMemory => Outcome::NoMemory,
    }
}
