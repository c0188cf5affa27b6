//! The two files that a run is set by.
ghost use Rattle.std.specs.Prelude.{◌≡◌, ◌≢◌, ◌+◌, ◌≤◌, ◌∷◌, [], IsTrue, Err, IfOk, IfErr, OnOk, MatchResult};
ghost use Rattle.ioam_clock.specs.Reading.{node_names};
ghost use Rattle.ioam_desk.specs.Asked.{AsksFront, HaveSlots};
ghost use Rattle.ioam_desk.specs.Desk.{SameBut, holds, opened_side, opened_each};
ghost use Rattle.ioam_desk.specs.Kept.{KeepsInputs};
ghost use Rattle.ioam_desk.specs.Whole.{ReadsWhole, FailsWhole};
ghost use Rattle.ioam_run_answer.specs.DomainFault.{DomainFault};
ghost use Rattle.ioam_run_answer.specs.Outcomes.{IsSettled};
ghost use Rattle.ioam_run_answer.specs.declared.outcome.Outcome.{Outcome};
ghost use Rattle.ioam_run_files.specs.Answer.{refused_as};
ghost use Rattle.ioam_run_files.specs.Reads.{IsDomainRead, AreReadingsRead};
ghost use Rattle.ioam_run_files.specs.Setting.{IsDomainFirst, IsSetting, Refuses};
ghost use Rattle.ioam_run_files.specs.declared.setting.Refusal.{Refusal};

use ioam_base::name::Name;
use ioam_clock::{ReadWhy, Readings, ReadingsFault, ReadingsRefused, read_readings};
use ioam_desk::{Desk, WholeFault, read_whole};
use ioam_topo::Domain;
use ioam_topo_file::{DomainFault, DomainRefused, long_file, read_domain};
use std::alloc::Global;

/// A domain, and the readings of its nodes' clocks.
#[derive(Drop)]
pub struct Setting {
    /// What the domain file says.
    pub domain: Domain,
    /// The samples of each of its nodes.
    pub readings: Readings,
}

/// Why there is no setting. DOMAIN is opened, read and judged before READINGS is opened.
#[derive(Debug, Drop)]
pub enum Refusal {
    /// The domain file is faulty: its first fault.
    Domain(DomainFault),
    /// The readings are faulty: their first fault.
    Readings(ReadingsFault),
    /// One of the files could not be opened or read.
    ReadFault,
    /// No memory could be had.
    NoMemory,
}

// The octets of a file that holds no more than `limit`.
fn read_file<D: Desk>(
    alloc: Global,
    desk: &mut D,
    name: &Name,
    limit: usize,
) -> Result<Vec<u8>, WholeFault>
    ensures inputs { MatchResult result
        (λ octets. ReadsWhole D.tells (D.reading desk.old) (D.reading desk.new) (holds (D.writing desk.old) name.now) name.now limit octets.items)
        (FailsWhole D.tells (D.reading desk.old) (D.reading desk.new) (holds (D.writing desk.old) name.now) name.now limit) }
    ensures asked { AsksFront (D.reading desk.old).side.asked (D.reading desk.new).side.asked (name.now ∷ []) }
    ensures few { (D.reading desk.new).side.slots ≤ (D.reading desk.old).side.slots + 1 }
    ensures kept { KeepsInputs (D.reading desk.old) (D.reading desk.new) }
    ensures outputs { D.writing desk.new ≡ D.writing desk.old }
{
    read_whole(alloc, desk, name.text(), limit)
}

/// Reads the domain file alone: at most 1 MiB. A file that holds more is refused as one with a fault (`long_file`), and one that
/// can't be opened or read as a fault of reading; nothing else is opened.
pub fn read_domain_file<D: Desk>(
    alloc: Global,
    desk: &mut D,
    name: &Name,
) -> Result<Domain, Refusal>
    ensures read { IsDomainRead D.tells (D.reading desk.old) (D.reading desk.new) (holds (D.writing desk.old) name.now) result }
    // A call that failed is answered.
    ensures settled { IfErr result (λ refusal. IsSettled (refused_as refusal)
        → (D.reading desk.new).side.faults ≡ (D.reading desk.old).side.faults) }
    ensures opens { IfErr result (λ refusal. refused_as refusal ≢ Outcome.ReadFault
        → HaveSlots (D.reading desk.old).side (D.reading desk.new).side) }
    ensures side { OnOk result ((D.reading desk.new).side ≡ opened_side (D.reading desk.old).side name.now) }
    ensures ended { OnOk result (IsTrue D.tells → IsTrue ((D.reading desk.new).ended (D.reading desk.old).side.slots)) }
    ensures asked { AsksFront (D.reading desk.old).side.asked (D.reading desk.new).side.asked (name.now ∷ []) }
    ensures few { (D.reading desk.new).side.slots ≤ (D.reading desk.old).side.slots + 1 }
    ensures kept { KeepsInputs (D.reading desk.old) (D.reading desk.new) }
    ensures outputs { D.writing desk.new ≡ D.writing desk.old }
{
    let octets = match read_file(alloc, desk, name, ioam_topo_file::MOST_OCTETS) {
        Ok(octets) => octets,
        Err(WholeFault::TooLong { .. }) => return Err(Refusal::Domain(long_file())),
        Err(WholeFault::Failed) => return Err(Refusal::ReadFault),
        Err(WholeFault::NoMemory) => return Err(Refusal::NoMemory),
    };
    match read_domain(alloc, &octets) {
        Ok(domain) => Ok(domain),
        Err(DomainRefused::Fault(fault)) => Err(Refusal::Domain(fault)),
        Err(DomainRefused::NoMemory) => Err(Refusal::NoMemory),
    }
}

// The fault of a file of readings that holds too many octets.
const LONG_READINGS: ReadingsFault = ReadingsFault {
    line: 0,
    why: ReadWhy::Long,
};

// Reads the readings of the domain's nodes.
fn read_readings_file<D: Desk>(
    alloc: Global,
    desk: &mut D,
    domain: &Domain,
    name: &Name,
) -> Result<Readings, Refusal>
    ensures read { AreReadingsRead D.tells (D.reading desk.old) (D.reading desk.new) (holds (D.writing desk.old) name.now)
        (node_names domain.now) result }
    // A call that failed is answered.
    ensures settled { IfErr result (λ refusal. IsSettled (refused_as refusal)
        → (D.reading desk.new).side.faults ≡ (D.reading desk.old).side.faults) }
    ensures opens { IfErr result (λ refusal. refused_as refusal ≢ Outcome.ReadFault
        → HaveSlots (D.reading desk.old).side (D.reading desk.new).side) }
    ensures side { OnOk result ((D.reading desk.new).side ≡ opened_side (D.reading desk.old).side name.now) }
    ensures ended { OnOk result (IsTrue D.tells → IsTrue ((D.reading desk.new).ended (D.reading desk.old).side.slots)) }
    ensures other_ended { OnOk result (SameBut (D.reading desk.old).side.slots (D.reading desk.old).ended (D.reading desk.new).ended) }
    ensures asked { AsksFront (D.reading desk.old).side.asked (D.reading desk.new).side.asked (name.now ∷ []) }
    ensures few { (D.reading desk.new).side.slots ≤ (D.reading desk.old).side.slots + 1 }
    ensures kept { KeepsInputs (D.reading desk.old) (D.reading desk.new) }
    ensures outputs { D.writing desk.new ≡ D.writing desk.old }
{
    let octets = match read_file(alloc, desk, name, ioam_clock::MOST_OCTETS) {
        Ok(octets) => octets,
        Err(WholeFault::TooLong { .. }) => return Err(Refusal::Readings(LONG_READINGS)),
        Err(WholeFault::Failed) => return Err(Refusal::ReadFault),
        Err(WholeFault::NoMemory) => return Err(Refusal::NoMemory),
    };
    match read_readings(alloc, domain, &octets) {
        Ok(readings) => Ok(readings),
        Err(ReadingsRefused::Fault(fault)) => Err(Refusal::Readings(fault)),
        Err(ReadingsRefused::NoMemory) => Err(Refusal::NoMemory),
    }
}

/// Reads the domain file (at most 1 MiB) and then the readings of the domain's nodes (at most 64 MiB).
/// The readings are opened only once the domain was read.
pub fn read_setting<D: Desk>(
    alloc: Global,
    desk: &mut D,
    domain: &Name,
    readings: &Name,
) -> Result<Setting, Refusal>
    ensures read { IfOk result (λ setting. IsTrue D.tells
        → IsSetting (D.writing desk.old) domain.now readings.now setting.domain setting.readings) }
    ensures refused { IfErr result (Refuses (D.writing desk.old) domain.now readings.now D.tells (D.reading desk.old) (D.reading desk.new)) }
    // A call that failed is answered.
    ensures settled { IfErr result (λ refusal. IsSettled (refused_as refusal)
        → (D.reading desk.new).side.faults ≡ (D.reading desk.old).side.faults) }
    ensures opens { IfErr result (λ refusal. refused_as refusal ≢ Outcome.ReadFault
        → HaveSlots (D.reading desk.old).side (D.reading desk.new).side) }
    ensures side { OnOk result ((D.reading desk.new).side ≡ opened_each (D.reading desk.old).side (domain.now ∷ readings.now ∷ [])) }
    ensures ended { OnOk result (IsTrue D.tells → IsTrue ((D.reading desk.new).ended (D.reading desk.old).side.slots)
        × IsTrue ((D.reading desk.new).ended ((D.reading desk.old).side.slots + 1))) }
    ensures asked { AsksFront (D.reading desk.old).side.asked (D.reading desk.new).side.asked (domain.now ∷ readings.now ∷ []) }
    ensures few { (D.reading desk.new).side.slots ≤ (D.reading desk.old).side.slots + 2 }
    ensures kept { KeepsInputs (D.reading desk.old) (D.reading desk.new) }
    // The readings weren't opened but behind a domain, which was read to its end; and not after a fault of it, told or not.
    ensures in_turn { IsDomainFirst (D.writing desk.old) domain.now readings.now D.tells (D.reading desk.old) (D.reading desk.new) }
    ensures domain_first { (fault : DomainFault) → result ≡ Err (Refusal.Domain fault)
        → AsksFront (D.reading desk.old).side.asked (D.reading desk.new).side.asked (domain.now ∷ []) }
    ensures outputs { D.writing desk.new ≡ D.writing desk.old }
{
    let domain = read_domain_file(alloc, desk, domain)?;
    let readings = read_readings_file(alloc, desk, &domain, readings)?;
    Ok(Setting { domain, readings })
}
