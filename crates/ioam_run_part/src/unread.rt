//! Files that are read as parts: of one the records, or the octets.
ghost use Rattle.std.specs.Prelude.{◌≡◌, ◌⊎◌};
ghost use Rattle.ioam_desk.specs.Desk.{holds};
ghost use Rattle.ioam_run_answer.specs.declared.outcome.Outcome.{Outcome};
ghost use Rattle.ioam_run_part.specs.Unread.{AnswersReads, IsFlat, IsHeld, ReadsFile, TriesFile, answer_of, unread_by, verdict_of};

use crate::intakes::{FlatIntake, HeldIntake};
use ioam_base::name::Name;
use ioam_collect::{Collector, MOST_HELD};
use ioam_desk::{Desk, DeskFault, read_into};
use ioam_part::{PartFault, PartReader, PartRefused};
use ioam_part_merge::{PartKeeper, PartOctets};
use ioam_run_answer::Outcome;
use std::alloc::Global;

/// Why a file wasn't read as a part.
#[derive(Clone, Copy)]
pub(crate) enum Unread {
    /// The octets are no part: the offset of their first fault, and the fault.
    Fault { at: u64, fault: PartFault },
    /// The file could not be opened or read.
    Failed,
    /// Memory ran out.
    NoMemory,
}

// What the octets are that were read. A part has no more records than may be held.
fn verdict<A>(read: Result<A, PartRefused>) -> Result<A, Unread>
    ensures { result ≡ verdict_of read }
{
    match read {
        Ok(part) => Ok(part),
        Err(PartRefused::Fault(at, fault)) => Err(Unread::Fault { at, fault }),
        Err(PartRefused::Full | PartRefused::NoMemory) => Err(Unread::NoMemory),
    }
}

// Why nothing is read on.
fn unread_by(fault: DeskFault) -> Unread
    ensures { result ≡ unread_by fault }
{
    match fault {
        DeskFault::Failed => Unread::Failed,
        DeskFault::NoMemory => Unread::NoMemory,
    }
}

/// Opens a file and reads it as a part: the collector of its records, or why there is none.
pub(crate) fn read_held<D: Desk>(
    alloc: Global,
    desk: &mut D,
    name: &Name,
) -> Result<Collector, Unread>
    ensures reads { ReadsFile (IsHeld D.tells (holds (D.writing desk.old) name.now)) D.tells (holds (D.writing desk.old) name.now) name.now (D.reading desk.old) (D.reading desk.new) result }
    ensures tries { TriesFile D.tells (holds (D.writing desk.old) name.now) name.now (D.reading desk.old) (D.reading desk.new) }
    ensures faults { AnswersReads (D.reading desk.old) (D.reading desk.new) result }
    ensures outputs { D.writing desk.new ≡ D.writing desk.old }
{
    let Ok(reader) = PartReader::new(alloc, MOST_HELD) else {
        return Err(Unread::NoMemory);
    };
    match read_into(alloc, desk, name.text(), HeldIntake::new(reader)) {
        Ok(intake) => verdict(intake.reader.finish()),
        Err(fault) => Err(unread_by(fault)),
    }
}

/// Opens a file and reads it as a part: its octets, or why they are none.
pub(crate) fn read_flat<D: Desk>(
    alloc: Global,
    desk: &mut D,
    name: &Name,
) -> Result<PartOctets, Unread>
    ensures reads { ReadsFile (IsFlat D.tells (holds (D.writing desk.old) name.now)) D.tells (holds (D.writing desk.old) name.now) name.now (D.reading desk.old) (D.reading desk.new) result }
    ensures tries { TriesFile D.tells (holds (D.writing desk.old) name.now) name.now (D.reading desk.old) (D.reading desk.new) }
    ensures faults { AnswersReads (D.reading desk.old) (D.reading desk.new) result }
    ensures outputs { D.writing desk.new ≡ D.writing desk.old }
{
    let Ok(keeper) = PartKeeper::new(alloc) else {
        return Err(Unread::NoMemory);
    };
    match read_into(alloc, desk, name.text(), FlatIntake::new(keeper)) {
        Ok(intake) => verdict(intake.keeper.finish()),
        Err(fault) => Err(unread_by(fault)),
    }
}

/// The answer for a file that wasn't read.
pub(crate) fn unread_outcome(alloc: Global, name: &Name, why: Unread) -> Outcome
    ensures answer { (result ≡ answer_of name.now why) ⊎ (result ≡ Outcome.NoMemory) }
    ensures failed { why ≡ Unread.Failed → result ≡ Outcome.ReadFault }
{
    match why {
        Unread::Fault { at, fault } => part_outcome(alloc, name, at, fault),
        Unread::Failed => Outcome::ReadFault,
        Unread::NoMemory => Outcome::NoMemory,
    }
}

// The answer that this file is no part, from this offset on.
fn part_outcome(alloc: Global, name: &Name, at: u64, fault: PartFault) -> Outcome
    ensures { (result ≡ Outcome.Part name.now at fault) ⊎ (result ≡ Outcome.NoMemory) }
{
    match Name::new(alloc, name.text()) {
        Ok(name) => Outcome::Part { name, at, fault },
        Err(_) => Outcome::NoMemory,
    }
}
