//! One kind of slots over real files.
ghost use Rattle.std.specs.Prelude.{◌≡◌, ◌<◌, ◌^◌, ◌≤◌, ◌∷◌, ◌++◌, [], ℕ, ◌↔◌, None, Some, IsTrue, OnOk, OnErr, IfOk, IfErr, IfSome, MatchResult, vec_len, vec_capacity, length, option_map};
ghost use Rattle.std.specs.Io.KnownBytes.{ReadConsumes, WriteAppends};
ghost use Rattle.ioam_desk.specs.HostSide.{side_of, no_side, AddsSlot, HasCounted, ChangesFile, IsApart, slot_name, fault_name, fault_reason, name_of, IsOfSystem, IsOfSlot, IsOfWrite, errors_answered};
ghost use Rattle.ioam_desk.specs.Faults.{with_fault};
ghost use Rattle.ioam_desk.specs.declared.fault.DeskFault.TheVariants.{Failed};

use crate::fault::DeskFault;
use crate::file_system::{FileSystem, Identity};
use crate::host_fault::{Fault, Reason};
use crate::room::put;
use ioam_base::memory::NoMemory;
use ioam_base::name::Name;
use std::alloc::Global;

/// A file that was opened, and which one it is: None where it isn't a regular one.
#[derive(Drop)]
pub(crate) struct Opened<F> {
    pub(crate) file: F,
    pub(crate) identity: Option<Identity>,
}

/// A slot over a real file: the name by which it was opened, and the file.
#[derive(Drop)]
pub(crate) struct Slot<F> {
    name: Name,
    opened: Opened<F>,
}

/// Which call failed: the opening one that was asked so many names before, or one on a slot.
#[derive(Clone, Copy)]
pub(crate) enum Place {
    Opening(usize),
    Slot(u32),
}

/// A call that failed, and why.
#[derive(Clone, Copy)]
pub(crate) struct Failure {
    place: Place,
    reason: Reason,
}

/// One kind of slots over real files: the slots, the names that were given to the opening call, how
/// many calls failed, and which of them was the last.
#[derive(Drop)]
pub(crate) struct HostSide<F> {
    asked: Vec<Name>,
    slots: Vec<Slot<F>>,
    faults: u64,
    last: Option<Failure>,
}

impl<F: Drop> HostSide<F> {
    pub(crate) fn new(alloc: Global) -> HostSide<F>
        ensures side { side_of result ≡ no_side }
        ensures slots { result.slots.items ≡ [] }
        ensures fault { fault_name result ≡ None }
    {
        HostSide {
            asked: Vec::new(alloc),
            slots: Vec::new(alloc),
            faults: 0,
            last: None,
        }
    }

    /// Makes room for one slot more, before the outside is asked. The answer is the name twice, for
    /// the list of those that were asked for and for the slot.
    pub(crate) fn make_room(&mut self, alloc: Global, name: &str) -> Result<(Name, Name), NoMemory>
        ensures asked { IfOk result (λ names. names.0 ≡ name.now) }
        ensures slot { IfOk result (λ names. names.1 ≡ name.now) }
        ensures asked_room { OnOk result (vec_len self.new.asked < vec_capacity self.new.asked) }
        ensures slots_room { OnOk result (vec_len self.new.slots < vec_capacity self.new.slots) }
        ensures numbers { OnOk result (vec_len self.new.slots < 2 ^ 32) }
        ensures unchanged { side_of self.new ≡ side_of self.old }
        ensures slots { self.new.slots.items ≡ self.old.slots.items }
        ensures last { self.new.last ≡ self.old.last }
    {
        if u32::try_from(self.slots.len()).is_err() {
            return Err(NoMemory);
        }
        let asked = Name::new(alloc, name)?;
        let name = Name::new(alloc, name)?;
        self.asked.reserve(1)?;
        self.slots.reserve(1)?;
        Ok((asked, name))
    }

    /// Takes the name, and what the outside answered to it.
    pub(crate) fn add(
        &mut self,
        names: (Name, Name),
        opened: Result<Opened<F>, Reason>,
    ) -> Result<u32, DeskFault>
        requires asked_room { vec_len self.old.asked < vec_capacity self.old.asked }
        requires slots_room { vec_len self.old.slots < vec_capacity self.old.slots }
        requires numbers { vec_len self.old.slots < 2 ^ 32 }
        ensures side { AddsSlot (side_of self.old) names.0 result (side_of self.new) }
        ensures slots { MatchResult opened
            (λ opened. (result ≡ Ok (vec_len self.old.slots))
            × (self.new.slots.items ≡ self.old.slots.items ++ record { name = names.1; opened = opened } ∷ []))
            (λ _. (result ≡ Err Failed) × (self.new.slots.items ≡ self.old.slots.items)) }
        ensures fault { OnErr opened (fault_name self.new ≡ Some names.0) }
        ensures reason { IfErr opened (λ reason. fault_reason self.new ≡ Some reason) }
        ensures last { OnOk opened (self.new.last ≡ self.old.last) }
    {
        let (asked, name) = names;
        let at = self.asked.len();
        put(&mut self.asked, asked);
        match opened {
            Ok(opened) => {
                let slot = self.slots.len() as u32;
                put(&mut self.slots, Slot { name, opened });
                Ok(slot)
            }
            Err(reason) => Err(self.failed(Place::Opening(at), reason)),
        }
    }

    /// Whether no slot is over this file.
    pub(crate) fn is_apart(&self, identity: Identity) -> bool
        ensures { IsTrue result ↔ IsApart identity self.now.slots.items }
    {
        self.slots
            .iter()
            .all(|slot| slot.opened.identity != Some(identity))
    }

    /// The last call that failed.
    pub(crate) fn fault(&self) -> Option<Fault<'_>>
        ensures name { option_map (λ fault. fault.name.now) result ≡ fault_name self.now }
        ensures reason { IfSome result (λ fault. fault_reason self.now ≡ Some fault.reason) }
    {
        let Failure { place, reason } = self.last?;
        let name = match place {
            Place::Opening(at) => self.asked.get(at)?,
            Place::Slot(slot) => &self.slots.get(slot as usize)?.name,
        };
        Some(Fault {
            name: name.text(),
            reason,
        })
    }

    /// Counts a call that failed.
    fn failed(&mut self, place: Place, reason: Reason) -> DeskFault
        ensures fault { result ≡ Failed }
        ensures side { side_of self.new ≡ with_fault (side_of self.old) }
        ensures slots { self.new.slots.items ≡ self.old.slots.items }
        ensures name { fault_name self.new ≡ name_of self.old place }
        ensures reason { fault_reason self.new ≡ Some reason }
    {
        self.faults = self.faults.saturating_add(1);
        self.last = Some(Failure { place, reason });
        DeskFault::Failed
    }
}

/// Reads from a slot.
pub(crate) fn read_slot<R: FileSystem>(
    files: &mut R,
    side: &mut HostSide<R::File>,
    slot: u32,
    into: &mut [u8],
) -> Result<usize, DeskFault>
    requires { slot < vec_len side.old.slots }
    ensures count { IfOk result (λ count. count ≤ length into.new) }
    ensures side { HasCounted (side_of side.old) result (side_of side.new) }
    ensures octets { ChangesFile side.old.slots.items side.new.slots.items slot
        (λ before after. ReadConsumes (R.File.remaining before) (R.File.remaining after) result into.new) }
    ensures given { IfOk result (IsOfSlot R.is_read side.new.slots.items slot) }
    ensures fault { OnErr result (fault_name side.new ≡ slot_name side.old slot) }
    ensures reason { OnErr result (IfSome (fault_reason side.new) (IsOfSystem (IsOfSlot R.is_not_read side.new.slots.items slot))) }
    ensures last { OnOk result (side.new.last ≡ side.old.last) }
    ensures counted { (errors : ℕ) → R.has_errors files.old errors
        → R.has_errors files.new (errors_answered errors result (fault_reason side.new)) }
{
    match files.read(&mut side.slots[slot as usize].opened.file, into) {
        Ok(count) => Ok(count),
        Err(error) => Err(side.failed(Place::Slot(slot), Reason::System(error))),
    }
}

/// Writes to a slot. A write that takes nothing has failed.
pub(crate) fn write_slot<R: FileSystem>(
    files: &mut R,
    side: &mut HostSide<R::File>,
    slot: u32,
    from: &[u8],
) -> Result<usize, DeskFault>
    requires { slot < vec_len side.old.slots }
    ensures count { IfOk result (λ count. (1 ≤ count) × (count ≤ length from.now)) }
    ensures side { HasCounted (side_of side.old) result (side_of side.new) }
    ensures octets { ChangesFile side.old.slots.items side.new.slots.items slot
        (λ before after. WriteAppends (R.File.contents before) (R.File.contents after) result from.now) }
    ensures taken { IfOk result (IsOfSlot R.is_written side.new.slots.items slot) }
    ensures fault { OnErr result (fault_name side.new ≡ slot_name side.old slot) }
    ensures reason { OnErr result (IfSome (fault_reason side.new) (IsOfWrite
        (IsOfSlot R.is_not_written side.new.slots.items slot) (IsOfSlot R.is_written side.new.slots.items slot 0))) }
    ensures last { OnOk result (side.new.last ≡ side.old.last) }
    ensures counted { (errors : ℕ) → R.has_errors files.old errors
        → R.has_errors files.new (errors_answered errors result (fault_reason side.new)) }
{
    match files.write(&mut side.slots[slot as usize].opened.file, from) {
        Ok(0) => Err(side.failed(Place::Slot(slot), Reason::TakesNone)),
        Ok(count) => Ok(count),
        Err(why) => Err(side.failed(Place::Slot(slot), Reason::System(why))),
    }
}
