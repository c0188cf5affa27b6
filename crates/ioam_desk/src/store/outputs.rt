//! The output slots of a desk in memory, and what names hold.
ghost use Rattle.std.specs.Prelude.{◌≡◌, ◌<◌, ◌++◌, ◌∷◌, [], None, is_ok, length, IfOk, OnOk, OnErr, option_map, slice_set, vec_len, if◌then◌else◌};
ghost use Rattle.std.specs.Option.{option_copied};
ghost use Rattle.ioam_desk.specs.Desk.{held_octets};
ghost use Rattle.ioam_desk.specs.Desk.Held.{Stored, Written};
ghost use Rattle.ioam_desk.specs.Store.{written_at, files_of, held_of, Ties};

use super::octets::Octets;
use crate::room::put;
use ioam_base::memory::NoMemory;
use ioam_base::name::Name;
use std::alloc::Global;
use std::collections::HashMap;

/// What a name is tied to: octets of its own, or what was written to an output slot.
#[derive(Drop)]
pub(crate) enum Tie {
    Own(Octets),
    Slot(u32),
}

/// The output slots, the names that were given to the call that opens them, and what each name is
/// tied to.
#[derive(Drop)]
pub(crate) struct Outputs {
    asked: Vec<Name>,
    slots: Vec<Octets>,
    ties: HashMap<String, Tie>,
}

impl Outputs {
    pub(crate) fn new(alloc: Global) -> Outputs
        ensures asked { result.asked.items ≡ [] }
        ensures slots { result.slots.items ≡ [] }
        ensures ties { files_of result.ties ≡ (λ _. None) }
    {
        Outputs {
            asked: Vec::new(alloc),
            slots: Vec::new(alloc),
            ties: HashMap::new(alloc),
        }
    }

    /// Ties a name, or leaves all as it was.
    fn tie(&mut self, alloc: Global, name: &str, to: Tie) -> Result<(), NoMemory>
        ensures asked { self.new.asked ≡ self.old.asked }
        ensures slots { self.new.slots ≡ self.old.slots }
        ensures ok { OnOk result
            (Ties (files_of self.old.ties) (files_of self.new.ties) name.now (held_of to)) }
        ensures err { OnErr result (files_of self.new.ties ≡ files_of self.old.ties) }
    {
        let name = String::from_str(alloc, name)?;
        self.ties.insert(name, to)?;
        Ok(())
    }

    /// Ties a name to octets of its own, or leaves all as it was.
    pub(crate) fn put_file(
        &mut self,
        alloc: Global,
        name: &str,
        octets: &[u8],
    ) -> Result<(), NoMemory>
        ensures asked { self.new.asked.items ≡ self.old.asked.items }
        ensures slots { self.new.slots.items ≡ self.old.slots.items }
        ensures ok { OnOk result
            (Ties (files_of self.old.ties) (files_of self.new.ties) name.now (Stored octets.now)) }
        ensures err { OnErr result (files_of self.new.ties ≡ files_of self.old.ties) }
    {
        let octets = Octets::copy(alloc, octets)?;
        self.tie(alloc, name, Tie::Own(octets))
    }

    /// Takes the name, opens one slot more, which is empty, and ties the name to it, or leaves all
    /// as it was.
    pub(crate) fn open(&mut self, alloc: Global, name: &str) -> Result<u32, NoMemory>
        ensures number { IfOk result (λ slot. slot ≡ length self.old.slots.items) }
        ensures asked { self.new.asked.items ≡
            (if is_ok result then self.old.asked.items ++ name.now ∷ []
            else self.old.asked.items) }
        ensures slots { self.new.slots.items ≡
            (if is_ok result then self.old.slots.items ++ [] ∷ []
            else self.old.slots.items) }
        ensures ok { IfOk result
            (λ slot. Ties (files_of self.old.ties) (files_of self.new.ties) name.now (Written slot)) }
        ensures err { OnErr result (files_of self.new.ties ≡ files_of self.old.ties) }
    {
        let Ok(slot) = u32::try_from(self.slots.len()) else {
            return Err(NoMemory);
        };
        let asked = Name::new(alloc, name)?;
        self.asked.reserve(1)?;
        self.slots.reserve(1)?;
        self.tie(alloc, name, Tie::Slot(slot))?;
        put(&mut self.asked, asked);
        put(&mut self.slots, Octets::new(alloc));
        Ok(slot)
    }

    /// Takes the name and opens nothing, or leaves all as it was.
    pub(crate) fn refuse(&mut self, alloc: Global, name: &str) -> Result<(), NoMemory>
        ensures asked { self.new.asked.items ≡
            (if is_ok result then self.old.asked.items ++ name.now ∷ []
            else self.old.asked.items) }
        ensures slots { self.new.slots.items ≡ self.old.slots.items }
        ensures ties { files_of self.new.ties ≡ files_of self.old.ties }
    {
        let name = Name::new(alloc, name)?;
        self.asked.push(name)?;
        Ok(())
    }

    /// Appends octets to a slot, or leaves all as it was.
    pub(crate) fn write(&mut self, slot: u32, from: &[u8]) -> Result<(), NoMemory>
        requires { slot < vec_len self.old.slots }
        ensures asked { self.new.asked.items ≡ self.old.asked.items }
        ensures slots { self.new.slots.items ≡
            (if is_ok result
            then slice_set self.old.slots.items slot (written_at self.old.slots.items slot ++ from.now)
            else self.old.slots.items) }
        ensures ties { files_of self.new.ties ≡ files_of self.old.ties }
    {
        self.slots[slot as usize].append(from)
    }

    /// What was written to a slot.
    fn written(&self, slot: u32) -> &[u8]
        ensures { result.now ≡ written_at self.now.slots.items slot }
    {
        match self.slots.get(slot as usize) {
            Some(octets) => octets.as_slice(),
            None => &[],
        }
    }

    /// The octets that a name holds.
    pub(crate) fn held(&self, name: &str) -> Option<&[u8]>
        ensures { option_copied result
            ≡ option_map (held_octets (written_at self.now.slots.items))
            (files_of self.now.ties name.now) }
    {
        match self.ties.get(name)? {
            Tie::Own(octets) => Some(octets.as_slice()),
            Tie::Slot(slot) => Some(self.written(*slot)),
        }
    }
}
