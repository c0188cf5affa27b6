//! The input slots of a desk in memory.
ghost use Rattle.std.specs.Prelude.{◌≡◌, ◌<◌, ◌++◌, ◌∷◌, [], drop, false, length, is_ok, IfOk, vec_len, if◌then◌else◌};
ghost use Rattle.ioam_desk.specs.Store.{Reads};

use super::input::Input;
use crate::room::put;
use ioam_base::memory::NoMemory;
use ioam_base::name::Name;
use std::alloc::Global;

/// The input slots, and the names that were given to the call that opens them.
#[derive(Drop)]
pub(crate) struct Inputs {
    asked: Vec<Name>,
    slots: Vec<Input>,
}

impl Inputs {
    pub(crate) fn new(alloc: Global) -> Inputs
        ensures asked { result.asked.items ≡ [] }
        ensures slots { result.slots.items ≡ [] }
    {
        Inputs {
            asked: Vec::new(alloc),
            slots: Vec::new(alloc),
        }
    }

    /// Takes the name and opens one slot more over the octets, or leaves all as it was.
    pub(crate) fn open(
        &mut self,
        alloc: Global,
        name: &str,
        octets: Vec<u8>,
    ) -> Result<u32, NoMemory>
        ensures number { IfOk result (λ slot. slot ≡ length self.old.slots.items) }
        ensures asked { self.new.asked.items ≡
            (if is_ok result then self.old.asked.items ++ name.now ∷ []
            else self.old.asked.items) }
        ensures slots { self.new.slots.items ≡
            (if is_ok result then self.old.slots.items ++ record { left = octets.items; ended = false } ∷ []
            else self.old.slots.items) }
    {
        let Ok(slot) = u32::try_from(self.slots.len()) else {
            return Err(NoMemory);
        };
        let asked = Name::new(alloc, name)?;
        self.asked.reserve(1)?;
        self.slots.reserve(1)?;
        put(&mut self.asked, asked);
        put(&mut self.slots, Input::new(octets));
        Ok(slot)
    }

    /// Takes the name and opens nothing, or leaves all as it was.
    pub(crate) fn refuse(&mut self, alloc: Global, name: &str) -> Result<(), NoMemory>
        ensures asked { self.new.asked.items ≡
            (if is_ok result then self.old.asked.items ++ name.now ∷ []
            else self.old.asked.items) }
        ensures slots { self.new.slots.items ≡ self.old.slots.items }
    {
        let name = Name::new(alloc, name)?;
        self.asked.push(name)?;
        Ok(())
    }

    /// Reads from a slot.
    pub(crate) fn read(&mut self, slot: u32, into: &mut [u8], most: usize) -> usize
        requires { slot < vec_len self.old.slots }
        ensures asked { self.new.asked.items ≡ self.old.asked.items }
        ensures read { Reads self.old.slots.items self.new.slots.items
            slot most (length into.old) into.new result }
        ensures kept { drop result into.new ≡ drop result into.old }
    {
        self.slots[slot as usize].read(into, most)
    }
}
