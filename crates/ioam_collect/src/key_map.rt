//! The chains of keys.
ghost use Rattle.std.specs.Prelude.{◌≡◌, Some, None, IfSome, OnErr, OnOk, vec_capacity};
ghost use Rattle.std.specs.List.{All};
ghost use Rattle.std.specs.BTreeMap.{get, IsEmpty, IsOrdered, IsUnchanged, Updates};
ghost use Rattle.ioam_collect.specs.Keyed.{key_cmp};
ghost use Rattle.ioam_collect.specs.Slots.{AreSlotsOf, HasFewSlots};

use crate::key::Key;
use crate::slots::{Slot, chain_in, put_in, widen};
use ioam_base::memory::NoMemory;
use ioam_pool::Chain;
use std::alloc::Global;
use std::collections::BTreeMap;
use std::collections::btree_map::Iter;

/// The chains of keys: a map, with slots in front of it.
#[derive(Drop)]
pub(crate) struct KeyMap {
    pub(crate) map: BTreeMap<Key, Chain>,
    pub(crate) slots: Vec<Option<Slot>>,
}

impl KeyMap {
    // No keys.
    pub(crate) fn new(alloc: Global) -> KeyMap
        ensures empty { IsEmpty result.map }
        ensures slots { AreSlotsOf result.map result.slots.items }
        ensures few { HasFewSlots result.map (vec_capacity result.slots) }
    {
        KeyMap {
            map: BTreeMap::new(alloc),
            slots: Vec::new(alloc),
        }
    }

    // The chain of a key.
    pub(crate) fn get(&self, key: Key) -> Option<Chain>
        ensures { result ≡ get key_cmp self.now.map key }
    {
        self.map.get(&key).copied()
    }

    // The chain of a key, where one of its slots has it.
    pub(crate) fn in_slot(&self, key: Key) -> Option<Chain>
        requires { AreSlotsOf self.now.map self.now.slots.items }
        ensures { IfSome result (λ chain. get key_cmp self.now.map key ≡ Some chain) }
    {
        chain_in(&self.slots, key)
    }

    // The chain of a key. The key stands in a slot from then on, so that it is found there the next time.
    pub(crate) fn find(&mut self, key: Key) -> Option<Chain>
        requires { AreSlotsOf self.old.map self.old.slots.items }
        ensures value { result ≡ get key_cmp self.old.map key }
        ensures same { self.new.map ≡ self.old.map }
        ensures slots { AreSlotsOf self.new.map self.new.slots.items }
        ensures capacity { vec_capacity self.new.slots ≡ vec_capacity self.old.slots }
    {
        if let Some(chain) = chain_in(&self.slots, key) {
            return Some(chain);
        }
        let chain = self.map.get(&key).copied()?;
        put_in(&mut self.slots, key, chain);
        Some(chain)
    }

    // Adds a key with its chain. Without memory the keys are as before.
    pub(crate) fn insert(&mut self, key: Key, chain: Chain) -> Result<(), NoMemory>
        requires absent { get key_cmp self.old.map key ≡ None }
        requires slots { AreSlotsOf self.old.map self.old.slots.items }
        requires few { HasFewSlots self.old.map (vec_capacity self.old.slots) }
        ensures updates { OnOk result (Updates key_cmp self.old.map self.new.map key (Some chain)) }
        ensures err { OnErr result (IsUnchanged self.old.map self.new.map) }
        ensures slots { AreSlotsOf self.new.map self.new.slots.items }
        ensures few { HasFewSlots self.new.map (vec_capacity self.new.slots) }
    {
        let Ok(_) = self.map.insert(key, chain) else {
            return Err(NoMemory);
        };
        widen(&mut self.slots, self.map.len());
        put_in(&mut self.slots, key, chain);
        Ok(())
    }

    // The keys in order, each with its chain.
    pub(crate) fn iter(&self) -> Iter<'_, Key, Chain>
        ensures rest { result ≡ self.now.map.entries }
        ensures ordered { IsOrdered key_cmp self.now.map }
        ensures found { All (λ e. get key_cmp self.now.map e.0 ≡ Some e.1) self.now.map.entries }
    {
        self.map.iter()
    }
}
