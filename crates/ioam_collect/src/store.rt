//! Items under keys.
ghost use Rattle.std.specs.Prelude.{◌≡◌, ◌≢◌, ◌↔◌, ◌^◌, ◌<◌, ◌≤◌, [], IfOk, IsTrue};
ghost use Rattle.std.specs.List.{AllByRecursion};
ghost use Rattle.std.specs.Map.{keys_of};
ghost use Rattle.std.specs.List.Sorted.{IsStrictlySortedBy};
ghost use Rattle.ioam_collect.specs.Keyed.{key_cmp, IsOfRecord};

use crate::adding::add_first;
use crate::ahead::{SIDE_BY_SIDE, read_ahead};
use crate::grouping::Groups;
use crate::growing::{Added, put};
use crate::key::Key;
use crate::key_map::KeyMap;
use ioam_base::memory::NoMemory;
use ioam_pool::{Chain, Item, Items, Parts, Pool};
use std::alloc::Global;
use std::marker::Model;

// Of a key at most so many items are read ahead.
const MOST_AHEAD: u32 = 3;

// How many cells a store begins with, where it may have as many.
const FIRST_CELLS: u32 = 1024;

/// Items under keys, each once and in their order.
#[derive(Drop)]
pub(crate) struct Store {
    pool: Pool,
    chains: KeyMap,
    spare: Option<Chain>,
    limit: u32,
}

impl Model for Store {
    ghost use Rattle.ioam_collect.specs.Gathered.{Gathered};

    ghost Value = { Gathered };

    ghost use Rattle.ioam_collect.specs.Inside.{IsStore, gathered};
    ghost use Rattle.ioam_collect.specs.Slots.{AreSlotsOf, HasFewSlots};
    ghost use Rattle.std.specs.Prelude.{vec_capacity};

    ghost view = { λ inside. gathered inside.pool inside.chains.map inside.limit };

    ghost invariant = { λ inside. IsStore inside.pool inside.chains.map inside.spare inside.limit
        × AreSlotsOf inside.chains.map inside.chains.slots.items
        × HasFewSlots inside.chains.map (vec_capacity inside.chains.slots) };
}

impl Store {
    ghost use Rattle.ioam_collect.specs.Adds.{Adds, IsFullFor, IsOf};

    // A store of so many items, without groups.
    pub(crate) fn new(alloc: Global, limit: u32) -> Result<Store, NoMemory>
        requires { limit < 2 ^ 31 }
        ensures { IfOk result (λ store. store ≡ record { groups = []; held = 0; limit = limit }) }
    {
        Ok(Store {
            pool: Pool::new(alloc, limit.min(FIRST_CELLS))?,
            chains: KeyMap::new(alloc),
            spare: None,
            limit,
        })
    }

    // How many items there are.
    pub(crate) fn held(&self) -> u32
        ensures { result ≡ self.now.held }
    {
        self.pool.held()
    }

    // How many items there may be.
    pub(crate) fn limit(&self) -> u32
        ensures limit { result ≡ self.now.limit }
        ensures room { result < 2 ^ 31 }
    {
        self.limit
    }

    // Adds an item to the group of its key.
    pub(crate) fn add(&mut self, key: Key, item: Item) -> Result<Added, NoMemory>
        requires { IsOfRecord item }
        ensures adds { Adds self.old key item result self.new }
        ensures is_of { IsOf self.old key item result self.new }
    {
        self.add_one(key, item)
    }

    fn add_one(&mut self, key: Key, item: Item) -> Result<Added, NoMemory>
        requires { IsOfRecord item }
        ensures { Adds self.old key item result self.new }
    {
        match self.chains.find(key) {
            Some(chain) => put(&mut self.pool, self.limit, chain, item),
            None => add_first(
                &mut self.pool,
                &mut self.chains,
                &mut self.spare,
                self.limit,
                key,
                item,
            ),
        }
    }

    // Whether adding an item would answer `Full`.
    pub(crate) fn is_full_for(&self, key: Key, item: &Parts<'_>) -> bool
        ensures { IsTrue result ↔ IsFullFor self.now key item.now }
    {
        if self.pool.held() != self.limit {
            return false;
        }
        match self.chains.get(key) {
            Some(chain) => self.pool.is_apart(chain, item),
            None => true,
        }
    }

    // The items of a key that stands in a slot.
    fn items_at_slot(&self, key: Key) -> Option<Items<'_>> {
        match self.chains.in_slot(key) {
            Some(chain) => Some(self.pool.walk(chain)),
            None => None,
        }
    }

    // The same, where there is a key.
    fn items_of(&self, key: Option<Key>) -> Option<Items<'_>> {
        self.items_at_slot(key?)
    }

    // Reads the slots of keys, and the first items of those that stand there. Says how many items it read.
    pub(crate) fn read_ahead(&self, keys: &[Option<Key>; SIDE_BY_SIDE]) -> usize
        ensures { result ≤ 48 }
    {
        let mut items = keys.map(|key| self.items_of(key));
        read_ahead(&mut items, MOST_AHEAD)
    }

    // The groups, in the order of their keys. None is empty.
    pub(crate) fn groups(&self) -> Groups<'_>
        ensures groups { result ≡ self.now.groups }
        ensures in_order { IsStrictlySortedBy key_cmp (keys_of self.now.groups) }
        ensures some { AllByRecursion (λ group. group.1 ≢ []) self.now.groups }
        ensures each { AllByRecursion (λ group. AllByRecursion IsOfRecord group.1) self.now.groups }
    {
        Groups {
            entries: self.chains.iter(),
            pool: &self.pool,
        }
    }
}
