//! A collector of export records.
ghost use Rattle.std.specs.Prelude.{◌≡◌, ◌≢◌, ◌↔◌, ◌^◌, ◌<◌, ◌≤◌, [], IfOk, IsTrue, List};
ghost use Rattle.std.specs.List.{AllByRecursion};
ghost use Rattle.std.specs.Map.{keys_of};
ghost use Rattle.std.specs.List.Sorted.{IsStrictlySortedBy};
ghost use Rattle.ioam_dex.specs.Record.{Record};
ghost use Rattle.ioam_dex.specs.RecordRef.{content};
ghost use Rattle.ioam_collect.specs.Keyed.{key_cmp, keyed, keyed_of, IsOfRecord};
ghost use Rattle.ioam_collect.specs.Best.{groups_of};

use crate::ahead::SIDE_BY_SIDE;
use crate::grouping::Groups;
use crate::growing::Added;
use crate::joining::{Joined, join_stores};
use crate::key::Key;
use crate::keying::{core_of, keyed, write_core};
use crate::store::Store;
use ioam_base::memory::NoMemory;
use ioam_dex::{ExportRoom, MOST_RECORD, RecordRef};
use ioam_pool::Item;
use std::alloc::Global;
use std::marker::Model;

/// The most records that a collector of the commands holds, and that a part has.
pub const MOST_HELD: u32 = 1 << 20;

/// Export records regrouped by the packets that they tell of: each record once, under its key, by
/// falling hop value.
#[derive(Drop)]
pub struct Collector {
    store: Store,
    alloc: Global,
    // where the octets of a record are written
    room: ExportRoom,
    read: u64,
    unkeyed: u64,
}

impl Model for Collector {
    ghost use Rattle.std.specs.Prelude.{◌+◌, ◌≤◌, length};
    ghost use Rattle.ioam_collect.specs.Collected.{Collected};

    ghost Value = { Collected };

    ghost view = { λ inside. record {
      groups = inside.store.groups;
      held = inside.store.held;
      limit = inside.store.limit;
      read = inside.read;
      unkeyed = inside.unkeyed;
    } };

    ghost invariant = { λ inside. 274 ≤ inside.room.spare + length inside.room.octets };
}

impl Collector {
    ghost use Rattle.ioam_collect.specs.Collected.{AddsPair, AddsRecord, Answers, Counts, IsOneMore, Stands};
    ghost use Rattle.ioam_collect.specs.Joining.{Joins};
    ghost use Rattle.ioam_collect.specs.declared.growing.Added.TheVariants.{Full};

    /// A collector of so many records, below 2^31, which holds none.
    pub fn new(alloc: Global, limit: u32) -> Result<Collector, NoMemory>
        requires { limit < 2 ^ 31 }
        ensures empty { IfOk result (λ collector. collector ≡ record { groups = []; held = 0; limit = limit; read = 0; unkeyed = 0 }) }
        ensures stands { IfOk result (λ collector. Stands collector []) }
    {
        Ok(Collector {
            store: Store::new(alloc, limit)?,
            alloc,
            room: ExportRoom::new(alloc, MOST_RECORD)?,
            read: 0,
            unkeyed: 0,
        })
    }

    /// Adds a record. The first of these holds that can: `Unkeyed`, `Repeat`, `Replaced`, `Full`, `Kept`. Without memory the
    /// collector is as before.
    pub fn add(&mut self, export: &RecordRef<'_>) -> Result<Added, NoMemory>
        ensures { AddsRecord self.old (content export.now) result self.new }
    {
        write_core(export, &mut self.room);
        let core = core_of(export, export.octets, self.room.octets());
        let Some((key, parts)) = keyed(export, core, export.visit_octets()) else {
            self.count(Added::Unkeyed);
            return Ok(Added::Unkeyed);
        };
        let item = Item::new(self.alloc, &parts)?;
        self.add_keyed(key, item)
    }

    /// Reads what adding records with these keys will search, as far as it is found at once, and says how many items it
    /// read, at most three for each key. Then they are at hand, which makes adding the records that come next faster.
    pub fn read_ahead(&self, keys: &[Option<Key>; SIDE_BY_SIDE]) -> usize
        ensures { result ≤ 48 }
    {
        self.store.read_ahead(keys)
    }

    /// Whether `add` would answer `Full` for a record. The collector stays as it is.
    pub fn is_full_for(&mut self, export: &RecordRef<'_>) -> bool
        ensures full { IsTrue result ↔ Answers self.old (keyed_of (content export.now)) Full }
        // Straight from the records that it stands for: it would be one more than may be held.
        ensures more { (xs : List Record) → Stands self.old xs → (IsTrue result ↔ IsOneMore self.old.limit xs (content export.now)) }
        ensures same { self.new ≡ self.old }
    {
        write_core(export, &mut self.room);
        let core = core_of(export, export.octets, self.room.octets());
        let Some((key, parts)) = keyed(export, core, export.visit_octets()) else {
            return false;
        };
        self.store.is_full_for(key, &parts)
    }

    // Adds the item of a record under its key.
    fn add_keyed(&mut self, key: Key, item: Item) -> Result<Added, NoMemory>
        requires { IsOfRecord item }
        ensures { AddsPair self.old (key, item) result self.new }
    {
        let added = self.store.add(key, item)?;
        self.count(added);
        Ok(added)
    }

    // Counts a record by what became of it.
    fn count(&mut self, added: Added)
        ensures { Counts self.old added self.new }
    {
        match added {
            Added::Kept | Added::Replaced | Added::Repeat => {
                self.read = self.read.saturating_add(1);
            }
            Added::Unkeyed => {
                self.read = self.read.saturating_add(1);
                self.unkeyed = self.unkeyed.saturating_add(1);
            }
            Added::Full => {}
        }
    }

    /// Takes in all that another collector holds: then this one stands for the records of both. `Full` comes
    /// exactly where the groups of both have more records than may be held. Then, and without memory, the
    /// collector is as before.
    pub fn join(&mut self, other: &Collector) -> Result<Joined, NoMemory>
        ensures { Joins self.old other.now result self.new }
    {
        match join_stores(self.alloc, &self.store, &other.store)? {
            Some(store) => {
                self.store = store;
                self.read = self.read.saturating_add(other.read);
                self.unkeyed = self.unkeyed.saturating_add(other.unkeyed);
                Ok(Joined::Joined)
            }
            None => Ok(Joined::Full),
        }
    }

    /// The groups, in the order of their keys, none of them empty. It takes no memory.
    pub fn groups(&self) -> Groups<'_>
        ensures groups { result ≡ self.now.groups }
        ensures in_order { IsStrictlySortedBy key_cmp (keys_of self.now.groups) }
        ensures some { AllByRecursion (λ group. group.1 ≢ []) self.now.groups }
        // The core of each item is a record, whose contents `export_of` gives.
        ensures each { AllByRecursion (λ group. AllByRecursion IsOfRecord group.1) self.now.groups }
        // They are the groups of the records that the collector stands for.
        ensures exact { (xs : List Record) → Stands self.now xs → result ≡ groups_of (keyed xs) }
    {
        self.store.groups()
    }

    /// How many records are held.
    pub fn held(&self) -> u32
        ensures { result ≡ self.now.held }
    {
        self.store.held()
    }

    /// How many records were added, those that were refused as `Full` not counted.
    pub fn read(&self) -> u64
        ensures { result ≡ self.now.read }
    {
        self.read
    }

    /// How many of these have no key.
    pub fn unkeyed(&self) -> u64
        ensures { result ≡ self.now.unkeyed }
    {
        self.unkeyed
    }
}
