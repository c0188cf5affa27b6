//! Two stores joined into one of what either has.
ghost use Rattle.std.specs.Prelude.{◌≡◌, ◌≢◌, ◌∷◌, [], IfOk, not};
ghost use Rattle.std.specs.List.{AllByRecursion};
ghost use Rattle.std.specs.Map.{keys_of};
ghost use Rattle.std.specs.List.Sorted.{IsStrictlySortedBy};
ghost use Rattle.ioam_collect.specs.Join.{pairs_in};
ghost use Rattle.ioam_collect.specs.Joining.{JoinsStores, Takes, is_full, under};
ghost use Rattle.ioam_collect.specs.Keyed.{IsOfRecord, key_cmp};

use crate::grouping::Groups;
use crate::growing::Added;
use crate::key::Key;
use crate::store::Store;
use ioam_base::memory::NoMemory;
use ioam_pool::{Item, Items, Parts};
use std::alloc::Global;

/// What became of a collector that another was joined to.
#[derive(Clone, Copy, Debug, PartialEq, Eq)]
pub enum Joined {
    /// It holds the records of both.
    Joined,
    /// With the records of the other it would hold more than it may, and it is as it was.
    Full,
}

impl Added {
    /// Whether a record was refused as one too many.
    pub fn is_full(self) -> bool
        ensures { result ≡ is_full self }
    {
        matches!(self, Added::Full)
    }
}

// Adds a copy of an item under a key. False where it is one too many.
fn add_copy(alloc: Global, store: &mut Store, key: Key, item: &Item) -> Result<bool, NoMemory>
    requires { IsOfRecord item.now }
    ensures { IfOk result (λ fits. Takes store.old ((key, item.now) ∷ []) fits store.new) }
{
    let parts = Parts::new(item.hops(), item.core(), item.extra());
    let copy = Item::new(alloc, &parts)?;
    let added = store.add(key, copy)?;
    Ok(!added.is_full())
}

// Adds copies of items under a key. False where they are too many.
fn add_items(alloc: Global, store: &mut Store, key: Key, items: Items<'_>) -> Result<bool, NoMemory>
    requires { AllByRecursion IsOfRecord items }
    ensures { IfOk result (λ fits. Takes store.old (under key items.entry) fits store.new) }
{
    for item in items {
        let fits = add_copy(alloc, store, key, item)?;
        if !fits {
            return Ok(false);
        }
    }
    Ok(true)
}

// Adds copies of all that stands in groups. False where it is too much.
fn add_groups(alloc: Global, store: &mut Store, groups: Groups<'_>) -> Result<bool, NoMemory>
    requires { AllByRecursion (λ group. AllByRecursion IsOfRecord group.1) groups }
    ensures { IfOk result (λ fits. Takes store.old (pairs_in groups.entry) fits store.new) }
{
    for group in groups {
        let fits = add_items(alloc, store, group.key, group.items)?;
        if !fits {
            return Ok(false);
        }
    }
    Ok(true)
}

// Says that the groups of a store are in the order of their keys, none of them empty.
fn are_in_order(store: &Store)
    ensures in_order { IsStrictlySortedBy key_cmp (keys_of store.now.groups) }
    ensures some { AllByRecursion (λ group. group.1 ≢ []) store.now.groups }
{
    store.groups();
}

/// A store of what either of two has, with the limit of the first. None where that passes the limit.
pub(crate) fn join_stores(
    alloc: Global,
    one: &Store,
    other: &Store,
) -> Result<Option<Store>, NoMemory>
    ensures { IfOk result (JoinsStores one.now other.now) }
{
    let mut store = Store::new(alloc, one.limit())?;
    let first = add_groups(alloc, &mut store, one.groups())?;
    if !first {
        return Ok(None);
    }
    let second = add_groups(alloc, &mut store, other.groups())?;
    if !second {
        return Ok(None);
    }
    are_in_order(&store);
    Ok(Some(store))
}
