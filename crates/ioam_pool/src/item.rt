//! Items as they are kept.
ghost use Rattle.std.specs.Prelude.{◌≡◌, ◌≤◌, ◌⊎◌, [], length, true, is_ok, IfOk};

use crate::octets::Octets;
use crate::parts::Parts;
use ioam_base::memory::NoMemory;
use std::alloc::Global;
use std::cmp::Ordering;
use std::marker::Model;

// How many octets an item has room for in its extra part.
const EXTRA_SIZE: usize = 12;

/// A hop value, the octets of a core, and an extra part of 12 octets or none. Items are ordered by
/// falling hop value, then by core, then by extra part.
#[derive(Drop)]
pub struct Item {
    hops: u8,
    extra_size: u8,
    extra: [u8; EXTRA_SIZE],
    core: Octets,
}

impl Model for Item {
    ghost use Rattle.std.specs.Prelude.{◌≡◌, ◌≤◌, ◌⊎◌, take};
    ghost use Rattle.ioam_pool.specs.Entry.{Entry};
    ghost use Rattle.ioam_pool.specs.Octets.{AreOctets, octets_of};

    ghost Value = { Entry };

    ghost view = { λ item. record { hops = item.hops; core = octets_of item.core; extra = take item.extra_size item.extra } };

    ghost invariant = { λ item. AreOctets item.core × ((item.extra_size ≡ 0) ⊎ (item.extra_size ≡ 12)) };
}

impl Item {
    ghost use Rattle.ioam_pool.specs.Entry.{Entry, is_full};
    ghost use Rattle.ioam_pool.specs.Order.{cores, extras, meet};

    /// An item of these parts. A core of at most 38 octets takes no memory.
    pub fn new(alloc: Global, parts: &Parts<'_>) -> Result<Item, NoMemory>
        ensures value { IfOk result (λ item. item ≡ parts.now) }
        ensures few { length parts.now.core ≤ 38 → is_ok result ≡ true }
    {
        let extra = parts.extra();
        let mut own_extra = [0; EXTRA_SIZE];
        own_extra[..extra.len()].copy_from_slice(extra);
        Ok(Item {
            hops: parts.hops(),
            extra_size: extra.len() as u8,
            extra: own_extra,
            core: Octets::new(alloc, parts.core())?,
        })
    }

    // An item without octets, as it stands in a free cell.
    pub(crate) fn blank() -> Item
        ensures { result ≡ record { hops = 0; core = []; extra = [] } }
    {
        Item {
            hops: 0,
            extra_size: 0,
            extra: [0; EXTRA_SIZE],
            core: Octets::none(),
        }
    }

    /// The hop value.
    pub fn hops(&self) -> u8
        ensures { result ≡ self.now.hops }
    {
        self.hops
    }

    /// The octets of the core, at most 262.
    pub fn core(&self) -> &[u8]
        ensures octets { result.now ≡ self.now.core }
        ensures size { length result.now ≤ 262 }
    {
        self.core.as_slice()
    }

    /// The 12 octets of the extra part, or none.
    pub fn extra(&self) -> &[u8]
        ensures octets { result.now ≡ self.now.extra }
        ensures size { (length result.now ≡ 0) ⊎ (length result.now ≡ 12) }
    {
        &self.extra[..self.extra_size as usize]
    }

    // Its parts.
    pub(crate) fn parts(&self) -> Parts<'_>
        ensures { result ≡ self.now }
    {
        Parts::new(self.hops(), self.core(), self.extra())
    }

    // Whether the extra part is there.
    pub(crate) fn is_full(&self) -> bool
        ensures { result ≡ is_full self.now }
    {
        !self.extra().is_empty()
    }

    // Where hop value and core stand to another's.
    fn cores(&self, other: &Parts<'_>) -> Ordering
        ensures { result ≡ cores self.now other.now }
    {
        match other.hops().cmp(&self.hops()) {
            Ordering::Less => Ordering::Less,
            Ordering::Equal => self.core().cmp(other.core()),
            Ordering::Greater => Ordering::Greater,
        }
    }

    // Where the extra part stands to another's. Equal where either isn't there.
    fn extras(&self, other: &Parts<'_>) -> Ordering
        ensures { result ≡ extras self.now.extra other.now.extra }
    {
        let extra = self.extra();
        let others = other.extra();
        if extra.is_empty() || others.is_empty() {
            return Ordering::Equal;
        }
        extra.cmp(others)
    }

    /// Where the item stands to another, items that can't stand beside one another being equal: also those of
    /// equal hop value and core where either has no extra part.
    pub fn meet(&self, other: &Parts<'_>) -> Ordering
        ensures { result ≡ meet self.now other.now }
    {
        match self.cores(other) {
            Ordering::Less => Ordering::Less,
            Ordering::Equal => self.extras(other),
            Ordering::Greater => Ordering::Greater,
        }
    }
}
