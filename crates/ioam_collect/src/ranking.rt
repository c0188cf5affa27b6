//! Whether records stand in the order in which they are kept.
ghost use Rattle.std.specs.Prelude.{◌≡◌, None, IfOk, is_some, true};
ghost use Rattle.std.specs.declared.cmp.Ordering.{Ordering};
ghost use Rattle.ioam_dex.specs.RecordRef.{content};
ghost use Rattle.ioam_collect.specs.Keyed.{keyed_of};
ghost use Rattle.ioam_collect.specs.Ranked.{Ranks, is_less, may_come_next};

use crate::order::{has_key, meet};
use ioam_base::memory::NoMemory;
use ioam_dex::{ExportRoom, MOST_RECORD, RecordRef};
use std::alloc::Global;
use std::cmp::Ordering;
use std::marker::Model;

/// The last of records that stand in the order in which they are kept.
#[derive(Drop)]
pub struct Ranking {
    // the octets of the last record; empty if there is none
    last: ExportRoom,
}

impl Model for Ranking {
    ghost use Rattle.std.specs.Prelude.{Option, ◌≡◌, ◌+◌, length};
    ghost use Rattle.ioam_pool.specs.Entry.{Entry};
    ghost use Rattle.ioam_collect.specs.Ranked.{IsLast, last_in};
    ghost use Rattle.ioam_collect.specs.declared.key.Key.{Key};

    ghost Value = { Option (Key × Entry) };

    ghost view = { λ inside. last_in inside.last.octets };

    ghost invariant = { λ inside. IsLast inside.last.octets × (inside.last.spare + length inside.last.octets ≡ 274) };
}

// Whether an order says that the first stands before the second.
fn is_less(order: Ordering) -> bool
    ensures { result ≡ is_less order }
{
    match order {
        Ordering::Less => true,
        Ordering::Equal => false,
        Ordering::Greater => false,
    }
}

impl Ranking {
    /// No record yet.
    pub fn new(alloc: Global) -> Result<Ranking, NoMemory>
        ensures { IfOk result (λ ranking. ranking ≡ None) }
    {
        Ok(Ranking {
            last: ExportRoom::new(alloc, MOST_RECORD)?,
        })
    }

    // Whether a record with a key may come after the last one, if there is one.
    fn may_come(&self, export: &RecordRef<'_>) -> bool
        requires { is_some (keyed_of (content export.now)) ≡ true }
        ensures { result ≡ may_come_next self.now (keyed_of (content export.now)) }
    {
        let last = self.last.octets();
        if last.is_empty() {
            return true;
        }
        is_less(meet(&RecordRef::new(last), export))
    }

    /// Puts a record after the last one. False if it may not stand there: it has no key, or isn't strictly after the last by
    /// key, by falling hop value, by version 1 record and by visit, or is the last one but for the visit. Then the last one
    /// stays.
    pub fn push(&mut self, export: &RecordRef<'_>) -> bool
        ensures { Ranks self.old (keyed_of (content export.now)) result self.new }
    {
        if !has_key(export) || !self.may_come(export) {
            return false;
        }
        self.last.clear();
        self.last.append(export.octets);
        true
    }
}
