//! The records of a part that is written of a collector, as many at a time as are wanted.
ghost use Rattle.std.specs.Prelude.{◌+◌, ◌<◌, ◌≡◌, ◌++◌, ◌≤◌, ◌⊎◌, [], List, IfOk, OnOk, length, All};
ghost use Rattle.std.specs.Bool.{OnTrue};
ghost use Rattle.std.specs.List.{AllByRecursion};
ghost use Rattle.ioam_dex.specs.Record.{IsRecord, Record};
ghost use Rattle.ioam_collect.specs.Best.{groups_of};
ghost use Rattle.ioam_collect.specs.Collected.{Stands};
ghost use Rattle.ioam_collect.specs.Keyed.{IsOfRecord, keyed};
ghost use Rattle.ioam_part.specs.Part.{PartOf, groups_octets, head_octets, items_octets, most_records, part_text};
ghost use Rattle.ioam_part.specs.Rest.{begun, Leaves};

use crate::ahead::go_ahead;
use crate::putting::put_item;
use ioam_base::memory::NoMemory;
use ioam_collect::{Collector, Groups};
use ioam_pool::Items;
use std::marker::Model;

/// The records of a collector in the order of a part, which are appended as many at a time as are wanted: so a part is written
/// of which no more than a piece is held.
#[derive(Drop)]
pub struct PartRecords<'a> {
    // Those of the group that was begun.
    items: Option<Items<'a>>,
    // The groups behind it.
    groups: Groups<'a>,
    // The same groups, lent once more, which are read ahead, and how many that come next are at hand.
    ahead: Groups<'a>,
    due: usize,
}

impl<'a> Model for PartRecords<'a> {
    ghost use Rattle.std.specs.Prelude.{List, ℕ};
    ghost use Rattle.ioam_part.specs.Rest.{rest_octets, AreOfRecords};

    ghost Value = { List ℕ };

    ghost view = { λ records. rest_octets records.items records.groups };

    ghost invariant = { λ records. AreOfRecords records.items records.groups };
}

// Appends the next records of a group, until there are so many octets or none is left. Without memory a front of them may be
// left.
fn put_some(items: &mut Items<'_>, enough: usize, out: &mut Vec<u8>) -> Result<(), NoMemory>
    requires { AllByRecursion IsOfRecord items.old }
    ensures octets { OnOk result (out.new.items ++ items_octets items.new ≡ out.old.items ++ items_octets items.old) }
    ensures ends { OnOk result ((enough ≤ length out.new.items) ⊎ (items.new ≡ [])) }
    ensures few { OnOk result (length out.old.items < enough + 274 → length out.new.items < enough + 274) }
    ensures each { AllByRecursion IsOfRecord items.new }
{
    'records: while out.len() < enough {
        match items.next() {
            Some(item) => put_item(item, out)?,
            None => return Ok(()),
        }
    }
    Ok(())
}

// The same of a group that was begun, if any.
fn put_begun(
    items: &mut Option<Items<'_>>,
    enough: usize,
    out: &mut Vec<u8>,
) -> Result<(), NoMemory>
    requires { AllByRecursion IsOfRecord (begun items.old) }
    ensures octets { OnOk result (out.new.items ++ items_octets (begun items.new) ≡ out.old.items ++ items_octets (begun items.old)) }
    ensures ends { OnOk result ((enough ≤ length out.new.items) ⊎ (begun items.new ≡ [])) }
    ensures few { OnOk result (length out.old.items < enough + 274 → length out.new.items < enough + 274) }
    ensures each { AllByRecursion IsOfRecord (begun items.new) }
{
    match items {
        Some(items) => put_some(items, enough, out),
        None => Ok(()),
    }
}

impl<'a> PartRecords<'a> {
    /// Those of what a collector holds.
    pub fn new(collector: &'a Collector) -> PartRecords<'a>
        ensures octets { head_octets collector.now.held ++ result ≡ part_text collector.now }
        // Where the collector stands for records, and holds no more than a part may have, this is the part of their groups.
        ensures part { (xs : List Record) → All IsRecord xs → Stands collector.now xs → collector.now.held ≤ most_records
            → PartOf (part_text collector.now) (groups_of (keyed xs)) }
    {
        PartRecords {
            items: None,
            groups: collector.groups(),
            ahead: collector.groups(),
            due: 0,
        }
    }

    /// Appends the next records, until there are so many octets or no record is left, and says whether there are so many.
    /// Without memory a front of them may be left.
    pub fn put(&mut self, enough: usize, out: &mut Vec<u8>) -> Result<bool, NoMemory>
        ensures octets { OnOk result (out.new.items ++ self.new ≡ out.old.items ++ self.old) }
        ensures leaves { IfOk result (λ full. Leaves full enough out.new.items self.new) }
        // No record is begun where there are so many octets, and none has more than 274.
        ensures few { OnOk result (length out.old.items < enough + 274 → length out.new.items < enough + 274) }
    {
        'groups: loop {
            put_begun(&mut self.items, enough, out)?;
            if out.len() >= enough {
                return Ok(true);
            }
            self.due = go_ahead(&mut self.ahead, self.due);
            match self.groups.next() {
                Some(group) => self.items = Some(group.items),
                None => return Ok(false),
            }
        }
    }
}
