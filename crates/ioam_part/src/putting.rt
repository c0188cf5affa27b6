//! A collector that is written as a part.
ghost use Rattle.std.specs.Prelude.{◌+◌, ◌≡◌, ◌++◌, ◌≤◌, List, OnErr, OnOk, length, is_ok, if◌then◌else◌, take, All};
ghost use Rattle.std.specs.List.{AllByRecursion};
ghost use Rattle.ioam_dex.specs.Record.{IsRecord, Record};
ghost use Rattle.ioam_collect.specs.Best.{groups_of};
ghost use Rattle.ioam_collect.specs.Collected.{Stands};
ghost use Rattle.ioam_collect.specs.Keyed.{IsOfRecord, keyed};
ghost use Rattle.ioam_part.specs.Part.{PartOf, groups_octets, item_octets, items_octets, most_records, part_text, told_octets};

use crate::ahead::go_ahead;
use crate::head::head_of;
use ioam_base::buffer::Buffer;
use ioam_base::memory::NoMemory;
use ioam_base::text::{append, settle};
use ioam_collect::{Collector, Groups};
use ioam_dex::fields::{EXTENSIONS, NAMESPACE, VISIT, VISIT_SIZE, VISITED};
use ioam_pool::{Item, Items};

// Appends the record that tells this visit, of which the version 1 record is given. Without memory a front of it may be left.
fn put_told(core: &[u8], visit: &[u8], out: &mut Vec<u8>) -> Result<(), NoMemory>
    requires core { 10 ≤ length core.now }
    requires fits { length core.now ≤ 262 }
    requires visit { length visit.now ≡ 12 }
    ensures ok { OnOk result (out.new.items ≡ out.old.items ++ told_octets core.now visit.now) }
    ensures few { OnOk result (length out.new.items ≤ length out.old.items + 274) }
    ensures kept { OnErr result (take (length out.old.items) out.new.items ≡ out.old.items) }
{
    let mut front = Buffer::new();
    front.append(&[VISITED, core[EXTENSIONS]]);
    front.two((core.len() + VISIT_SIZE) as u16);
    front.append(&core[NAMESPACE..VISIT]);
    front.append(visit);
    append(out, front.octets())?;
    append(out, &core[VISIT..])
}

/// Appends the record of an item. Without memory a front of it may be left.
pub(crate) fn put_item(item: &Item, out: &mut Vec<u8>) -> Result<(), NoMemory>
    requires { IsOfRecord item.now }
    ensures ok { OnOk result (out.new.items ≡ out.old.items ++ item_octets item.now) }
    // no record has more
    ensures few { OnOk result (length out.new.items ≤ length out.old.items + 274) }
    ensures kept { OnErr result (take (length out.old.items) out.new.items ≡ out.old.items) }
{
    if item.extra().is_empty() {
        return append(out, item.core());
    }
    put_told(item.core(), item.extra(), out)
}

// Appends the records of items. Without memory a front of them may be left.
fn put_items(items: Items<'_>, out: &mut Vec<u8>) -> Result<(), NoMemory>
    requires { AllByRecursion IsOfRecord items }
    ensures ok { OnOk result (out.new.items ≡ out.old.items ++ items_octets items.entry) }
    ensures kept { OnErr result (take (length out.old.items) out.new.items ≡ out.old.items) }
{
    for item in items {
        put_item(item, out)?;
    }
    Ok(())
}

// Appends the records of groups. The same groups, lent once more, are read ahead. Without memory a front of them may be left.
fn put_all(groups: Groups<'_>, ahead: &mut Groups<'_>, out: &mut Vec<u8>) -> Result<(), NoMemory>
    requires { AllByRecursion (λ group. AllByRecursion IsOfRecord group.1) groups }
    ensures ok { OnOk result (out.new.items ≡ out.old.items ++ groups_octets groups.entry) }
    ensures kept { OnErr result (take (length out.old.items) out.new.items ≡ out.old.items) }
{
    let mut due = 0;
    for group in groups {
        due = go_ahead(ahead, due);
        put_items(group.items, out)?;
    }
    Ok(())
}

// Appends the part of what a collector holds. Its groups, lent once more, are read ahead. Without memory a front of it may be left.
fn put_whole(
    collector: &Collector,
    ahead: &mut Groups<'_>,
    out: &mut Vec<u8>,
) -> Result<(), NoMemory>
    ensures ok { OnOk result (out.new.items ≡ out.old.items ++ part_text collector.now) }
    ensures kept { OnErr result (take (length out.old.items) out.new.items ≡ out.old.items) }
{
    append(out, head_of(collector.held()).octets())?;
    put_all(collector.groups(), ahead, out)
}

/// Appends what a collector holds as a part: the mark, how many records there are, and these, each of version 2 where
/// its visit is known, by key, by falling hop value, by version 1 record and by visit. Its items are gone along once.
/// Without memory nothing is appended.
pub fn put_part(collector: &Collector, out: &mut Vec<u8>) -> Result<(), NoMemory>
    ensures text { out.new.items ≡ (if is_ok result then out.old.items ++ part_text collector.now else out.old.items) }
    // Where the collector stands for records, and holds no more than a part may have, this is the part of their groups.
    ensures part { (xs : List Record) → All IsRecord xs → Stands collector.now xs → collector.now.held ≤ most_records
        → PartOf (part_text collector.now) (groups_of (keyed xs)) }
{
    let before = out.len();
    let mut ahead = collector.groups();
    let answer = put_whole(collector, &mut ahead, out);
    settle(out, before, answer)
}
