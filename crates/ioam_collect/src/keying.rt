//! What of a record is kept: its key, and its item.
ghost use Rattle.std.specs.Prelude.{◌≡◌, ◌+◌, ◌≤◌, length, slice_index, true, IfSome};
ghost use Rattle.ioam_data.specs.Elements.{IsFilled};
ghost use Rattle.ioam_dex.specs.RecordRef.{content};
ghost use Rattle.ioam_dex.specs.Visit.{has_visit, visit_octets};
ghost use Rattle.ioam_collect.specs.Keyed.{IsCoreOf, IsOfRecord, hops_in, hops_of, keyed_of};

use crate::key::Key;
use ioam_base::octets::u32_at;
use ioam_data::{TraceType, bit, fields};
use ioam_dex::{ExportRoom, RecordRef, element_in};
use ioam_pool::Parts;

// What Hop_Lim counts in, in front of a node id of 24 bits.
const HOPS: u32 = 1 << 24;

// The hop value of an element: that of bit 0 of its type, or of bit 8 where bit 0 isn't there.
fn hops_in(kind: TraceType, element: &[u8]) -> Option<u8>
    requires filled { IsFilled kind element.now }
    ensures { result ≡ hops_in kind element.now }
{
    if element.is_empty() {
        return None;
    }
    if kind.has(bit::HOP_NODE) {
        return Some((u32_at(element, 0) / HOPS) as u8);
    }
    let fields = fields(kind, kind.words(), element);
    match fields.hop_node {
        Some((hops, _)) => Some(hops),
        None => fields.wide_hop_node.map(|(hops, _)| hops),
    }
}

/// The hop value of a record.
pub(crate) fn hops_of(export: &RecordRef<'_>) -> Option<u8>
    ensures { result ≡ hops_of (content export.now) }
{
    let (kind, element) = element_in(export.octets);
    hops_in(kind, element)
}

/// Writes the version 1 record of a record that tells a visit into the room, and nothing else. Any other is that record itself.
pub(crate) fn write_core(export: &RecordRef<'_>, room: &mut ExportRoom)
    requires room { 274 ≤ room.old.spare + length room.old.octets }
    ensures core { has_visit (slice_index export.now.octets.now 0) ≡ true → IsCoreOf (content export.now) room.new.octets }
    ensures room { room.new.spare + length room.new.octets ≡ room.old.spare + length room.old.octets }
{
    if export.has_visit() {
        room.clear();
        export.put_plain(room);
    }
}

/// The version 1 record of a record, of which the octets are given and, if it tells a visit, what `write_core` wrote.
pub(crate) fn core_of<'a>(export: &RecordRef<'_>, octets: &'a [u8], written: &'a [u8]) -> &'a [u8]
    requires octets { octets.now ≡ export.now.octets.now }
    requires written { has_visit (slice_index export.now.octets.now 0) ≡ true → IsCoreOf (content export.now) written.now }
    ensures { IsCoreOf (content export.now) result.now }
{
    if export.has_visit() { written } else { octets }
}

/// The key of a record, and the parts of its item, of which the octets are given. None without a Flow ID, a Sequence Number or
/// a hop value.
pub(crate) fn keyed<'a>(
    export: &RecordRef<'_>,
    core: &'a [u8],
    visit: &'a [u8],
) -> Option<(Key, Parts<'a>)>
    requires core { IsCoreOf (content export.now) core.now }
    requires visit { visit.now ≡ visit_octets (content export.now).visit }
    ensures keyed { result ≡ keyed_of (content export.now) }
    ensures of_record { IfSome result (λ found. IsOfRecord found.1) }
{
    let key = Key::of(export)?;
    let hops = hops_of(export)?;
    Some((key, Parts::new(hops, core, visit)))
}
