//! A record as octets, and the one record that octets are.
ghost use Rattle.std.specs.Prelude.{◌≡◌, ◌+◌, ◌<◌, ◌≤◌, ◌∷◌, ◌++◌, length, IsSomeAnd, MatchOption};
ghost use Rattle.ioam_base.specs.Words.{two_octets, three_octets};
ghost use Rattle.ioam_data.specs.Written.{most_exported};
ghost use Rattle.ioam_dex.specs.Visit.{version_of};
ghost use Rattle.ioam_dex.specs.Record.{Record, HasItsParts, IsNumbered, Rec, record_of, record_octets, record_size};
ghost use Rattle.ioam_dex.specs.Faults.{said};
ghost use Rattle.ioam_dex.specs.Room.{appended};

use crate::export::Export;
use crate::head::{RecordHead, RecordStep};
use crate::layout::front_size;
use crate::room::ExportRoom;
use crate::step::record_step;
use crate::visit::version_of;

// The numbers of a record and its sizes.
fn head_of(export: &Export<'_>) -> RecordHead
    requires { length export.now.element.now ≤ most_exported }
    ensures says { said result export.now.element.now ≡ record_of export.now }
    ensures size { result.size ≡ record_size (record_of export.now) }
{
    let front = front_size(version_of(export.visit), export.ext);
    RecordHead {
        namespace: export.namespace,
        flags: export.flags,
        ext: export.ext,
        kind: export.kind,
        visit: export.visit,
        flow: export.flow,
        seq: export.seq,
        front,
        size: front + export.element.len(),
    }
}

// Appends the octets in front of the visit.
fn put_front(head: &RecordHead, room: &mut ExportRoom)
    requires size { head.now.size < 65536 }
    requires spare { 10 ≤ room.old.spare }
    ensures { room.new ≡ appended room.old (version_of head.now.visit ∷ head.now.ext ∷ (two_octets head.now.size
        ++ (two_octets head.now.namespace.0 ++ (head.now.flags ∷ three_octets head.now.kind)))) }
{
    room.append(&[version_of(head.visit), head.ext]);
    room.two(head.size as u16);
    room.two(head.namespace.0);
    room.append(&[head.flags]);
    room.three(head.kind);
}

// Appends a record to the room.
fn append_record(export: &Export<'_>, room: &mut ExportRoom)
    requires parts { HasItsParts (record_of export.now) }
    requires spare { 274 ≤ room.old.spare }
    ensures appended { room.new ≡ appended room.old (record_octets (record_of export.now)) }
    ensures numbers { IsNumbered (record_of export.now) }
{
    let head = head_of(export);
    put_front(&head, room);
    room.visit_if(head.visit);
    room.four_if(head.flow);
    room.four_if(head.seq);
    room.append(export.element);
}

/// Appends a record to the room, and takes no memory: of version 2 where a visit is there, else of
/// version 1. Each number is there exactly where the extension flags have it; the element is one of
/// the type, NodeLen being its defined words, with at most 61 words, or empty where the type has
/// neither a defined word nor bit 22.
pub fn put_export(export: &Export<'_>, room: &mut ExportRoom)
    requires parts { HasItsParts (record_of export.now) }
    requires spare { 274 ≤ room.old.spare }
    ensures appended { room.new ≡ appended room.old (record_octets (record_of export.now)) }
    ensures spare { room.new.spare + length (record_octets (record_of export.now)) ≡ room.old.spare }
    ensures capacity { room.new.capacity ≡ room.old.capacity }
    ensures size { length (record_octets (record_of export.now)) ≤ 274 }
    // What was appended is one record with these contents.
    ensures says { Rec (record_octets (record_of export.now)) (record_of export.now) }
{
    append_record(export, room);
}

/// The contents of one record. None exactly where the octets are not one record, whole and with
/// nothing behind it.
pub fn export_of(octets: &[u8]) -> Option<Export<'_>>
    ensures reads { MatchOption result ((x : Record) → ¬ Rec octets.now x) (λ export. Rec octets.now (record_of export)) }
    // What `put_export` wrote is read as the same contents.
    ensures again { (x : Record) → Rec octets.now x → IsSomeAnd result (λ export. record_of export ≡ x) }
{
    match record_step(octets) {
        RecordStep::Whole(head) => {
            if head.size != octets.len() {
                return None;
            }
            Some(head.with_element(&octets[head.front..]))
        }
        RecordStep::Cut => None,
        RecordStep::Bad(_) => None,
    }
}
