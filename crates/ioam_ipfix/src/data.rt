//! Data records (RFC 7011 section 3.4.3), both ways.

ghost use Rattle.std.specs.Prelude.{◌≡◌, ℕ, ◌+◌, ◌-◌, ◌≤◌, ◌<◌, ◌↔◌, IsTrue, List, ◌++◌, length, take, drop, slice_index, EachIndex, MatchOption, vec_len, vec_capacity};
ghost use Rattle.ioam_dex.specs.Numbers.{has_flow, has_seq};
ghost use Rattle.ioam_dex.specs.Record.{IsRecord, Rec, Record, record_octets, record_of};
ghost use Rattle.ioam_ipfix.specs.Data.{template_at, template_of, moved, back, front_of, prefix_at, size_at, data_size, element_at, data_with, data_at, HasRoom};
ghost use Rattle.ioam_dex.specs.Room.{appended};
ghost use Rattle.ioam_ipfix.specs.Sets.{IsPadding};
ghost use Rattle.ioam_ipfix.specs.Steps.{TellsData, IsVariable, IsElementPlace, Agrees};
ghost use Rattle.ioam_ipfix.specs.Templates.{IsTemplate};

use crate::kind::FIRST_TEMPLATE;
use crate::template::{tells_flow, tells_seq, tells_visit, weight};
use ioam_base::octets::u16_at;
use ioam_data::{MOST_EXPORTED, Namespace, TraceType};
use ioam_dex::fields::{
    EXTENSIONS, FLAGS, NAMESPACE, PLAIN, TRACE_TYPE, VERSION, VISIT_SIZE, VISITED,
};
use ioam_dex::{Export, ExportRoom, has_flow, has_seq, is_filled, u32_where, visit_where};

// The octets of the fields that each record has but its element: Namespace-ID, flags, extension flags and IOAM-Trace-Type.
const FIXED: u16 = 7;

// Those of Flow ID, and of Sequence Number.
const NUMBER: u16 = 4;

/// What octets where a data record is due show.
#[derive(Clone, Copy)]
pub(crate) enum DataStep {
    /// A record of so many octets.
    Whole(usize),
    Padding,
    Bad,
}

// ---- writing

// The template of an export record, by its version and its extension flags.
fn template_at(octets: &[u8]) -> u16
    requires { 2 ≤ length octets.now }
    ensures { result ≡ template_at octets.now }
{
    let ext = octets[EXTENSIONS];
    FIRST_TEMPLATE
        + weight(has_flow(ext), 4)
        + weight(has_seq(ext), 2)
        + weight(octets[VERSION] == VISITED, 1)
}

/// The template of the octets of an export record.
pub fn template_of(octets: &[u8]) -> u16
    requires { (x : Record) × Rec octets.now x }
    ensures { (x : Record) → Rec octets.now x → result ≡ template_of x }
{
    template_at(octets)
}

// Appends octets for which there is room.
pub(crate) fn put(part: &[u8], out: &mut Vec<u8>)
    requires { vec_len out.old + length part.now ≤ vec_capacity out.old }
    ensures items { out.new.items ≡ out.old.items ++ part.now }
    ensures len { vec_len out.new ≡ vec_len out.old + length part.now }
    ensures capacity { vec_capacity out.old ≤ vec_capacity out.new }
{
    // never refused: the room was taken before
    out.extend_from_slice(part).unwrap();
}

/// Appends the fields of an export record in the order of a data record, its element from a place on, for which there is room.
#[tactic(auto, using(crate::proofs::DataLaws::moved_built))]
pub(crate) fn put_moved(octets: &[u8], front: usize, out: &mut Vec<u8>)
    requires inside { (7 ≤ front) × (front ≤ length octets.now) }
    requires short { length octets.now < front + 256 }
    requires room { vec_len out.old + length octets.now ≤ vec_capacity out.old }
    ensures items { out.new.items ≡ out.old.items ++ moved front octets.now }
    ensures len { vec_len out.new + 2 ≡ vec_len out.old + length octets.now }
    ensures capacity { vec_capacity out.old ≤ vec_capacity out.new }
{
    let first = [
        octets[NAMESPACE],
        octets[NAMESPACE + 1],
        octets[FLAGS],
        octets[EXTENSIONS],
    ];
    put(&first, out);
    put(&octets[TRACE_TYPE..front], out);
    put(&[(octets.len() - front) as u8], out);
    put(&octets[front..], out);
}

// ---- reading

// The octets in front of the element's length.
fn front_of(id: u16) -> usize
    ensures value { result ≡ front_of id }
    ensures small { (7 ≤ result) × (result ≤ 27) }
{
    usize::from(
        FIXED
            + weight(tells_visit(id), VISIT_SIZE as u16)
            + weight(tells_flow(id), NUMBER)
            + weight(tells_seq(id), NUMBER),
    )
}

// How many octets a variable field's length takes, and the length, where the field is there whole.
fn variable(rest: &[u8]) -> Option<(usize, usize)>
    ensures { MatchOption result (length rest.now < prefix_at rest.now + size_at rest.now)
        (λ found. IsVariable rest.now found.0 found.1) }
{
    if rest.is_empty() {
        return None;
    }
    let (prefix, size) = if rest[0] < 255 {
        (1, usize::from(rest[0]))
    } else if rest.len() < 3 {
        return None;
    } else {
        (3, usize::from(u16_at(rest, 1)))
    };
    if rest.len() < prefix + size {
        return None;
    }
    Some((prefix, size))
}

// Where the element of a record begins and ends, where it is there whole.
fn element_place(id: u16, octets: &[u8]) -> Option<(usize, usize)>
    ensures { MatchOption result (HasRoom id octets.now → ⊥) (λ found. IsElementPlace id octets.now found.0 found.1) }
{
    let front = front_of(id);
    if octets.len() < front {
        return None;
    }
    let (prefix, size) = variable(&octets[front..])?;
    Some((front + prefix, front + prefix + size))
}

// The record whose front is there, with an element.
fn with_element<'a>(id: u16, octets: &[u8], element: &'a [u8]) -> Export<'a>
    requires { front_of id ≤ length octets.now }
    ensures { record_of result ≡ data_with id octets.now element.now }
{
    let flow = usize::from(FIXED + weight(tells_visit(id), VISIT_SIZE as u16));
    let seq = flow + usize::from(weight(tells_flow(id), NUMBER));
    Export {
        namespace: Namespace(u16_at(octets, 0)),
        flags: octets[2],
        ext: octets[3],
        kind: TraceType::at(octets, 4).bits(),
        visit: visit_where(tells_visit(id), octets, usize::from(FIXED)),
        flow: u32_where(tells_flow(id), octets, flow),
        seq: u32_where(tells_seq(id), octets, seq),
        element,
    }
}

// Whether the extension flags say what a template tells.
fn agrees(id: u16, ext: u8) -> bool
    ensures { IsTrue result ↔ Agrees id ext }
{
    has_flow(ext) == tells_flow(id) && has_seq(ext) == tells_seq(id)
}

// The size of the record that stands in front, where it is there whole and may be said.
fn data_whole(id: u16, octets: &[u8]) -> Option<usize>
    ensures { MatchOption result (HasRoom id octets.now → IsRecord (data_at id octets.now) → ⊥)
        (λ size. (size ≡ data_size id octets.now) × HasRoom id octets.now × IsRecord (data_at id octets.now)) }
{
    let Some((from, to)) = element_place(id, octets) else {
        return None;
    };
    let element = &octets[from..to];
    if agrees(id, octets[3])
        && element.len() <= MOST_EXPORTED
        && is_filled(TraceType::at(octets, 4), element)
    {
        Some(to)
    } else {
        None
    }
}

/// Whether all octets are zero.
pub(crate) fn all_zero(octets: &[u8]) -> bool
    ensures { IsTrue result ↔ EachIndex octets.now (λ k. slice_index octets.now k ≡ 0) }
{
    octets.iter().all(|octet| *octet == 0)
}

/// What octets where a data record of a template is due show.
pub(crate) fn data_step(id: u16, octets: &[u8]) -> DataStep
    requires { IsTemplate id }
    ensures { TellsData id octets.now result }
{
    if octets.len() < 8 {
        return if all_zero(octets) {
            DataStep::Padding
        } else {
            DataStep::Bad
        };
    }
    match data_whole(id, octets) {
        Some(size) => DataStep::Whole(size),
        None => DataStep::Bad,
    }
}

/// The data record of a template that stands in front.
pub(crate) fn read_data(id: u16, octets: &[u8]) -> Export<'_>
    requires { HasRoom id octets.now }
    ensures { record_of result ≡ data_at id octets.now }
{
    // the room is there, so an element is found
    let (from, to) = element_place(id, octets).unwrap();
    with_element(id, octets, &octets[from..to])
}

// Appends the parts of a data record in the order of an export record, its element from a place to another.
fn put_back(id: u16, octets: &[u8], from: usize, to: usize, room: &mut ExportRoom)
    requires place { IsElementPlace id octets.now from to }
    requires spare { front_of id + 3 + (to - from) ≤ room.old.spare }
    ensures { room.new ≡ appended room.old (back id octets.now from to) }
{
    let front = front_of(id);
    let size = front + 3 + (to - from);
    room.append(&[
        PLAIN + weight(tells_visit(id), u16::from(VISITED - PLAIN)) as u8,
        octets[3],
        (size / 256 % 256) as u8,
        (size % 256) as u8,
        octets[0],
        octets[1],
        octets[2],
    ]);
    room.append(&octets[4..front]);
    room.append(&octets[from..to]);
}

/// Appends the export record that a data record of a template says, which stands in front of octets, and takes no memory.
pub fn put_record(id: u16, octets: &[u8], room: &mut ExportRoom)
    requires whole { HasRoom id octets.now }
    requires sayable { IsRecord (data_at id octets.now) }
    requires spare { 274 ≤ room.old.spare }
    ensures appended { room.new ≡ appended room.old (record_octets (data_at id octets.now)) }
    ensures spare { room.new.spare + length (record_octets (data_at id octets.now)) ≡ room.old.spare }
{
    // the room is there, so an element is found
    let (from, to) = element_place(id, octets).unwrap();
    put_back(id, octets, from, to, room);
}
