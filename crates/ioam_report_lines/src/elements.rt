//! The text of an element.
ghost use Rattle.std.specs.Prelude.{◌≡◌, ◌++◌, ◌+◌, ◌*◌, ◌/◌, ◌≤◌, ◌⊎◌, [], IsTrue, length, is_ok, if◌then◌else◌, codes};
ghost use Rattle.ioam_data.specs.Elements.{IsElement};
ghost use Rattle.ioam_data.specs.Fields.{held};
ghost use Rattle.ioam_data.specs.Kind.{words};
ghost use Rattle.ioam_data.specs.View.{snapshot_data};
ghost use Rattle.ioam_data.specs.Written.{most_exported};
ghost use Rattle.ioam_report_lines.specs.FieldsText.{element_text};
ghost use Rattle.ioam_report_lines.specs.Spaced.{bits_text, fillers_text, snapshot_text, spaced_fields, snapshot_most, fields_most};
ghost use Rattle.ioam_report_lines.specs.TraceText.{line_feed, element_line};

use crate::early::put_early_fields;
use crate::room::ReportLine;
use crate::values::{put_number, put_wide, put_wide_faces, put_wide_hop_node, put_word};
use ioam_base::memory::NoMemory;
use ioam_base::text::append;
use ioam_data::{Fields, TraceType, fields};
use ioam_line::{LineBuffer, Piece, Value, Width};

// Puts the fields of bits 0 to 11.
#[tactic(auto, unfolding(crate::specs::Spaced::bits_text))]
fn put_bits<const ROOM: usize>(fields: &Fields<'_>, line: &mut LineBuffer<ROOM>)
    requires { 800 + length line.old ≤ ROOM }
    ensures value { line.new ≡ bits_text (held fields.now) ++ line.old }
    ensures size { length line.new ≤ 800 + length line.old }
{
    put_number(b" buffer=", b"buffer_occupancy", fields.buffer, line);
    put_wide(fields.wide, line);
    put_wide_faces(fields.wide_faces, line);
    put_wide_hop_node(fields.wide_hop_node, line);
    put_word(b" check=", b"checksum_complement", fields.check, line);
    put_number(b" queue=", b"queue_depth", fields.queue, line);
    put_word(b" data=", b"namespace_data", fields.short, line);
    put_number(b" delay=", b"transit_delay", fields.delay, line);
    put_early_fields(
        fields.hop_node,
        fields.faces,
        fields.seconds,
        fields.fraction,
        line,
    );
}

// Puts the filler words, from the last to the first.
fn put_fillers<const ROOM: usize>(octets: &[u8], line: &mut LineBuffer<ROOM>)
    requires { 4 * length octets.now + length line.old ≤ ROOM }
    ensures value { line.new ≡ fillers_text (length octets.now / 4) octets.now ++ line.old }
    ensures size { length line.new ≤ 4 * length octets.now + length line.old }
{
    let mut words = octets.len() / 4;
    'fillers: while words > 0 {
        words -= 1;
        let filler = &octets[4 * words..4 * words + 4];
        line.put::<false>(Piece::Told(b" fill=", Value::Digits(filler)));
    }
}

// Puts the opaque state snapshot (bit 22).
fn put_snapshot<const ROOM: usize>(field: Option<(u32, &[u8])>, line: &mut LineBuffer<ROOM>)
    requires { snapshot_most (snapshot_data field) + length line.old ≤ ROOM }
    ensures value { line.new ≡ snapshot_text (snapshot_data field.entry) ++ line.old }
    ensures size { length line.new ≤ snapshot_most (snapshot_data field.entry) + length line.old }
{
    match field {
        None => {}
        Some((schema, octets)) => {
            let opaque = Value::Digits(octets);
            line.put::<false>(Piece::Fact(b" opaque=", b"opaque_data", opaque));
            let schema = Value::known_hex(u64::from(schema), 0xFF_FFFF, Width::Three);
            line.put::<false>(Piece::Fact(b" schema=", b"schema_id", schema));
        }
    }
}

// Puts all fields, with a space before each word.
fn put_spaced<const ROOM: usize>(fields: &Fields<'_>, line: &mut LineBuffer<ROOM>)
    requires { fields_most (held fields.now) + length line.old ≤ ROOM }
    ensures value { line.new ≡ spaced_fields (held fields.now) ++ line.old }
    ensures size { length line.new ≤ fields_most (held fields.now) + length line.old }
{
    put_snapshot(fields.snapshot, line);
    put_fillers(fields.fill, line);
    put_bits(fields, line);
}

// Whether all fields have room in the line of a packet's report: there is no filler word, and the snapshot is short.
fn is_short(fields: &Fields<'_>) -> bool
    ensures { IsTrue result → fields_most (held fields.now) ≤ 1400 }
{
    if !fields.fill.is_empty() {
        return false;
    }
    match fields.snapshot {
        None => true,
        Some((_, octets)) => octets.len() <= 240,
    }
}

/// Appends the text of an element: its fields in bit order, filler words and the snapshot, with one
/// space between each two words (RFC 9197 section 4.4.2). The octets are empty, which gives an empty
/// text, or one element whole. Without memory nothing is appended.
pub fn put_fields(
    kind: TraceType,
    node_len: u8,
    element: &[u8],
    out: &mut Vec<u8>,
) -> Result<(), NoMemory>
    requires { (element.now ≡ []) ⊎ IsElement kind node_len element.now }
    ensures { out.new.items ≡ (if is_ok result then out.old.items ++ element_text kind node_len element.now else out.old.items) }
{
    if element.is_empty() {
        return Ok(());
    }
    let mut line = LineBuffer::<8192>::new();
    put_spaced(&fields(kind, node_len, element), &mut line);
    let (_space, words) = line.octets().split_at(1);
    append(out, words)
}

/// Puts a space and the text of an element, as [`put_fields`] appends it. The element has no words but those of
/// the fields of its type and a snapshot, [`MOST_EXPORTED`](ioam_data::MOST_EXPORTED) octets in all at most, as that
/// of an export record has (RFC 9326 section 3.2), or it is empty, which gives an empty text.
pub fn put_element(kind: TraceType, element: &[u8], line: &mut ReportLine)
    requires element { (element.now ≡ []) ⊎ IsElement kind (words kind) element.now }
    requires short { length element.now ≤ most_exported }
    requires room { 1350 + length line.old ≤ 1536 }
    ensures value { line.new ≡ (codes " " ++ element_text kind (words kind) element.now) ++ line.old }
    ensures size { length line.new ≤ 1350 + length line.old }
{
    if element.is_empty() {
        line.put::<false>(Piece::Said(b" "));
        return;
    }
    put_spaced(&fields(kind, kind.words(), element), line);
}

// Appends the line of fields.
fn append_fields<const ROOM: usize>(
    fields: &Fields<'_>,
    line: &mut LineBuffer<ROOM>,
    out: &mut Vec<u8>,
) -> Result<(), NoMemory>
    requires { fields_most (held fields.now) + 24 ≤ ROOM }
    ensures { out.new.items ≡ (if is_ok result
        then out.old.items ++ (codes "   " ++ (spaced_fields (held fields.now) ++ line_feed))
        else out.old.items) }
{
    line.end::<false>();
    put_spaced(fields, line);
    // Each word has a space before it, so these are four.
    line.put::<false>(Piece::Said(b"   "));
    line.finish::<false>(b"element", out)
}

/// Appends the line of an element: four spaces and its fields.
pub fn put_element_line(
    kind: TraceType,
    node_len: u8,
    element: &[u8],
    line: &mut ReportLine,
    out: &mut Vec<u8>,
) -> Result<(), NoMemory>
    requires { IsElement kind node_len element.now }
    ensures { out.new.items ≡ (if is_ok result then out.old.items ++ element_line kind node_len element.now else out.old.items) }
{
    let fields = fields(kind, node_len, element);
    if is_short(&fields) {
        append_fields(&fields, line, out)
    } else {
        append_fields(&fields, &mut LineBuffer::<8192>::new(), out)
    }
}
