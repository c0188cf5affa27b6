//! Elements of the fields of bits 0 to 3 alone, whose lines are put together as they are read.
ghost use Rattle.std.specs.Prelude.{◌≡◌, ◌++◌, ◌+◌, ◌*◌, ◌≤◌, IsTrue, length, is_ok, if◌then◌else◌};
ghost use Rattle.ioam_data.specs.Elements.{IsElement};
ghost use Rattle.ioam_data.specs.Kind.{words};
ghost use Rattle.ioam_report_lines.specs.Early.{IsEarly, early_text};
ghost use Rattle.ioam_report_lines.specs.Spaced.{early_words};
ghost use Rattle.ioam_report_lines.specs.TraceText.{element_line};

use crate::values::{put_faces, put_hop_node, put_number};
use ioam_base::memory::NoMemory;
use ioam_data::{Cursor, TraceType, bit};
use ioam_line::{LineBuffer, Piece};

/// Whether the elements of a type with this NodeLen are fields of bits 0 to 3 alone.
#[tactic(auto, using(crate::proofs::EarlyLaws::early_of))]
pub(crate) fn is_early(kind: TraceType, node_len: u8) -> bool
    ensures { IsTrue result → IsEarly kind node_len }
{
    !kind.has_one_of_4_to_7()
        && !kind.has_one_of_8_to_11()
        && !kind.has_snapshot()
        && kind.words() == node_len
}

/// Puts the fields of bits 0 to 3, with a space before each word.
#[inline(always)]
pub(crate) fn put_early_fields<const ROOM: usize>(
    hop_node: Option<(u8, u32)>,
    faces: Option<(u16, u16)>,
    seconds: Option<u32>,
    fraction: Option<u32>,
    line: &mut LineBuffer<ROOM>,
)
    requires { 300 + length line.old ≤ ROOM }
    ensures value { line.new ≡ early_words hop_node faces seconds fraction ++ line.old }
    ensures size { length line.new ≤ 300 + length line.old }
{
    put_number(b" frac=", b"timestamp_fraction", fraction, line);
    put_number(b" sec=", b"timestamp_seconds", seconds, line);
    put_faces(faces, line);
    put_hop_node(hop_node, line);
}

// Puts the fields of bits 0 to 3 of an element.
#[inline(always)]
#[tactic(auto, unfolding(ioam_data::specs::Kind::words, ioam_data::specs::Table::table))]
fn put_early<const ROOM: usize>(kind: TraceType, element: &[u8], line: &mut LineBuffer<ROOM>)
    requires fields { 4 * words kind ≤ length element.now }
    requires room { 300 + length line.old ≤ ROOM }
    ensures value { line.new ≡ early_text kind element.now ++ line.old }
    ensures size { length line.new ≤ 300 + length line.old }
{
    let mut cursor = Cursor {
        kind,
        rest: element,
    };
    let hop_node = cursor.hop_node(bit::HOP_NODE);
    let faces = cursor.faces(bit::INTERFACES);
    let seconds = cursor.number(bit::SECONDS);
    let fraction = cursor.number(bit::FRACTION);
    put_early_fields(hop_node, faces, seconds, fraction, line);
}

/// Appends the line of such an element: four spaces and its fields.
pub(crate) fn append_early<const ROOM: usize>(
    kind: TraceType,
    node_len: u8,
    element: &[u8],
    line: &mut LineBuffer<ROOM>,
    out: &mut Vec<u8>,
) -> Result<(), NoMemory>
    requires element { IsElement kind node_len element.now }
    requires early { IsEarly kind node_len }
    requires room { 400 ≤ ROOM }
    ensures { out.new.items ≡ (if is_ok result then out.old.items ++ element_line kind node_len element.now else out.old.items) }
{
    line.end::<false>();
    put_early(kind, element, line);
    // Each word has a space before it, so these are four.
    line.put::<false>(Piece::Said(b"   "));
    line.finish::<false>(b"element", out)
}
