//! The fields of an element, read.
ghost use Rattle.std.specs.Prelude.{◌≡◌, ℕ, ◌-◌, ◌*◌, ◌≤◌, length, drop};
ghost use Rattle.ioam_data.specs.Elements.{IsElement};
ghost use Rattle.ioam_data.specs.Fields.{fields_of, held, when_has, snapshot_at};
ghost use Rattle.ioam_data.specs.Shown.{ReadsBack};
ghost use Rattle.ioam_data.specs.Whole.{held_octets};
ghost use Rattle.ioam_data.specs.View.{snapshot_data};
ghost use Rattle.ioam_data.specs.Kind.{words, where_has};

use crate::bit;
use crate::cursor::Cursor;
use crate::held::Fields;
use crate::kind::TraceType;
use crate::units::OVER_24;
use ioam_base::octets::u32_at;

// The snapshot at the front of the octets, where the type has bit 22.
fn snapshot(kind: TraceType, octets: &[u8]) -> Option<(u32, &[u8])>
    requires { 4 * where_has kind 22 1 ≤ length octets.now }
    ensures { snapshot_data result ≡ when_has kind 22 (snapshot_at octets.now) }
{
    if !kind.has_snapshot() {
        return None;
    }
    Some((u32_at(octets, 0) % OVER_24, &octets[4..]))
}

// The fields of an element, by the rules alone.
#[tactic(auto, unfolding(crate::specs::Kind::words, crate::specs::Table::table, crate::specs::Fields::fields_of))]
fn read_fields(kind: TraceType, node_len: u8, octets: &[u8]) -> Fields<'_>
    requires { IsElement kind node_len octets.now }
    ensures { held result ≡ fields_of kind node_len octets.now }
{
    let words = kind.words();
    let mut cursor = Cursor { kind, rest: octets };
    let hop_node = cursor.hop_node(bit::HOP_NODE);
    let faces = cursor.faces(bit::INTERFACES);
    let seconds = cursor.number(bit::SECONDS);
    let fraction = cursor.number(bit::FRACTION);
    let delay = cursor.number(bit::DELAY);
    let short = cursor.number(bit::SHORT_DATA);
    let queue = cursor.number(bit::QUEUE);
    let check = cursor.number(bit::CHECKSUM);
    let wide_hop_node = cursor.wide_hop_node(bit::WIDE_HOP_NODE);
    let wide_faces = cursor.wide_faces(bit::WIDE_INTERFACES);
    let wide = cursor.wide(bit::WIDE_DATA);
    let buffer = cursor.number(bit::BUFFER);
    let (fill, rest) = cursor.rest.split_at(4 * usize::from(node_len - words));
    Fields {
        hop_node,
        faces,
        seconds,
        fraction,
        delay,
        short,
        queue,
        check,
        wide_hop_node,
        wide_faces,
        wide,
        buffer,
        fill,
        snapshot: snapshot(kind, rest),
    }
}

/// The fields of an element, whole: octets of which [`split`](crate::split) gives the length. Fields
/// are read as they stand: all ones are not told apart.
pub fn fields(kind: TraceType, node_len: u8, octets: &[u8]) -> Fields<'_>
    requires { IsElement kind node_len octets.now }
    ensures value { held result ≡ fields_of kind node_len octets.now }
    // Nothing of the element is lost: its octets are those of the fields.
    ensures whole { octets.now ≡ held_octets (held result) }
    // What `element` wrote for a view is read as that view shows.
    ensures back { ReadsBack kind node_len octets.now (held result) }
{
    read_fields(kind, node_len, octets)
}
