//! Edge-to-edge data, read.
ghost use Rattle.std.specs.Prelude.{◌≡◌, ◌+◌, ◌≤◌, length};
ghost use Rattle.ioam_edge.specs.Edge.{Begins, Reads, ReadsAgain, asks, fields_size, wanted};

use crate::cursor::Cursor;
use crate::edge::{Edge, EdgeFault};
use ioam_base::octets::u16_at;
use ioam_data::Namespace;

/// Whether a type asks for the field of a bit, 0 to 15 and the most significant first.
#[tactic(auto, unfolding(crate::specs::Edge::asks))]
pub fn asks(kind: u16, bit: u8) -> bool
    requires { bit ≤ 15 }
    ensures { result ≡ asks kind bit }
{
    (kind >> (15 - bit)) % 2 == 1
}

// The octets of the fields of the known bits.
fn fields_size(kind: u16) -> usize
    ensures value { result ≡ fields_size kind }
    ensures small { result ≤ 20 }
{
    let sequence = if asks(kind, 0) { 8 } else { 0 };
    let short_sequence = if asks(kind, 1) { 4 } else { 0 };
    let seconds = if asks(kind, 2) { 4 } else { 0 };
    let fraction = if asks(kind, 3) { 4 } else { 0 };
    sequence + short_sequence + seconds + fraction
}

/// The octets of the data of a type, those for bits that are not known left out: the namespace, the
/// type, and the fields that it asks for.
pub fn data_size(kind: u16) -> usize
    ensures value { result ≡ 4 + fields_size kind }
    ensures small { result ≤ 24 }
{
    4 + fields_size(kind)
}

// The octets that are wanted, as far as these tell.
fn wanted(octets: &[u8]) -> usize
    ensures value { result ≡ wanted octets.now }
    ensures small { result ≤ 24 }
{
    if octets.len() < 4 {
        return 4;
    }
    data_size(u16_at(octets, 2))
}

// The value in front of octets that have it whole.
fn value(octets: &[u8]) -> Edge
    requires { wanted octets.now ≤ length octets.now }
    ensures { Begins result octets.now }
{
    let mut cursor = Cursor { rest: octets };
    let namespace = Namespace(cursor.two());
    let kind = cursor.two();
    let seq64 = cursor.eight_if(asks(kind, 0));
    let seq32 = cursor.four_if(asks(kind, 1));
    let seconds = cursor.four_if(asks(kind, 2));
    let fraction = cursor.four_if(asks(kind, 3));
    Edge {
        namespace,
        kind,
        seq64,
        seq32,
        seconds,
        fraction,
    }
}

/// Reads the octets behind the IOAM-Option-Type of an edge-to-edge option. `Short` comes exactly
/// where they are fewer than the four of namespace and type and those of the known fields. What
/// follows them, for bits of the type that are not known, is left unread.
pub fn read(octets: &[u8]) -> Result<Edge, EdgeFault>
    ensures reads { Reads octets.now result }
    // What `put` wrote is read as the same value.
    ensures again { ReadsAgain octets.now result }
{
    let wanted = wanted(octets);
    if octets.len() < wanted {
        return Err(EdgeFault::Short {
            have: octets.len() as u32,
            wanted: wanted as u32,
        });
    }
    Ok(value(octets))
}
