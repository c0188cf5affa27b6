//! Edge-to-edge data.
ghost use Rattle.std.specs.Prelude.{◌≡◌};
ghost use Rattle.ioam_c.specs.Edge.{ReadsEdge, edge_of};

use crate::part::{flag, number, wide_flag, wide_number};
use crate::status::{OK, SHORT};
use ioam_edge::{Edge, read};

/// Edge-to-edge data (RFC 9197 section 4.6). Each field has a flag that is 1 if the type asks for it; if the flag is 0 the field is 0.
#[repr(C)]
#[derive(Clone, Copy, Debug)]
pub struct IoamEdge {
    /// The 64-bit sequence number, type bit 0x8000.
    pub seq64: u64,
    /// The 32-bit sequence number, type bit 0x4000.
    pub seq32: u32,
    /// The seconds of the timestamp, type bit 0x2000.
    pub seconds: u32,
    /// The fraction of the timestamp, type bit 0x1000.
    pub fraction: u32,
    /// Namespace-ID.
    pub namespace: u16,
    /// IOAM-E2E-Type.
    pub kind: u16,
    pub has_seq64: u8,
    pub has_seq32: u8,
    pub has_seconds: u8,
    pub has_fraction: u8,
}

/// Reads edge-to-edge data, whose octets are those after the IOAM-Option-Type. `OK`: `edge` is what they begin with. `SHORT`: they are
/// fewer than the type asks for, and `edge` stays.
#[unsafe(no_mangle)]
pub extern "C" fn ioam_edge_read(octets: &[u8], edge: &mut IoamEdge) -> u32
    ensures { ReadsEdge octets.now edge.old edge.new result }
{
    match read(octets) {
        Ok(value) => {
            *edge = edge_of(&value);
            OK
        }
        Err(_) => SHORT,
    }
}

// The value as C sees it.
fn edge_of(edge: &Edge) -> IoamEdge
    ensures { result ≡ edge_of edge.now }
{
    IoamEdge {
        seq64: wide_number(edge.seq64),
        seq32: number(edge.seq32),
        seconds: number(edge.seconds),
        fraction: number(edge.fraction),
        namespace: edge.namespace.0,
        kind: edge.kind,
        has_seq64: wide_flag(edge.seq64),
        has_seq32: flag(edge.seq32),
        has_seconds: flag(edge.seconds),
        has_fraction: flag(edge.fraction),
    }
}
