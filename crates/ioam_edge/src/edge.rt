//! Edge-to-edge data as a value.
use ioam_data::Namespace;

/// Edge-to-edge data (RFC 9197 section 4.6). Each field is there exactly where the type asks for it.
#[derive(Clone, Copy, Debug, PartialEq, Eq)]
pub struct Edge {
    /// The namespace of the data.
    pub namespace: Namespace,
    /// The IOAM-E2E-Type: bit 0, 0x8000, asks for a 64-bit sequence number, 0x4000 for a 32-bit
    /// one, 0x2000 and 0x1000 for the seconds and the fraction of a timestamp.
    pub kind: u16,
    /// The 64-bit sequence number; numbers begin at 0.
    pub seq64: Option<u64>,
    /// The 32-bit sequence number.
    pub seq32: Option<u32>,
    /// The seconds of the timestamp, in the format of the domain.
    pub seconds: Option<u32>,
    /// Its fraction.
    pub fraction: Option<u32>,
}

/// Why octets are no edge-to-edge data.
#[derive(Clone, Copy, Debug, PartialEq, Eq)]
pub enum EdgeFault {
    /// So many octets are there, fewer than are wanted: 4 where fewer than 4 are there, else 4 and
    /// those of the fields that the type asks for.
    Short { have: u32, wanted: u32 },
}
