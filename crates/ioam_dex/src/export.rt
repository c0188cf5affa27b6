//! What an export record says.
ghost use Rattle.std.specs.Prelude.{◌≡◌, ◌^◌, ◌<◌};

use ioam_data::{Namespace, TraceType};

/// What one record says: the data of the direct export option that a node met (RFC 9326 section
/// 3.2) and the element that it exports (RFC 9197 section 4.4).
#[derive(Clone, Copy, Debug)]
pub struct Export<'a> {
    /// The namespace of the data.
    pub namespace: Namespace,
    /// The flags of the option.
    pub flags: u8,
    /// The extension flags of the option.
    pub ext: u8,
    /// The 24 bits of the IOAM-Trace-Type of the element.
    pub kind: u32,
    /// The time at the node, in nanoseconds, and the id of the interface by which the packet came.
    /// None for a record of version 1.
    pub visit: Option<(u64, u32)>,
    /// The Flow ID, where the extension flags have 0x80.
    pub flow: Option<u32>,
    /// The Sequence Number, where they have 0x40.
    pub seq: Option<u32>,
    /// One element of the type, NodeLen being its defined words: at most 61 words. It is empty for a
    /// type without a defined word and without bit 22.
    pub element: &'a [u8],
    pub ghost kind_below: { kind < 2 ^ 24 },
}

impl Export<'_> {
    /// The IOAM-Trace-Type of the element.
    pub fn trace_type(&self) -> TraceType
        ensures { result ≡ self.now.kind }
    {
        TraceType::new(self.kind)
    }
}

/// Why octets are no export record.
#[derive(Clone, Copy, Debug, PartialEq, Eq)]
pub enum ExportFault {
    /// The first octet is neither 1 nor 2.
    Version { found: u8 },
    /// The record's length is less than its front needs, or leaves more than 244 octets behind it.
    Length { found: u16 },
    /// The octets from this place of the record on are no element of its type.
    Element { at: u32 },
    /// The octets end inside a record, of which so many are there.
    Short { have: u32 },
}
