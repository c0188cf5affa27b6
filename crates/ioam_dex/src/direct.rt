//! Direct export data as a value.
use ioam_data::{Namespace, TraceType};

/// Direct export data (RFC 9326 section 3.2). The two optional fields are there exactly where the
/// extension flags have them.
#[derive(Clone, Copy, Debug, PartialEq, Eq)]
pub struct Direct {
    /// The namespace of the data.
    pub namespace: Namespace,
    /// The eight flags, of which none is defined.
    pub flags: u8,
    /// The extension flags, [`crate::extension`].
    pub ext: u8,
    /// What a node is to export.
    pub kind: TraceType,
    /// The Flow ID.
    pub flow: Option<u32>,
    /// The Sequence Number, which begins at 0.
    pub seq: Option<u32>,
}

/// Why octets are no direct export data.
#[derive(Clone, Copy, Debug, PartialEq, Eq)]
pub enum DirectFault {
    /// So many octets are there, fewer than are wanted: 8 where fewer than 8 are there, else 8 and
    /// 4 for each of the two optional fields.
    Short { have: u32, wanted: u32 },
}
