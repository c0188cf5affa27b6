//! The extension flags of direct export (RFC 9326 section 3.2).

/// Bit 0: a Flow ID is there.
pub const FLOW_ID: u8 = 0x80;

/// Bit 1: a Sequence Number is there.
pub const SEQUENCE_NUMBER: u8 = 0x40;
