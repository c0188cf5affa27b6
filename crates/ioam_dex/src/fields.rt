//! Where the fields of an export record stand, in octets from its front, and which versions it may have. What the
//! direct export option has (RFC 9326 section 3.2), Namespace-ID, flags, extension flags and IOAM-Trace-Type, a record
//! has too, in another order. Behind these stand the visit of a record of version 2, Flow ID and Sequence Number as the
//! extension flags have them, and the element.

/// The version: 8 bits.
pub const VERSION: usize = 0;

/// The extension flags of the option: 8 bits.
pub const EXTENSIONS: usize = 1;

/// How many octets the record has, those in front of this field among them: 16 bits.
pub const LENGTH: usize = 2;

/// The octets that a record has to have before it tells its length: those in front of that field, and this.
pub const SIZED: usize = 4;

/// The Namespace-ID of the option: 16 bits.
pub const NAMESPACE: usize = 4;

/// The flags of the option: 8 bits.
pub const FLAGS: usize = 6;

/// The IOAM-Trace-Type of the option: 24 bits.
pub const TRACE_TYPE: usize = 7;

/// The visit, where the record is of version 2, and else what stands behind it.
pub const VISIT: usize = 10;

/// The octets of a visit: the time at the node, 64 bits, and the interface by which the packet came, 32 bits.
pub const VISIT_SIZE: usize = 12;

/// The version of a record without a visit.
pub const PLAIN: u8 = 1;

/// The version of a record with a visit.
pub const VISITED: u8 = 2;
