//! The values of Next Header by which the headers on a packet's chain are told (RFC 8200 section 4).

/// Hop-by-Hop Options (RFC 8200 section 4.3).
pub const HOP_BY_HOP: u8 = 0;

/// An IPv6 header, that of a packet in a tunnel (RFC 2473 section 3).
pub const IPV6: u8 = 41;

/// Routing (RFC 8200 section 4.4).
pub const ROUTING: u8 = 43;

/// Fragment (RFC 8200 section 4.5).
pub const FRAGMENT: u8 = 44;

/// No Next Header: nothing stands behind (RFC 8200 section 4.7).
pub const NO_NEXT: u8 = 59;

/// Destination Options (RFC 8200 section 4.6).
pub const DESTINATION: u8 = 60;
