//! The IPv6 header (RFC 8200 section 3): 40 octets in front of every packet.
ghost use Rattle.std.specs.Prelude.{◌<◌, ◌^◌};

/// The octets of an IPv6 header.
pub const HEADER_OCTETS: usize = 40;

/// The place of Next Header in an IPv6 header.
pub const NEXT_HEADER: usize = 6;

/// The place of Hop Limit in an IPv6 header.
pub const HOP_LIMIT: usize = 7;

/// What an IPv6 header says besides its version, which is 6.
#[derive(Clone, Copy, Debug, PartialEq, Eq)]
pub struct Header {
    /// Traffic Class.
    pub class: u8,
    /// Flow Label, below 2^20.
    pub label: u32,
    /// Payload Length: the octets behind the 40 of the header, extension headers included.
    pub payload: u16,
    /// Next Header, which names what follows.
    pub next: u8,
    /// Hop Limit.
    pub hops: u8,
    /// Source Address, its first octet the most significant.
    pub source: u128,
    /// Destination Address, its first octet the most significant.
    pub target: u128,
    pub ghost label_fits: { label < 2 ^ 20 },
}
