//! A prefix of addresses.

/// A prefix of addresses (RFC 4291 section 2.3). In the routes and the flows of a domain its length
/// is at most 128, and the bits past it are 0.
#[derive(Clone, Copy, Debug, PartialEq, Eq, Hash)]
pub struct Prefix {
    /// The bits, the first group the most significant.
    pub bits: u128,
    /// How many of the bits count, from the most significant on.
    pub length: u8,
}
