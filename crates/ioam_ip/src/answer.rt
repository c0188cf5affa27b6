//! What a walk along the chain of a packet tells.

/// What a walk along the chain of headers tells. Places count octets from the packet's first.
#[derive(Clone, Copy, Debug, PartialEq, Eq)]
pub enum Walk {
    /// Every header is whole, stands where it may, and its options fill it.
    Whole {
        /// Whether an options header on the chain, nested ones included, has an IOAM option.
        ioam: bool,
        /// The value with which the chain ends: the upper protocol, or 44 for a fragment that
        /// isn't the first.
        upper: u8,
        /// The place at which it ends.
        at: u32,
        /// The Tunnel Encapsulation Limit in front of any nested header (RFC 2473 section 4.1.1).
        limit: Option<u8>,
    },
    /// The first header that breaks the chain stands at this place.
    Bad {
        at: u32,
    },
}
