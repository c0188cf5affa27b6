//! What a packet shows of IOAM.

/// What a packet shows of IOAM.
#[derive(Clone, Copy, Debug, PartialEq, Eq)]
pub enum Finding {
    /// All of its header chain was seen, and it shows nothing.
    Clean,
    /// It shows an IOAM option.
    Leaks(Leak),
    /// It shows no IOAM option, and not all of it can be seen.
    Hides(Hidden),
}

/// Where the IOAM option stands that a packet shows.
#[derive(Clone, Copy, Debug, PartialEq, Eq)]
pub enum Leak {
    /// On the packet's header chain.
    Carries,
    /// In the packet that an ICMPv6 error quotes.
    Quotes,
}

/// Why not all of a packet can be seen.
#[derive(Clone, Copy, Debug, PartialEq, Eq)]
pub enum Hidden {
    /// The header chain ends with an Encapsulating Security Payload (RFC 4303).
    Esp,
    /// The header chain ends with an Authentication Header (RFC 4302).
    Ah,
    /// The header chain ends with a fragment that isn't the first (RFC 8200 section 4.5).
    Fragment,
    /// A header breaks the header chain.
    Chain,
}
