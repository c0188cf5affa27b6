//! The kinds of header on the chain of a packet, and the spots at which they stand.
ghost use Rattle.std.specs.Prelude.{◌≡◌, ◌≤◌, length};
ghost use Rattle.ioam_ip.specs.Chain.{kind_of, start};

use crate::next_header::{DESTINATION, FRAGMENT, HOP_BY_HOP, IPV6, ROUTING};
use crate::packet::{HEADER_OCTETS, NEXT_HEADER};
use std::ops::Range;

/// The kinds of header that a next header value names (RFC 8200 section 4).
#[derive(Clone, Copy)]
pub(crate) enum Kind {
    HopByHop,
    Destination,
    Routing,
    Fragment,
    Nested,
    Upper,
}

/// A header on the chain behind which it goes on.
#[derive(Debug, Drop, PartialEq, Eq)]
pub struct Head {
    /// The value by which the header in front of it names it.
    pub value: u8,
    /// The places of its octets in the packet.
    pub range: Range<usize>,
}

/// Where a header may stand.
#[derive(Clone, Copy)]
pub(crate) struct HeadSpot {
    /// The value that names the header.
    pub(crate) value: u8,
    /// The place of its first octet.
    pub(crate) at: usize,
    /// Whether it stands directly behind an IPv6 header.
    pub(crate) behind_ip: bool,
}

impl Head {
    ghost use Rattle.std.specs.Prelude.{◌≡◌};
    ghost use Rattle.ioam_ip.specs.ChainOptions.{is_options_head};

    /// Whether it holds options: Hop-by-Hop or Destination Options.
    pub fn is_options(&self) -> bool
        ensures { result ≡ is_options_head self.now }
    {
        self.value == HOP_BY_HOP || self.value == DESTINATION
    }
}

/// The spot behind the first IPv6 header of a packet.
pub(crate) fn start(packet: &[u8]) -> HeadSpot
    requires { 40 ≤ length packet.now }
    ensures { result ≡ start packet.now }
{
    HeadSpot {
        value: packet[NEXT_HEADER],
        at: HEADER_OCTETS,
        behind_ip: true,
    }
}

/// The kind of header that a value names.
pub(crate) fn kind_of(value: u8) -> Kind
    ensures { result ≡ kind_of value }
{
    match value {
        HOP_BY_HOP => Kind::HopByHop,
        DESTINATION => Kind::Destination,
        ROUTING => Kind::Routing,
        FRAGMENT => Kind::Fragment,
        IPV6 => Kind::Nested,
        _ => Kind::Upper,
    }
}
