//! What the head of a capture says of its records.
ghost use Rattle.std.specs.Prelude.{◌≡◌, MatchOption};
ghost use Rattle.ioam_pcap.specs.Link.{IsLinkType, IsNoLinkType, link_type};

use ioam_ip::Layer;

/// The link type of packets that begin with an Ethernet header.
pub const ETHERNET: u32 = 1;

/// The link type of packets that begin with an IP header, which captures are written with.
pub const RAW: u32 = 101;

/// The link type of packets that begin with an IPv6 header.
const IPV6: u32 = 229;

/// The layer that the packets of a link type begin at; None for a type that is not read.
#[tactic(auto, using(crate::proofs::LinkLaws::link_type_says))]
pub fn link_type(number: u32) -> Option<Layer>
    ensures exact { result ≡ link_type number }
    ensures says { MatchOption result (IsNoLinkType number) (λ link. IsLinkType number link) }
{
    match number {
        ETHERNET => Some(Layer::Ethernet),
        RAW | IPV6 => Some(Layer::Raw),
        _ => None,
    }
}

/// The order of the octets of a capture's numbers.
#[derive(Clone, Copy, Debug)]
pub enum Order {
    /// The most significant octet first.
    Big,
    /// The least significant octet first.
    Little,
}

/// What a record's fraction of a second counts.
#[derive(Clone, Copy, Debug)]
pub enum Fraction {
    Micro,
    Nano,
}

/// What a capture's head says of its records.
#[derive(Clone, Copy, Debug)]
pub struct Form {
    pub order: Order,
    pub fraction: Fraction,
    pub link: Layer,
}
