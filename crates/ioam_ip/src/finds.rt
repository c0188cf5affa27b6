//! The headers on the chain of a sound packet (RFC 8200 section 4).
ghost use Rattle.std.specs.Prelude.{◌≡◌, All, IfSome, MatchOption, false};
ghost use Rattle.ioam_ip.specs.Packet.{IsPacket};
ghost use Rattle.ioam_ip.specs.Chain.{IsSound};
ghost use Rattle.ioam_ip.specs.ChainOptions.{HeadFits, IsFilledRange};
ghost use Rattle.ioam_ip.specs.Hop.{has_hop, IsHopRange};
ghost use Rattle.ioam_ip.specs.HeadsLeft.{AreHeads, OnlyHeads, heads_left, HopHeaderOf, TargetHeaderOf};

use crate::chain::start;
use crate::extents::said_size;
use crate::headers::Heads;
use crate::next_header::{DESTINATION, HOP_BY_HOP, IPV6};
use crate::packet::{HEADER_OCTETS, NEXT_HEADER};
use std::ops::Range;

/// The headers on the chain of a packet whose walk is whole, in order, nested ones included,
/// without the one with which the chain ends.
pub fn heads(packet: &[u8]) -> Heads<'_>
    requires packet { IsPacket packet.now }
    requires sound { IsSound packet.now }
    ensures heads { AreHeads packet.now (heads_left result) }
    ensures fit { All (HeadFits packet.now) (heads_left result) }
    // A packet has one chain.
    ensures only { OnlyHeads packet.now (heads_left result) }
{
    Heads {
        packet,
        spot: start(packet),
    }
}

/// Where the Hop-by-Hop Options header directly behind the outer IPv6 header stands, for a packet
/// whose walk is whole: behind its 40 octets, and as long as it says. None where there is none.
pub fn hop_header(packet: &[u8]) -> Option<Range<usize>>
    requires packet { IsPacket packet.now }
    requires sound { IsSound packet.now }
    ensures header { HopHeaderOf packet.now result }
    ensures filled { IfSome result (IsFilledRange packet.now) }
    ensures place { MatchOption result (has_hop packet.now ≡ false) (IsHopRange packet.now) }
{
    if packet[NEXT_HEADER] != HOP_BY_HOP {
        return None;
    }
    Some(HEADER_OCTETS..HEADER_OCTETS + said_size(packet, HEADER_OCTETS))
}

/// Where the first Destination Options header in front of any nested IPv6 header stands, for a
/// packet whose walk is whole. None where there is none.
pub fn target_header(packet: &[u8]) -> Option<Range<usize>>
    requires packet { IsPacket packet.now }
    requires sound { IsSound packet.now }
    ensures header { TargetHeaderOf packet.now result }
    ensures filled { IfSome result (IsFilledRange packet.now) }
{
    for head in heads(packet) {
        if head.value == IPV6 {
            return None;
        }
        if head.value == DESTINATION {
            return Some(head.range);
        }
    }
    None
}
