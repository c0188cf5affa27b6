//! The packet that a tunnel packet carries.
ghost use Rattle.std.specs.Prelude.{◌≡◌, ◌≤◌, ◌<◌, ◌^◌, ℕ, length, drop, MatchOption, IfSome, IsTrue, ◌↔◌};
ghost use Rattle.ioam_ip.specs.Packet.{IsPacket};
ghost use Rattle.ioam_ip.specs.Chain.{IsSound};
ghost use Rattle.ioam_tunnel.specs.Inner.{FirstOther, InnerAt, GivesBack};

use ioam_ip::next_header::IPV6;
use ioam_ip::{Head, Walk, header, heads, walk};
use std::ops::Range;

// The first header on the chain that holds no options.
fn first_other(packet: &[u8]) -> Option<Head>
    requires packet { IsPacket packet.now }
    requires sound { IsSound packet.now }
    ensures first { FirstOther packet.now result }
    ensures within { IfSome result (λ head. head.range.start ≤ length packet.now) }
{
    for head in heads(packet) {
        if !head.is_options() {
            return Some(head);
        }
    }
    None
}

fn is_packet(octets: &[u8]) -> bool
    ensures { IsTrue result ↔ IsPacket octets.now }
{
    header(octets).is_some()
}

// The packet in a packet whose chain is whole.
fn inner_of(packet: &[u8]) -> Option<Range<usize>>
    requires packet { IsPacket packet.now }
    requires sound { IsSound packet.now }
    ensures { MatchOption result ((place : ℕ) → IsPacket packet.now → InnerAt packet.now place → ⊥)
        (λ range. InnerAt packet.now range.start × (range.end ≡ length packet.now)) }
{
    let Some(head) = first_other(packet) else {
        return None;
    };
    if head.value != IPV6 {
        return None;
    }
    let start = head.range.start;
    if !is_packet(&packet[start..]) {
        return None;
    }
    Some(start..packet.len())
}

// The packet in octets, by the rules alone.
fn inner_in(packet: &[u8]) -> Option<Range<usize>>
    ensures there { MatchOption result ((place : ℕ) → IsPacket packet.now → InnerAt packet.now place → ⊥)
        (λ range. InnerAt packet.now range.start × (range.end ≡ length packet.now)) }
    ensures packet { IfSome result (λ _. IsPacket packet.now) }
{
    if !is_packet(packet) {
        return None;
    }
    let Walk::Whole { .. } = walk(packet) else {
        return None;
    };
    inner_of(packet)
}

/// The octets from the first header on the chain that holds no options to the end. None exactly
/// where the octets aren't a packet with a whole chain, that header isn't a nested IPv6 header, or
/// they aren't a packet by themselves.
pub fn inner(packet: &[u8]) -> Option<Range<usize>>
    ensures there { MatchOption result ((place : ℕ) → IsPacket packet.now → InnerAt packet.now place → ⊥)
        (λ range. InnerAt packet.now range.start × (range.end ≡ length packet.now)) }
    // Nothing is found but in a packet.
    ensures packet { IfSome result (λ _. IsPacket packet.now) }
    ensures back { GivesBack packet.now result }
{
    inner_in(packet)
}
