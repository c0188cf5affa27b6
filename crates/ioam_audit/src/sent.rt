//! Whether a node may have sent a packet on as another.
ghost use Rattle.std.specs.Prelude.{◌≡◌, ◌<◌, ◌≤◌, ◌-◌, ◌↔◌, ℕ, List, IsTrue, length, slice_index, slice_get};
ghost use Rattle.ioam_clock.specs.declared.sample.Sample.{Sample};
ghost use Rattle.ioam_ip.specs.Chain.{IsSound};
ghost use Rattle.ioam_ip.specs.Hop.{hop_options};
ghost use Rattle.ioam_ip.specs.Packet.{IsPacket};
ghost use Rattle.ioam_node.specs.Outward.{outward_of};
ghost use Rattle.ioam_node.specs.declared.place.Place.{Place};
ghost use Rattle.ioam_node_visit.specs.Seeing.{id_of};
ghost use Rattle.ioam_node_visit.specs.Stepped.{Stepped};
ghost use Rattle.ioam_topo.specs.Domain.{links, nodes};
ghost use Rattle.ioam_topo.specs.declared.ids.Way.{Way};
ghost use Rattle.ioam_audit.specs.Header.{AreLeft, IsLowered};
ghost use Rattle.ioam_audit.specs.Sent.{IsSentAs, end_of};

use crate::options::agree;
use crate::parts::is_same;
use crate::sight::Sight;
use ioam_ip::{HEADER_OCTETS, HOP_LIMIT, hop_header};
use ioam_topo::{Domain, LinkId, NodeId};

// Whether the IPv6 header of a packet is that of another with its hop limit, 2 or more, one less.
fn is_lowered(before: &[u8], after: &[u8]) -> bool
    requires begins { 40 ≤ length before.now }
    requires same { length after.now ≡ length before.now }
    ensures { IsTrue result ↔ IsLowered before.now after.now }
{
    before[HOP_LIMIT] >= 2
        && is_same(&after[..HOP_LIMIT], &before[..HOP_LIMIT])
        && after[HOP_LIMIT] == before[HOP_LIMIT] - 1
        && is_same(
            &after[HOP_LIMIT + 1..HEADER_OCTETS],
            &before[HOP_LIMIT + 1..HEADER_OCTETS],
        )
}

// Whether all that follows the IPv6 header is as the node may have left it.
fn is_left(domain: &Domain, node: NodeId, sight: Sight, before: &[u8], after: &[u8]) -> bool
    requires packet { IsPacket before.now }
    requires sound { IsSound before.now }
    requires same { length after.now ≡ length before.now }
    ensures { IsTrue result ↔ AreLeft domain.now node.0 sight.hops sight.id sight.inward before.now after.now 40 (hop_options before.now) }
{
    match hop_header(before) {
        Some(hop) => agree(domain, node, sight, before, after, hop.end),
        None => is_same(&after[HEADER_OCTETS..], &before[HEADER_OCTETS..]),
    }
}

// The same of the whole packet.
fn is_sent(domain: &Domain, node: NodeId, sight: Sight, before: &[u8], after: &[u8]) -> bool
    requires packet { IsPacket before.now }
    requires sound { IsSound before.now }
    ensures { IsTrue result ↔ ((length after.now ≡ length before.now) × IsLowered before.now after.now
        × AreLeft domain.now node.0 sight.hops sight.id sight.inward before.now after.now 40 (hop_options before.now)) }
{
    after.len() == before.len()
        && is_lowered(before, after)
        && is_left(domain, node, sight, before, after)
}

// What is known of a node that sent a packet on, which came by a link.
fn sight_of(domain: &Domain, node: NodeId, link: LinkId, packet: &[u8]) -> Sight
    requires node { node.0 < length (nodes domain.now) }
    requires link { link.0 < length (links domain.now) }
    requires begins { 40 ≤ length packet.now }
    ensures hops { result.hops ≡ slice_index packet.now 7 - 1 }
    ensures id { result.id ≡ id_of (slice_get (nodes domain.now) node.0) }
    ensures inward { result.inward ≡ end_of (slice_get (links domain.now) link.0) }
{
    let hops = packet[HOP_LIMIT].saturating_sub(1);
    Sight::new(hops, domain.node(node).id, domain.link(link).in_id)
}

/// Whether a node of a domain, which `before` reached by this link, may have sent it on as `after`: with its hop limit,
/// which is 2 or more, one less, and all else as it was but for the data of the traces of its outer Hop-by-Hop Options
/// header that may change on the way and whose namespace the node knows. Each such trace is either as the node may leave
/// it (where its type has undefined bits, where Overflow is set, where no node can add to it), or has one element more,
/// with the node's id and the hop limit of `after`, or Overflow, where an element may have been too long (RFC 9197 section
/// 4.4). It takes no memory, and most pairs of packets that aren't one end within the first octets.
pub fn legal(domain: &Domain, node: NodeId, link: LinkId, before: &[u8], after: &[u8]) -> bool
    requires node { node.0 < length (nodes domain.now) }
    requires link { link.0 < length (links domain.now) }
    requires packet { IsPacket before.now }
    requires sound { IsSound before.now }
    ensures legal { IsTrue result ↔ IsSentAs domain.now node.0 (end_of (slice_get (links domain.now) link.0)) before.now after.now }
    // What the node of this domain itself leaves of a packet that it sends on by a link or a port, offset by offset, is legal.
    ensures steps { (readings : List (List Sample)) (place : Place) (way : Way) (time : ℕ) → place.node.0 ≡ node.0
        → place.inward ≡ end_of (slice_get (links domain.now) link.0) → place.outward ≡ outward_of domain.now way
        → 2 ≤ slice_index before.now 7
        → Stepped domain.now readings place time (slice_index before.now 7 - 1) (slice_index before.now 7 - 1) before.now after.now
        → IsTrue result }
{
    let sight = sight_of(domain, node, link, before);
    is_sent(domain, node, sight, before, after)
}
