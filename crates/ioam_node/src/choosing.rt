//! Where a node sends a packet.
ghost use Rattle.std.specs.Prelude.{◌≡◌, ◌<◌, ◌≤◌, IfOk, MatchResult, length};
ghost use Rattle.ioam_topo.specs.Domain.{links, ports};
ghost use Rattle.ioam_topo.specs.Forward.{IsWayFrom};
ghost use Rattle.ioam_topo.specs.declared.ids.Way.TheVariants as way;
ghost use Rattle.ioam_node.specs.Choice.{choice, stops, Goes, entry_choice, entry_stops, Enters, exit_choice, exit_stops, Leaves};
ghost use Rattle.ioam_node.specs.Order.{IsFirst};

use crate::reason::Reason;
use ioam_topo::{Domain, LinkId, NodeId, PortId, Way};

/// Where a node that isn't the packet's exit sends it, or the first of these reasons that holds:
/// `HopLimit`, `NoRoute`, `TooBig`, `IoamOut`.
///
/// `hops` is the hop limit that this node would lower, `target` the address that is routed, and
/// `size` the octets of the packet as it would be sent. `enclosed` says that the packet is enclosed
/// or is to be.
#[tactic(auto, using(crate::proofs::ChoiceLaws::choice_right))]
pub fn transit(
    domain: &Domain,
    node: NodeId,
    enclosed: bool,
    hops: u8,
    target: u128,
    size: usize,
) -> Result<Way, Reason>
    ensures way { result ≡ choice domain.now node.0 enclosed hops target size }
    ensures first { MatchResult result (Goes domain.now node.0 enclosed hops target size)
        (IsFirst (stops domain.now node.0 enclosed hops target size)) }
    ensures lowered { IfOk result (λ _. 2 ≤ hops) }
    ensures inside { IfOk result (IsWayFrom (links domain.now) (ports domain.now) node.0) }
{
    if hops <= 1 {
        return Err(Reason::HopLimit);
    }
    match domain.forward(node, target) {
        None => Err(Reason::NoRoute),
        Some(Way::Link(link)) => {
            if size > domain.link(link).mtu as usize {
                Err(Reason::TooBig)
            } else {
                Ok(Way::Link(link))
            }
        }
        Some(Way::Port(_)) if enclosed => Err(Reason::IoamOut),
        Some(way) => Ok(way),
    }
}

/// Where the node at which a packet is to be enclosed sends the outer packet, or the first of these
/// reasons that holds: `HopLimit`, `NoRoute`, `EncapLimit`, `TooBig`, `IoamOut`.
///
/// `hops` is the packet's own hop limit, `target` the address of the tunnel's exit, and `size` the
/// octets of the outer packet. `refused` says that the packet may not be enclosed once more: its
/// Tunnel Encapsulation Limit is 0 (RFC 2473 section 4.1.1).
#[tactic(auto, using(crate::proofs::ChoiceLaws::entry_right))]
pub fn begin(
    domain: &Domain,
    node: NodeId,
    refused: bool,
    hops: u8,
    target: u128,
    size: usize,
) -> Result<LinkId, Reason>
    ensures link { result ≡ entry_choice domain.now node.0 refused hops target size }
    ensures first { MatchResult result (Enters domain.now node.0 refused hops target size)
        (IsFirst (entry_stops domain.now node.0 refused hops target size)) }
    ensures lowered { IfOk result (λ _. 2 ≤ hops) }
    ensures inside { IfOk result (λ link. IsWayFrom (links domain.now) (ports domain.now) node.0 (way.Link link)) }
    ensures fits { IfOk result (λ _. size ≤ 65575) }
{
    if hops <= 1 {
        return Err(Reason::HopLimit);
    }
    match domain.forward(node, target) {
        None => Err(Reason::NoRoute),
        Some(_) if refused => Err(Reason::EncapLimit),
        Some(Way::Port(_)) => Err(Reason::IoamOut),
        Some(Way::Link(link)) => {
            if size > domain.link(link).mtu as usize {
                Err(Reason::TooBig)
            } else {
                Ok(link)
            }
        }
    }
}

/// By which port a packet leaves the domain at the node where it came out of its tunnel, or the first
/// of these reasons that holds: `HopLimit`, `NoRoute`. A route to a link is none: packets leave the
/// domain at the exits of their tunnels.
///
/// `hops` is the hop limit that the packet has there, and `target` its own target.
#[tactic(auto, using(crate::proofs::ChoiceLaws::exit_right))]
pub fn exit(domain: &Domain, node: NodeId, hops: u8, target: u128) -> Result<PortId, Reason>
    ensures port { result ≡ exit_choice domain.now node.0 hops target }
    ensures first { MatchResult result (Leaves domain.now node.0 hops target)
        (IsFirst (exit_stops domain.now node.0 hops target)) }
    ensures lowered { IfOk result (λ _. 2 ≤ hops) }
    ensures inside { IfOk result (λ port. port.0 < length (ports domain.now)) }
{
    if hops <= 1 {
        return Err(Reason::HopLimit);
    }
    match domain.forward(node, target) {
        Some(Way::Port(port)) => Ok(port),
        Some(Way::Link(_)) => Err(Reason::NoRoute),
        None => Err(Reason::NoRoute),
    }
}
