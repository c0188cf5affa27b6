//! Whether a packet that arrives at a port is taken in.
ghost use Rattle.std.specs.Prelude.{◌<◌, IsSomeAnd, length, slice_get};
ghost use Rattle.ioam_ip.specs.ChainOptions.{LimitOf};
ghost use Rattle.ioam_ip.specs.Framing.{framing_of};
ghost use Rattle.ioam_ip.specs.Layer.{layer_of};
ghost use Rattle.ioam_ip.specs.Packet.{IsPacket};
ghost use Rattle.ioam_topo.specs.Domain.{ports};
ghost use Rattle.ioam_node.specs.Admission.{Admits, AdmitsPacket, HoldsPacket, IsFree, KnowsFlow};

use crate::answer::Admit;
use crate::reason::{Reason, packet_or_reason};
use ioam_ip::{Header, Layer, Walk, header, packet_in_layer, walk};
use ioam_topo::{Domain, NodeId, PortId};

/// What becomes of a frame that arrives at a port of the domain: its packet, without what follows
/// it in the frame, or the first of these reasons that holds: `NotIpv6`, `Cut`, `Length`, `Chain`,
/// `IoamIn`, `Local`, `HopLimit`. Takes no memory.
///
/// The frame begins with an Ethernet header if `ethernet`, else with an IP header; `cut` says that
/// fewer octets were captured than the frame had. The packet is enclosed in the first flow, in file
/// order, whose entry is the port's node and whose source and target prefixes match.
pub fn admit<'a>(
    domain: &Domain,
    port: PortId,
    ethernet: bool,
    cut: bool,
    frame: &'a [u8],
) -> Admit<'a>
    requires { port.0 < length (ports domain.now) }
    ensures admits { IsSomeAnd (slice_get (ports domain.now) port.0)
        (λ at. Admits domain.now at.node.0 (framing_of (layer_of ethernet) cut frame.now) result) }
    ensures packet { HoldsPacket result }
    ensures known { KnowsFlow domain.now result }
{
    admit_in_layer(domain, port, Layer::of(ethernet), cut, frame)
}

/// `admit` of a frame that begins at `layer`.
pub fn admit_in_layer<'a>(
    domain: &Domain,
    port: PortId,
    layer: Layer,
    cut: bool,
    frame: &'a [u8],
) -> Admit<'a>
    requires { port.0 < length (ports domain.now) }
    ensures admits { IsSomeAnd (slice_get (ports domain.now) port.0)
        (λ at. Admits domain.now at.node.0 (framing_of layer cut frame.now) result) }
    ensures packet { HoldsPacket result }
    ensures known { KnowsFlow domain.now result }
{
    let at = domain.port(port);
    admit_at(domain, at.node, layer, cut, frame)
}

// What becomes of a frame at a node.
fn admit_at<'a>(
    domain: &Domain,
    node: NodeId,
    layer: Layer,
    cut: bool,
    frame: &'a [u8],
) -> Admit<'a>
    ensures admits { Admits domain.now node.0 (framing_of layer cut frame.now) result }
    ensures packet { HoldsPacket result }
    ensures known { KnowsFlow domain.now result }
{
    match packet_or_reason(packet_in_layer(layer, cut, frame)) {
        Ok(packet) => admit_packet(domain, node, packet),
        Err(reason) => Admit::Drop(reason),
    }
}

// What becomes of a packet at a node.
fn admit_packet<'a>(domain: &Domain, node: NodeId, packet: &'a [u8]) -> Admit<'a>
    requires { IsPacket packet.now }
    ensures admits { AdmitsPacket domain.now node.0 packet.now result }
    ensures packet { HoldsPacket result }
    ensures known { KnowsFlow domain.now result }
{
    match walk(packet) {
        Walk::Bad { .. } => Admit::Drop(Reason::Chain),
        Walk::Whole { ioam: true, .. } => Admit::Drop(Reason::IoamIn),
        Walk::Whole {
            ioam: false,
            limit,
            ..
        } => {
            let Some(header) = header(packet) else {
                unreachable!()
            };
            admit_free(domain, node, packet, &header, limit)
        }
    }
}

// What becomes of a packet whose chain is whole and has no IOAM option.
fn admit_free<'a>(
    domain: &Domain,
    node: NodeId,
    packet: &'a [u8],
    header: &Header,
    limit: Option<u8>,
) -> Admit<'a>
    requires packet { IsPacket packet.now }
    requires is_free { IsFree packet.now header.now }
    requires limit { LimitOf packet.now limit }
    ensures admits { AdmitsPacket domain.now node.0 packet.now result }
    ensures packet { HoldsPacket result }
    ensures known { KnowsFlow domain.now result }
{
    if domain.is_local(header.target) {
        return Admit::Drop(Reason::Local);
    }
    if header.hops <= 1 {
        return Admit::Drop(Reason::HopLimit);
    }
    match domain.flow_at(node, header) {
        Some(flow) => Admit::Enclose {
            flow,
            packet,
            limit,
        },
        None => Admit::Plain { packet },
    }
}
