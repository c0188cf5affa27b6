//! A packet put into a tunnel.
ghost use Rattle.std.specs.Prelude.{◌≡◌, ◌+◌, ◌-◌, ◌<◌, ◌≤◌, ◌==◌, IfSome, is_some, if◌then◌else◌, [], ◌∷◌, ◌++◌, length, slice_get, slice_index, IfOk};
ghost use Rattle.ioam_ip.specs.Packet.{IsPacket};
ghost use Rattle.ioam_ip.specs.Chain.{IsSound};
ghost use Rattle.ioam_ip.specs.Hop.{HopFits};
ghost use Rattle.ioam_topo.specs.Domain.{flows, nodes};
ghost use Rattle.ioam_topo.specs.Sound.{IsFlow};
ghost use Rattle.ioam_tunnel.specs.Enclosed.{MayEnclose, tunnel_between, tunnel_of, address_at};
ghost use Rattle.ioam_tunnel.specs.Size.{outer_size};
ghost use Rattle.ioam_tunnel.specs.Wire.{IsTunnel, no_elements, wire, outer_start, addresses};

use crate::laying::{lay_hop, lay_targets};
use crate::numbers::Numbers;
use crate::outer::Outer;
use crate::sizes::{hop_size, target_size};
use ioam_base::memory::NoMemory;
use ioam_ip::next_header::{DESTINATION, HOP_BY_HOP, IPV6};
use ioam_ip::{HEADER_OCTETS, Header, class_of, put_header};
use ioam_topo::{Domain, Flow, FlowId};
use std::alloc::Global;

// The value in front of a header of a size, which is absent where that is 0.
fn value_in_front(value: u8, size: usize, next: u8) -> u8
    ensures { result ≡ (if size == 0 then next else value) }
{
    if size == 0 { next } else { value }
}

// The addresses of a tunnel's ends.
#[derive(Clone, Copy)]
struct Ends {
    source: u128,
    target: u128,
}

// What an outer header has besides its flow's label and its addresses.
#[derive(Clone, Copy)]
struct Fields {
    class: u8,
    payload: u16,
    next: u8,
    hops: u8,
}

// The outer header.
fn head_of(flow: &Flow, ends: Ends, fields: Fields) -> [u8; HEADER_OCTETS]
    requires { IsFlow flow.now }
    ensures octets { result ≡ outer_start fields.class flow.now.label fields.payload fields.next fields.hops ++ addresses ends.source ends.target }
    ensures hops { fields.hops < 256 }
{
    let mut head = [0; HEADER_OCTETS];
    let header = Header {
        class: fields.class,
        label: flow.label,
        payload: fields.payload,
        next: fields.next,
        hops: fields.hops,
        source: ends.source,
        target: ends.target,
    };
    put_header(&mut head, &header);
    head
}

// A packet of a flow put into the tunnel between two addresses, in the memory of a spare vector where
// that has the room.
fn enclose_between(
    alloc: Global,
    spare: Vec<u8>,
    flow: &Flow,
    ends: Ends,
    numbers: &Numbers,
    packet: &[u8],
) -> Result<Vec<u8>, NoMemory>
    requires flow { IsFlow flow.now }
    requires packet { IsPacket packet.now }
    requires hops { 2 ≤ slice_index packet.now 7 }
    requires may { MayEnclose flow.now numbers.now packet.now }
    ensures wire { IfOk result (λ out. out.items ≡ wire (tunnel_between ends.source ends.target flow.now numbers.now packet.now) 0 no_elements) }
    ensures size { IfOk result (λ out. length out.items ≡ outer_size flow.now (length packet.now) (is_some numbers.now.direct) (is_some numbers.now.limit)) }
    ensures tunnel { IfOk result (λ out. IsTunnel (tunnel_between ends.source ends.target flow.now numbers.now packet.now)) }
{
    let hop = hop_size(flow, numbers.direct.is_some());
    let targets = target_size(flow.edge, numbers.limit.is_some());
    let next = value_in_front(DESTINATION, targets, IPV6);
    let behind = hop + targets + packet.len();
    let fields = Fields {
        class: class_of(packet),
        payload: behind as u16,
        next: value_in_front(HOP_BY_HOP, hop, next),
        hops: flow.hops,
    };
    let head = head_of(flow, ends, fields);
    let mut outer = Outer::new(alloc, spare, &head, hop + targets, packet.len())?;
    lay_hop(&mut outer, next, flow, numbers.direct);
    lay_targets(&mut outer, flow, numbers);
    let out = outer.carry(packet)?;
    Ok(out)
}

/// Puts a packet of a flow into the flow's tunnel: the outer packet before any visit, with an IPv6
/// header, a Hop-by-Hop Options header with the flow's traces, without elements, and direct export
/// data, a Destination Options header with the encapsulation limit and edge-to-edge data, each
/// where it has an option, and the packet with its hop limit one less.
///
/// It stands in the memory of a spare vector where that has the room; else that is handed back.
pub fn enclose_in(
    alloc: Global,
    spare: Vec<u8>,
    domain: &Domain,
    flow: FlowId,
    numbers: &Numbers,
    packet: &[u8],
) -> Result<Vec<u8>, NoMemory>
    requires known { flow.0 < length (flows domain.now) }
    requires packet { IsPacket packet.now }
    requires hops { 2 ≤ slice_index packet.now 7 }
    requires may { IfSome (slice_get (flows domain.now) flow.0) (λ f. MayEnclose f numbers.now packet.now) }
    ensures wire { IfOk result (λ out. out.items ≡ wire (tunnel_of domain.now flow numbers.now packet.now) 0 no_elements) }
    ensures size { IfOk result (λ out. IfSome (slice_get (flows domain.now) flow.0)
        (λ f. length out.items ≡ outer_size f (length packet.now) (is_some numbers.now.direct) (is_some numbers.now.limit))) }
    ensures tunnel { IfOk result (λ out. IsTunnel (tunnel_of domain.now flow numbers.now packet.now)) }
    ensures packet { IfOk result (λ out. IsPacket out.items) }
    ensures sound { IfOk result (λ out. IsSound packet.now → IsSound out.items) }
    ensures fits { IfOk result (λ out. HopFits out.items) }
{
    let found = domain.flow(flow);
    let entry = domain.node(found.entry);
    let exit = domain.node(found.exit);
    let ends = Ends {
        source: entry.address,
        target: exit.address,
    };
    let out = enclose_between(alloc, spare, found, ends, numbers, packet)?;
    Ok(out)
}

/// Puts a packet of a flow into the flow's tunnel as [`enclose_in`] does, in memory of its own.
pub fn enclose(
    alloc: Global,
    domain: &Domain,
    flow: FlowId,
    numbers: &Numbers,
    packet: &[u8],
) -> Result<Vec<u8>, NoMemory>
    requires known { flow.0 < length (flows domain.now) }
    requires packet { IsPacket packet.now }
    requires hops { 2 ≤ slice_index packet.now 7 }
    requires may { IfSome (slice_get (flows domain.now) flow.0) (λ f. MayEnclose f numbers.now packet.now) }
    ensures wire { IfOk result (λ out. out.items ≡ wire (tunnel_of domain.now flow numbers.now packet.now) 0 no_elements) }
    ensures size { IfOk result (λ out. IfSome (slice_get (flows domain.now) flow.0)
        (λ f. length out.items ≡ outer_size f (length packet.now) (is_some numbers.now.direct) (is_some numbers.now.limit))) }
    ensures tunnel { IfOk result (λ out. IsTunnel (tunnel_of domain.now flow numbers.now packet.now)) }
    ensures packet { IfOk result (λ out. IsPacket out.items) }
    ensures sound { IfOk result (λ out. IsSound packet.now → IsSound out.items) }
    ensures fits { IfOk result (λ out. HopFits out.items) }
{
    enclose_in(alloc, Vec::new(alloc), domain, flow, numbers, packet)
}
