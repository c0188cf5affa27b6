//! The journey of a frame that arrives at a port, planned before it moves.
ghost use Rattle.std.specs.Prelude.{◌≡◌, ◌≤◌, ◌<◌, ◌^◌, ◌∷◌, ◌++◌, [], List, All, IfOk, IfErr, length, slice_get, Some, IsSomeAnd};
ghost use Rattle.ioam_ip.specs.Header.{HasFields};
ghost use Rattle.ioam_ip.specs.Chain.{IsSound};
ghost use Rattle.ioam_ip.specs.Packet.{IsPacket};
ghost use Rattle.ioam_node.specs.Admission.{HoldsPacket, KnowsFlow, packet_of};
ghost use Rattle.ioam_topo.specs.Domain.{nodes, ports, flows};
ghost use Rattle.ioam_topo.specs.Kept.{IsAtNode};
ghost use Rattle.ioam_topo.specs.Sound.{IsFlow};
ghost use Rattle.ioam_plan.specs.Counted.{CountFor};
ghost use Rattle.ioam_plan.specs.Inside.{StaysInside};
ghost use Rattle.ioam_plan.specs.Rides.{Rides};
ghost use Rattle.ioam_plan.specs.declared.itinerary.Itinerary.{Itinerary};
ghost use Rattle.ioam_clock.specs.declared.sample.Sample.{Sample};
ghost use Rattle.ioam_plan.specs.Plans.{Plans, PlansBy, PlansPacket, PlansFlow, PlansDrop, start_of, flow_trip, entry_of};
ghost use Rattle.ioam_plan.specs.Travels.{Travels};

use crate::arrival::Arrival;
use crate::counters::Counters;
use crate::drawing::{is_refused, numbers_of};
use crate::itinerary::{End, Itinerary, Visits};
use crate::planning::travel;
use crate::stage::{Entry, Inside, JourneySpot, Stage, Trip};
use ioam_base::memory::NoMemory;
use ioam_clock::Readings;
use ioam_ip::{Header, header};
use ioam_node::{Admit, Reason};
use ioam_topo::{Domain, Flow, FlowId, Port, PortId};
use ioam_tunnel::{Numbers, outer_size};
use std::alloc::Global;

/// What becomes of a frame that arrives at a port at a time (nanoseconds, below 2^62), by what
/// [`ioam_node::admit`] answered of it: the visits of its packet, how its journey ends, and what the
/// entry node writes where it is enclosed (RFC 2473 section 3, RFC 9197 section 4.6, RFC 9326 section
/// 3.2). There are at most 256 visits, since each but the entry's and the exit's lowers a hop limit
/// (RFC 8200 section 3), all at nodes of the domain.
///
/// The readings and the counters are those of the domain. The counters stand for the arrivals before,
/// of which fewer than 2^32 were enclosed in any flow, and then for this one too. A packet that is
/// dropped where it arrives takes no number. Without memory they are as before.
///
/// The visits stand in the memory of spare ones where that has the room; else that is handed back.
pub fn plan_in(
    alloc: Global,
    spare: Visits,
    domain: &Domain,
    readings: &Readings,
    counters: &mut Counters,
    port: PortId,
    time: u64,
    admitted: &Admit<'_>,
) -> Result<Itinerary, NoMemory>
    requires port { port.0 < length (ports domain.now) }
    requires time { time < 2 ^ 62 }
    requires packet { HoldsPacket admitted.now }
    requires flow { KnowsFlow domain.now admitted.now }
    requires counters { length counters.old ≡ length (flows domain.now) }
    requires few { All (λ number. number < 2 ^ 32) counters.old }
    ensures plans { (earlier : List Itinerary) → CountFor domain.now counters.old earlier
        → IfOk result (Plans domain.now readings.now earlier port time admitted.now) }
    // Nothing else is planned for it.
    ensures only { (earlier : List Itinerary) (other : Itinerary) → CountFor domain.now counters.old earlier
        → Plans domain.now readings.now earlier port time admitted.now other → IfOk result (λ it. it ≡ other) }
    // Its packet goes from node to node by the rules of the standards.
    ensures travels { (earlier : List Itinerary) → CountFor domain.now counters.old earlier
        → IfOk result (Travels domain.now readings.now earlier port time admitted.now) }
    ensures counted { (earlier : List Itinerary) → CountFor domain.now counters.old earlier
        → IfOk result (λ it. CountFor domain.now counters.new (earlier ++ it ∷ [])) }
    ensures length { length counters.new ≡ length counters.old }
    ensures as_before { IfErr result (λ _. counters.new ≡ counters.old) }
    ensures rides { IfOk result (Rides domain.now (packet_of admitted.now)) }
    ensures inside { IfOk result (StaysInside domain.now) }
{
    let at = port_of(domain, port);
    let arrival = Arrival {
        domain,
        readings,
        id: port,
        port: at,
        time,
    };
    match arrival.plan_by(alloc, spare, counters, admitted) {
        Ok(itinerary) => {
            counters.note(&itinerary);
            Ok(itinerary)
        }
        Err(NoMemory) => Err(NoMemory),
    }
}

/// What becomes of a frame that arrives at a port at a time, as [`plan_in`] says it, in memory of its own.
pub fn plan(
    alloc: Global,
    domain: &Domain,
    readings: &Readings,
    counters: &mut Counters,
    port: PortId,
    time: u64,
    admitted: &Admit<'_>,
) -> Result<Itinerary, NoMemory>
    requires port { port.0 < length (ports domain.now) }
    requires time { time < 2 ^ 62 }
    requires packet { HoldsPacket admitted.now }
    requires flow { KnowsFlow domain.now admitted.now }
    requires counters { length counters.old ≡ length (flows domain.now) }
    requires few { All (λ number. number < 2 ^ 32) counters.old }
    ensures plans { (earlier : List Itinerary) → CountFor domain.now counters.old earlier
        → IfOk result (Plans domain.now readings.now earlier port time admitted.now) }
    // Nothing else is planned for it.
    ensures only { (earlier : List Itinerary) (other : Itinerary) → CountFor domain.now counters.old earlier
        → Plans domain.now readings.now earlier port time admitted.now other → IfOk result (λ it. it ≡ other) }
    // Its packet goes from node to node by the rules of the standards.
    ensures travels { (earlier : List Itinerary) → CountFor domain.now counters.old earlier
        → IfOk result (Travels domain.now readings.now earlier port time admitted.now) }
    ensures counted { (earlier : List Itinerary) → CountFor domain.now counters.old earlier
        → IfOk result (λ it. CountFor domain.now counters.new (earlier ++ it ∷ [])) }
    ensures length { length counters.new ≡ length counters.old }
    ensures as_before { IfErr result (λ _. counters.new ≡ counters.old) }
    ensures rides { IfOk result (Rides domain.now (packet_of admitted.now)) }
    ensures inside { IfOk result (StaysInside domain.now) }
{
    let spare = Visits::none(alloc);
    plan_in(
        alloc, spare, domain, readings, counters, port, time, admitted,
    )
}

// The port of a place in the file.
fn port_of(domain: &Domain, port: PortId) -> &Port
    requires { port.0 < length (ports domain.now) }
    ensures value { slice_get (ports domain.now) port.0 ≡ Some result.now }
    ensures place { IsAtNode (length (nodes domain.now)) result.now }
{
    domain.port(port)
}

// The flow of a place in the file.
fn flow_of(domain: &Domain, flow: FlowId) -> &Flow
    requires { flow.0 < length (flows domain.now) }
    ensures value { slice_get (flows domain.now) flow.0 ≡ Some result.now }
    ensures exit { result.now.exit.0 < length (nodes domain.now) }
    ensures sound { IsFlow result.now }
{
    domain.flow(flow)
}

// The header of a packet.
fn header_of(packet: &[u8]) -> Header
    requires { IsPacket packet.now }
    ensures fields { HasFields packet.now result }
    ensures short { length packet.now ≤ 65575 }
    ensures hops { result.hops < 256 }
{
    match header(packet) {
        Some(header) => header,
        None => unreachable!(),
    }
}

// What nodes go by on the way of a packet that is to be enclosed in a flow.
fn flow_trip(
    domain: &Domain,
    id: FlowId,
    flow: &Flow,
    numbers: Numbers,
    header: &Header,
    packet: &[u8],
) -> Trip
    requires flow { IsFlow flow.now }
    requires exit { flow.now.exit.0 < length (nodes domain.now) }
    requires packet { length packet.now ≤ 65575 }
    ensures { result ≡ flow_trip domain.now id flow.now numbers header.now.target header.now.hops packet.now }
{
    let has_direct = numbers.direct.is_some();
    let has_limit = numbers.limit.is_some();
    let inside = Inside {
        flow: id,
        numbers,
        exit: flow.exit,
        target: header.target,
        hops: header.hops.saturating_sub(1),
    };
    Trip {
        target: domain.node(flow.exit).address,
        size: outer_size(flow, packet.len(), has_direct, has_limit),
        inside: Some(inside),
    }
}

// What is to be known where a packet enters a flow's tunnel.
fn entry_of(flow: &Flow, found: Option<u8>) -> Entry
    ensures entry { result ≡ entry_of flow.now found }
    ensures hops { result.hops < 256 }
{
    Entry::new(flow.hops, is_refused(flow, found))
}

impl Arrival<'_> {
    // What becomes of the frame.
    fn plan_by(
        &self,
        alloc: Global,
        spare: Visits,
        counters: &Counters,
        admitted: &Admit<'_>,
    ) -> Result<Itinerary, NoMemory>
        requires packet { HoldsPacket admitted.now }
        requires flow { KnowsFlow self.now.domain.now admitted.now }
        requires counters { length counters.now ≡ length (flows self.now.domain.now) }
        requires few { All (λ number. number < 2 ^ 32) counters.now }
        ensures port { IfOk result (λ it. it.port ≡ self.now.id) }
        ensures plans { (earlier : List Itinerary) → CountFor self.now.domain.now counters.now earlier → IfOk result
            (λ it. PlansBy self.now.domain.now self.now.readings.now earlier self.now.time it admitted.now self.now.port.now) }
        ensures rides { IfOk result (Rides self.now.domain.now (packet_of admitted.now)) }
    {
        match admitted {
            Admit::Plain { packet } => self.plan_packet(alloc, spare, packet),
            Admit::Drop(reason) => Ok(self.dropped(spare, *reason)),
            Admit::Enclose {
                flow,
                packet,
                limit,
            } => {
                let number = counters.enclosed(*flow);
                self.plan_flow(alloc, spare, number, *flow, packet, *limit)
            }
        }
    }

    // Where a packet is as it arrives.
    fn start_of(&self, header: &Header) -> JourneySpot
        ensures { result ≡ start_of self.now.port.now self.now.time header.now.hops }
    {
        JourneySpot {
            node: self.port.node,
            inward: self.port.id,
            time: self.time,
            hops: header.hops,
        }
    }

    // The journey of a packet from its port on.
    fn plan_packet(
        &self,
        alloc: Global,
        spare: Visits,
        packet: &[u8],
    ) -> Result<Itinerary, NoMemory>
        requires packet { IsPacket packet.now }
        ensures port { IfOk result (λ it. it.port ≡ self.now.id) }
        ensures plans { IfOk result (PlansPacket self.now.domain.now self.now.port.now self.now.time packet.now) }
        ensures rides { IfOk result (Rides self.now.domain.now packet.now) }
    {
        let header = header_of(packet);
        let trip = Trip {
            target: header.target,
            size: packet.len(),
            inside: None,
        };
        let start = Stage::At(self.start_of(&header));
        match travel(alloc, spare, self.domain, self.id, &trip, start) {
            Ok(itinerary) => Ok(itinerary),
            Err(NoMemory) => Err(NoMemory),
        }
    }

    // The journey of a packet that is to be enclosed in a flow, from its port on.
    fn plan_flow(
        &self,
        alloc: Global,
        spare: Visits,
        number: u64,
        id: FlowId,
        packet: &[u8],
        found: Option<u8>,
    ) -> Result<Itinerary, NoMemory>
        requires number { number < 2 ^ 32 }
        requires known { id.0 < length (flows self.now.domain.now) }
        requires packet { IsPacket packet.now }
        requires sound { IsSound packet.now }
        ensures port { IfOk result (λ it. it.port ≡ self.now.id) }
        ensures plans { IfOk result (λ it. IsSomeAnd (slice_get (flows self.now.domain.now) id.0) (λ flow.
            PlansFlow self.now.domain.now self.now.readings.now number self.now.port.now self.now.time id flow packet.now found it)) }
        ensures rides { IfOk result (Rides self.now.domain.now packet.now) }
    {
        let flow = flow_of(self.domain, id);
        let header = header_of(packet);
        let numbers = numbers_of(self.domain, self.readings, flow, number, found, self.time);
        let trip = flow_trip(self.domain, id, flow, numbers, &header, packet);
        let start = Stage::Enter(self.start_of(&header), entry_of(flow, found));
        match travel(alloc, spare, self.domain, self.id, &trip, start) {
            Ok(itinerary) => Ok(itinerary),
            Err(NoMemory) => Err(NoMemory),
        }
    }

    // A frame that is dropped where it arrives.
    fn dropped(&self, spare: Visits, reason: Reason) -> Itinerary
        ensures port { result.port ≡ self.now.id }
        ensures plans { PlansDrop self.now.port.now reason result }
        ensures rides { Rides self.now.domain.now [] result }
    {
        let end = End::Drop {
            reason,
            node: self.port.node,
        };
        Itinerary::of(self.id, spare.cleared(), end, false, None)
    }
}
