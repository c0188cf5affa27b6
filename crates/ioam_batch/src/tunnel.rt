//! The visits of an enclosed packet.
ghost use Rattle.std.specs.Prelude.{◌≡◌, ◌<◌, ◌≤◌, ◌+◌, ◌-◌, ◌*◌, ◌++◌, ◌∷◌, [], List, None, false, All, drop, get_or, length, map, slice_index, take};
ghost use Rattle.ioam_batch.specs.Crossings.{taps_of};
ghost use Rattle.ioam_batch.specs.Ran.{Closed, Exited, Sent};
ghost use Rattle.ioam_batch.specs.Taps.{is_tapped};
ghost use Rattle.ioam_ip.specs.Chain.{IsSound};
ghost use Rattle.ioam_ip.specs.Hop.{option_count};
ghost use Rattle.ioam_ip.specs.Packet.{IsPacket};
ghost use Rattle.ioam_plan.specs.Rides.{IsVisitIn, SendsToExit};
ghost use Rattle.ioam_plan.specs.declared.itinerary.Visit.{Visit};
ghost use Rattle.ioam_tunnel.specs.Wire.{IsTunnel, Tunnel};

use crate::crossings::Crossings;
use ioam_clock::Readings;
use ioam_node_visit::NodeRoom;
use ioam_plan::Visit;
use ioam_topo::Domain;

// The visit of the node at which a packet enters its tunnel.
fn begin(
    domain: &Domain,
    readings: &Readings,
    visit: &Visit,
    packet: &mut [u8],
    crossings: &mut Crossings,
    room: &mut NodeRoom,
)
    requires visit { IsVisitIn domain.now visit.now }
    requires packet { IsPacket packet.old }
    requires sound { IsSound packet.old }
    requires room { option_count packet.old ≤ room.old.spare }
    requires left { 0 < length crossings.old.ahead }
    requires tap { get_or crossings.old.ahead 0 false ≡ is_tapped domain.now visit.now }
    requires size { length packet.old ≡ crossings.old.size }
    ensures packet { IsPacket packet.new }
    ensures sound { IsSound packet.new }
    ensures count { option_count packet.new ≡ option_count packet.old }
    ensures hops { slice_index packet.new 7 ≡ slice_index packet.old 7 }
    ensures spare { room.old.spare ≤ room.new.spare + option_count packet.old }
    ensures given { room.new.spare + length room.new.notes ≡ room.old.spare + length room.old.notes }
    ensures memory { room.new.capacities ≡ room.old.capacities }
    ensures ahead { crossings.new.ahead ≡ drop 1 crossings.old.ahead }
    ensures size { crossings.new.size ≡ crossings.old.size }
    ensures capacities { crossings.new.capacities ≡ crossings.old.capacities }
    ensures taps { taps_of crossings.new ≡ taps_of crossings.old }
    ensures sent { (tunnel : Tunnel) → IsTunnel tunnel
        → Sent domain.now readings.now tunnel [] packet.old crossings.old.past room.old
        → Sent domain.now readings.now tunnel (visit.now ∷ []) packet.new crossings.new.past room.new }
{
    ioam_node_visit::begin(domain, readings, visit.place, visit.time, packet, room);
    crossings.cross(packet);
}

// The visit of a node on the way.
fn transit(
    domain: &Domain,
    readings: &Readings,
    visit: &Visit,
    packet: &mut [u8],
    crossings: &mut Crossings,
    room: &mut NodeRoom,
)
    requires visit { IsVisitIn domain.now visit.now }
    requires packet { IsPacket packet.old }
    requires sound { IsSound packet.old }
    requires hops { 2 ≤ slice_index packet.old 7 }
    requires room { option_count packet.old ≤ room.old.spare }
    requires left { 0 < length crossings.old.ahead }
    requires tap { get_or crossings.old.ahead 0 false ≡ is_tapped domain.now visit.now }
    requires size { length packet.old ≡ crossings.old.size }
    ensures packet { IsPacket packet.new }
    ensures sound { IsSound packet.new }
    ensures count { option_count packet.new ≡ option_count packet.old }
    ensures hops { slice_index packet.new 7 ≡ slice_index packet.old 7 - 1 }
    ensures spare { room.old.spare ≤ room.new.spare + option_count packet.old }
    ensures given { room.new.spare + length room.new.notes ≡ room.old.spare + length room.old.notes }
    ensures memory { room.new.capacities ≡ room.old.capacities }
    ensures ahead { crossings.new.ahead ≡ drop 1 crossings.old.ahead }
    ensures size { crossings.new.size ≡ crossings.old.size }
    ensures capacities { crossings.new.capacities ≡ crossings.old.capacities }
    ensures taps { taps_of crossings.new ≡ taps_of crossings.old }
    ensures sent { (tunnel : Tunnel) (visits : List Visit) → IsTunnel tunnel → 1 ≤ length visits
        → Sent domain.now readings.now tunnel visits packet.old crossings.old.past room.old
        → Sent domain.now readings.now tunnel (visits ++ visit.now ∷ []) packet.new crossings.new.past room.new }
{
    ioam_node_visit::transit(domain, readings, visit.place, visit.time, packet, room);
    crossings.cross(packet);
}

// The visit of the node at which it leaves its tunnel.
fn exit(
    domain: &Domain,
    readings: &Readings,
    visit: &Visit,
    packet: &mut [u8],
    crossings: &mut Crossings,
    room: &mut NodeRoom,
)
    requires visit { IsVisitIn domain.now visit.now }
    requires stays { visit.now.way ≡ None }
    requires packet { IsPacket packet.old }
    requires sound { IsSound packet.old }
    requires hops { 1 ≤ slice_index packet.old 7 }
    requires room { option_count packet.old ≤ room.old.spare }
    requires left { 0 < length crossings.old.ahead }
    requires tap { get_or crossings.old.ahead 0 false ≡ is_tapped domain.now visit.now }
    requires size { length packet.old ≡ crossings.old.size }
    ensures packet { IsPacket packet.new }
    ensures sound { IsSound packet.new }
    ensures given { room.new.spare + length room.new.notes ≡ room.old.spare + length room.old.notes }
    ensures memory { room.new.capacities ≡ room.old.capacities }
    ensures ahead { crossings.new.ahead ≡ drop 1 crossings.old.ahead }
    ensures size { crossings.new.size ≡ crossings.old.size }
    ensures capacities { crossings.new.capacities ≡ crossings.old.capacities }
    ensures taps { taps_of crossings.new ≡ taps_of crossings.old }
    ensures closed { (tunnel : Tunnel) (visits : List Visit) → IsTunnel tunnel → 1 ≤ length visits
        → Sent domain.now readings.now tunnel visits packet.old crossings.old.past room.old
        → Closed domain.now readings.now tunnel visits visit.now packet.new crossings.new.past room.new }
{
    ioam_node_visit::exit(domain, readings, visit.place, visit.time, packet, room);
    crossings.cross(packet);
}

/// The first of these visits, so many, at each of which the packet is sent on.
pub(crate) fn send(
    domain: &Domain,
    readings: &Readings,
    visits: &[Visit],
    count: usize,
    packet: &mut [u8],
    crossings: &mut Crossings,
    room: &mut NodeRoom,
)
    requires some { 1 ≤ count }
    requires count { count ≤ length visits.now }
    requires visits { All (IsVisitIn domain.now) visits.now }
    requires packet { IsPacket packet.old }
    requires sound { IsSound packet.old }
    requires hops { count ≤ slice_index packet.old 7 }
    requires room { count * option_count packet.old ≤ room.old.spare }
    requires ahead { crossings.old.ahead ≡ map (is_tapped domain.now) visits.now }
    requires size { length packet.old ≡ crossings.old.size }
    ensures packet { IsPacket packet.new }
    ensures sound { IsSound packet.new }
    ensures count { option_count packet.new ≡ option_count packet.old }
    ensures hops { 1 ≤ slice_index packet.new 7 }
    ensures spare { room.old.spare ≤ room.new.spare + count * option_count packet.old }
    ensures given { room.new.spare + length room.new.notes ≡ room.old.spare + length room.old.notes }
    ensures memory { room.new.capacities ≡ room.old.capacities }
    ensures ahead { crossings.new.ahead ≡ drop count (map (is_tapped domain.now) visits.now) }
    ensures size { crossings.new.size ≡ crossings.old.size }
    ensures capacities { crossings.new.capacities ≡ crossings.old.capacities }
    ensures taps { taps_of crossings.new ≡ taps_of crossings.old }
    ensures sent { (tunnel : Tunnel) → IsTunnel tunnel
        → Sent domain.now readings.now tunnel [] packet.old crossings.old.past room.old
        → Sent domain.now readings.now tunnel (take count visits.now) packet.new crossings.new.past room.new }
{
    begin(domain, readings, &visits[0], packet, crossings, room);
    for i in 1..count {
        transit(domain, readings, &visits[i], packet, crossings, room);
    }
}

/// These visits, of which the last is that of the packet's exit.
pub(crate) fn send_out(
    domain: &Domain,
    readings: &Readings,
    visits: &[Visit],
    packet: &mut [u8],
    crossings: &mut Crossings,
    room: &mut NodeRoom,
)
    requires sends { SendsToExit visits.now }
    requires visits { All (IsVisitIn domain.now) visits.now }
    requires packet { IsPacket packet.old }
    requires sound { IsSound packet.old }
    requires hops { length visits.now ≤ slice_index packet.old 7 + 1 }
    requires room { length visits.now * option_count packet.old ≤ room.old.spare }
    requires ahead { crossings.old.ahead ≡ map (is_tapped domain.now) visits.now }
    requires size { length packet.old ≡ crossings.old.size }
    ensures packet { IsPacket packet.new }
    ensures sound { IsSound packet.new }
    ensures given { room.new.spare + length room.new.notes ≡ room.old.spare + length room.old.notes }
    ensures memory { room.new.capacities ≡ room.old.capacities }
    ensures ahead { crossings.new.ahead ≡ [] }
    ensures size { crossings.new.size ≡ crossings.old.size }
    ensures capacities { crossings.new.capacities ≡ crossings.old.capacities }
    ensures taps { taps_of crossings.new ≡ taps_of crossings.old }
    ensures exited { (tunnel : Tunnel) → IsTunnel tunnel
        → Sent domain.now readings.now tunnel [] packet.old crossings.old.past room.old
        → Exited domain.now readings.now tunnel visits.now packet.new crossings.new.past room.new }
{
    let last = visits.len() - 1;
    send(domain, readings, visits, last, packet, crossings, room);
    exit(domain, readings, &visits[last], packet, crossings, room);
}
