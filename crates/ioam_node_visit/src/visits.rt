//! The visits of a packet: at the entry of its tunnel, on the way, and at its exit.
ghost use Rattle.std.specs.Prelude.{◌≡◌, ◌↔◌, ◌+◌, ◌-◌, ◌<◌, ◌≤◌, ◌^◌, ◌∷◌, [], ◌++◌, ℕ, List, Option, None, length, slice_index};
ghost use Rattle.ioam_dex.specs.Reads.{records_octets};
ghost use Rattle.ioam_ip.specs.Chain.{IsSound};
ghost use Rattle.ioam_ip.specs.ChainOptions.{CarriesIoam};
ghost use Rattle.ioam_ip.specs.Hop.{hop_stepped, option_count};
ghost use Rattle.ioam_ip.specs.Lowered.{lowered};
ghost use Rattle.ioam_ip.specs.Packet.{IsPacket};
ghost use Rattle.ioam_topo.specs.Domain.{nodes};
ghost use Rattle.ioam_topo.specs.declared.parts.Flow.{Flow};
ghost use Rattle.ioam_tunnel.specs.Wire.{Tunnel, IsTunnel};
ghost use Rattle.ioam_node_visit.specs.Counted.{hop_exports, hop_notes};
ghost use Rattle.ioam_node_visit.specs.Exported.{HasExported};
ghost use Rattle.ioam_node_visit.specs.Exports.{records_of};
ghost use Rattle.ioam_node_visit.specs.FlowExports.{CarriesDirect, HasFlowExports};
ghost use Rattle.ioam_node_visit.specs.Noted.{HasNoted};
ghost use Rattle.ioam_node_visit.specs.Notes.{notes_of};
ghost use Rattle.ioam_node_visit.specs.Step.{node_step};
ghost use Rattle.ioam_node_visit.specs.Stepped.{Stepped};
ghost use Rattle.ioam_node_visit.specs.Visits.{Visited, closed_after, tunnel_records, wire_after};

use crate::room::NodeRoom;
use crate::visit::NodeVisit;
use ioam_clock::Readings;
use ioam_ip::HOP_LIMIT;
use ioam_node::Place;
use ioam_topo::Domain;

/// The visit of the node at which a packet enters its tunnel, at a time in nanoseconds: it adds what it
/// knows to each trace of the outer Hop-by-Hop header whose namespace it knows, and exports what its
/// direct export options ask for. The hop limit stays. Takes no memory.
pub fn begin(
    domain: &Domain,
    readings: &Readings,
    place: Place,
    time: u64,
    packet: &mut [u8],
    room: &mut NodeRoom,
)
    requires node { place.node.0 < length (nodes domain.now) }
    requires time { time < 2 ^ 63 }
    requires packet { IsPacket packet.old }
    requires sound { IsSound packet.old }
    requires room { option_count packet.old ≤ room.old.spare }
    // The packet, the notes and the export records are functions of what comes in.
    ensures steps { let limit = slice_index packet.old 7 in
        packet.new ≡ hop_stepped (node_step domain.now readings.now place time limit) packet.old }
    ensures notes { let limit = slice_index packet.old 7 in
        room.new.notes ≡ room.old.notes ++ hop_notes (notes_of domain.now readings.now place time limit) packet.old }
    ensures exports { let limit = slice_index packet.old 7 in
        room.new.exports ≡ room.old.exports ++ hop_exports (records_of domain.now readings.now place time limit) packet.old }
    ensures spare { room.old.spare ≤ room.new.spare + option_count packet.old }
    ensures given { room.new.spare + length room.new.notes ≡ room.old.spare + length room.old.notes }
    // It takes no memory: that of the notes and of the records has as many places as before.
    ensures capacities { room.new.capacities ≡ room.old.capacities }
    // It stays one packet with a whole chain, carries IOAM as before, and has as many IOAM options.
    ensures packet { IsPacket packet.new }
    ensures sound { IsSound packet.new }
    ensures carries { CarriesIoam packet.old ↔ CarriesIoam packet.new }
    ensures count { option_count packet.new ≡ option_count packet.old }
    ensures hops { slice_index packet.new 7 ≡ slice_index packet.old 7 }
    // The first visit of an enclosed packet.
    ensures wire { (tunnel : Tunnel) → IsTunnel tunnel → packet.old ≡ wire_after domain.now readings.now tunnel []
        → packet.new ≡ wire_after domain.now readings.now tunnel (record { place = place; time = time } ∷ []) }
    ensures exported { (tunnel : Tunnel) → IsTunnel tunnel → packet.old ≡ wire_after domain.now readings.now tunnel []
        → room.new.exports ≡ room.old.exports
        ++ records_octets (tunnel_records domain.now readings.now tunnel 0 (record { place = place; time = time })) }
    // The notes by the octets of the packet's options.
    ensures noted { let limit = slice_index packet.old 7 in
        HasNoted domain.now readings.now place time limit packet.old room.old.notes room.new.notes }
    // The export records by the fields of the packet's direct export options.
    ensures records { let limit = slice_index packet.old 7 in
        HasExported domain.now readings.now place time limit packet.old room.old.exports room.new.exports }
    // Of an enclosed packet by the fields of its flow and its own number.
    ensures flow { (tunnel : Tunnel) (flow : Flow) (number : Option ℕ) → IsTunnel tunnel → CarriesDirect tunnel flow number
        → packet.old ≡ wire_after domain.now readings.now tunnel []
        → HasFlowExports domain.now readings.now place time tunnel.hops flow number room.old.exports room.new.exports }
    // The packet place by place: this is all that may become of it.
    ensures stepped { let hops = slice_index packet.old 7 in
        Stepped domain.now readings.now place time hops hops packet.old packet.new }
    ensures only { let hops = slice_index packet.old 7 in
        (other : List ℕ) → Stepped domain.now readings.now place time hops hops packet.old other → other ≡ packet.new }
{
    let hops = packet[HOP_LIMIT];
    let visit = NodeVisit {
        domain,
        readings,
        place,
        time,
        hops,
    };
    visit.visit_packet(packet, room);
}

/// The visit of a node on the way: it lowers the hop limit, which is 2 or more, and does as `begin` does.
/// What it records is the hop limit with which the packet is sent on. Takes no memory.
pub fn transit(
    domain: &Domain,
    readings: &Readings,
    place: Place,
    time: u64,
    packet: &mut [u8],
    room: &mut NodeRoom,
)
    requires node { place.node.0 < length (nodes domain.now) }
    requires time { time < 2 ^ 63 }
    requires packet { IsPacket packet.old }
    requires sound { IsSound packet.old }
    requires hops { 2 ≤ slice_index packet.old 7 }
    requires room { option_count packet.old ≤ room.old.spare }
    // The packet, the notes and the export records are functions of what comes in.
    ensures steps { let limit = slice_index packet.old 7 - 1 in
        packet.new ≡ hop_stepped (node_step domain.now readings.now place time limit) (lowered 1 packet.old) }
    ensures notes { let limit = slice_index packet.old 7 - 1 in
        room.new.notes ≡ room.old.notes ++ hop_notes (notes_of domain.now readings.now place time limit) packet.old }
    ensures exports { let limit = slice_index packet.old 7 - 1 in
        room.new.exports ≡ room.old.exports ++ hop_exports (records_of domain.now readings.now place time limit) packet.old }
    ensures spare { room.old.spare ≤ room.new.spare + option_count packet.old }
    ensures given { room.new.spare + length room.new.notes ≡ room.old.spare + length room.old.notes }
    // It takes no memory: that of the notes and of the records has as many places as before.
    ensures capacities { room.new.capacities ≡ room.old.capacities }
    // It stays one packet with a whole chain, carries IOAM as before, and has as many IOAM options.
    ensures packet { IsPacket packet.new }
    ensures sound { IsSound packet.new }
    ensures carries { CarriesIoam packet.old ↔ CarriesIoam packet.new }
    ensures count { option_count packet.new ≡ option_count packet.old }
    ensures hops { slice_index packet.new 7 ≡ slice_index packet.old 7 - 1 }
    // One visit more of an enclosed packet.
    ensures wire { (tunnel : Tunnel) (visits : List Visited) → IsTunnel tunnel → 1 ≤ length visits
        → packet.old ≡ wire_after domain.now readings.now tunnel visits
        → packet.new ≡ wire_after domain.now readings.now tunnel (visits ++ record { place = place; time = time } ∷ []) }
    ensures exported { (tunnel : Tunnel) (visits : List Visited) → IsTunnel tunnel → 1 ≤ length visits
        → packet.old ≡ wire_after domain.now readings.now tunnel visits
        → room.new.exports ≡ room.old.exports
        ++ records_octets (tunnel_records domain.now readings.now tunnel (length visits) (record { place = place; time = time })) }
    // The notes by the octets of the packet's options.
    ensures noted { let limit = slice_index packet.old 7 - 1 in
        HasNoted domain.now readings.now place time limit packet.old room.old.notes room.new.notes }
    // The export records by the fields of the packet's direct export options.
    ensures records { let limit = slice_index packet.old 7 - 1 in
        HasExported domain.now readings.now place time limit packet.old room.old.exports room.new.exports }
    // Of an enclosed packet by the fields of its flow and its own number.
    ensures flow { (tunnel : Tunnel) (visits : List Visited) (flow : Flow) (number : Option ℕ) → IsTunnel tunnel → CarriesDirect tunnel flow number → 1 ≤ length visits
        → packet.old ≡ wire_after domain.now readings.now tunnel visits
        → HasFlowExports domain.now readings.now place time (tunnel.hops - length visits) flow number room.old.exports room.new.exports }
    // The packet place by place: this is all that may become of it.
    ensures stepped { let hops = slice_index packet.old 7 - 1 in
        Stepped domain.now readings.now place time hops hops packet.old packet.new }
    ensures only { let hops = slice_index packet.old 7 - 1 in
        (other : List ℕ) → Stepped domain.now readings.now place time hops hops packet.old other → other ≡ packet.new }
{
    let hops = packet[HOP_LIMIT] - 1;
    packet[HOP_LIMIT] = hops;
    let visit = NodeVisit {
        domain,
        readings,
        place,
        time,
        hops,
    };
    visit.visit_packet(packet, room);
}

/// The visit of the node at which a packet leaves its tunnel: it does as `begin` does, and records the
/// hop limit that came, which is 1 or more, less one. The hop limit stays. Takes no memory.
pub fn exit(
    domain: &Domain,
    readings: &Readings,
    place: Place,
    time: u64,
    packet: &mut [u8],
    room: &mut NodeRoom,
)
    requires node { place.node.0 < length (nodes domain.now) }
    requires time { time < 2 ^ 63 }
    requires packet { IsPacket packet.old }
    requires sound { IsSound packet.old }
    requires hops { 1 ≤ slice_index packet.old 7 }
    requires outward { place.outward ≡ None }
    requires room { option_count packet.old ≤ room.old.spare }
    // The packet, the notes and the export records are functions of what comes in.
    ensures steps { let limit = slice_index packet.old 7 - 1 in
        packet.new ≡ hop_stepped (node_step domain.now readings.now place time limit) packet.old }
    ensures notes { let limit = slice_index packet.old 7 - 1 in
        room.new.notes ≡ room.old.notes ++ hop_notes (notes_of domain.now readings.now place time limit) packet.old }
    ensures exports { let limit = slice_index packet.old 7 - 1 in
        room.new.exports ≡ room.old.exports ++ hop_exports (records_of domain.now readings.now place time limit) packet.old }
    ensures spare { room.old.spare ≤ room.new.spare + option_count packet.old }
    ensures given { room.new.spare + length room.new.notes ≡ room.old.spare + length room.old.notes }
    // It takes no memory: that of the notes and of the records has as many places as before.
    ensures capacities { room.new.capacities ≡ room.old.capacities }
    // It stays one packet with a whole chain, carries IOAM as before, and has as many IOAM options.
    ensures packet { IsPacket packet.new }
    ensures sound { IsSound packet.new }
    ensures carries { CarriesIoam packet.old ↔ CarriesIoam packet.new }
    ensures count { option_count packet.new ≡ option_count packet.old }
    ensures hops { slice_index packet.new 7 ≡ slice_index packet.old 7 }
    // The last visit of an enclosed packet.
    ensures closed { (tunnel : Tunnel) (visits : List Visited) → IsTunnel tunnel → 1 ≤ length visits
        → packet.old ≡ wire_after domain.now readings.now tunnel visits
        → packet.new ≡ closed_after domain.now readings.now tunnel visits (record { place = place; time = time }) }
    ensures exported { (tunnel : Tunnel) (visits : List Visited) → IsTunnel tunnel → 1 ≤ length visits
        → packet.old ≡ wire_after domain.now readings.now tunnel visits
        → room.new.exports ≡ room.old.exports
        ++ records_octets (tunnel_records domain.now readings.now tunnel (length visits) (record { place = place; time = time })) }
    // The notes by the octets of the packet's options.
    ensures noted { let limit = slice_index packet.old 7 - 1 in
        HasNoted domain.now readings.now place time limit packet.old room.old.notes room.new.notes }
    // The export records by the fields of the packet's direct export options.
    ensures records { let limit = slice_index packet.old 7 - 1 in
        HasExported domain.now readings.now place time limit packet.old room.old.exports room.new.exports }
    // Of an enclosed packet by the fields of its flow and its own number.
    ensures flow { (tunnel : Tunnel) (visits : List Visited) (flow : Flow) (number : Option ℕ) → IsTunnel tunnel → CarriesDirect tunnel flow number → 1 ≤ length visits
        → packet.old ≡ wire_after domain.now readings.now tunnel visits
        → HasFlowExports domain.now readings.now place time (tunnel.hops - length visits) flow number room.old.exports room.new.exports }
    // The packet place by place: this is all that may become of it.
    ensures stepped { let hops = slice_index packet.old 7 - 1 in
        Stepped domain.now readings.now place time hops (slice_index packet.old 7) packet.old packet.new }
    ensures only { let hops = slice_index packet.old 7 - 1 in
        (other : List ℕ) → Stepped domain.now readings.now place time hops (slice_index packet.old 7) packet.old other → other ≡ packet.new }
{
    let hops = packet[HOP_LIMIT] - 1;
    let visit = NodeVisit {
        domain,
        readings,
        place,
        time,
        hops,
    };
    visit.visit_packet(packet, room);
}
