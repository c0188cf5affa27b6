//! The packet of a job before its visits, and room for what they note.
ghost use Rattle.std.specs.Prelude.{◌≡◌, ◌≤◌, [], IfOk, IsSome, length};
ghost use Rattle.ioam_batch.specs.Jobs.{GoesBy, GoesInTunnel, HoldsBy, spare_by};
ghost use Rattle.ioam_ip.specs.Hop.{option_count};
ghost use Rattle.ioam_plan.specs.Rides.{Rides, RidesTunnel};
ghost use Rattle.ioam_tunnel.specs.Enclosed.{tunnel_of};
ghost use Rattle.ioam_tunnel.specs.Wire.{IsTunnel, no_elements, wire};

use ioam_base::memory::NoMemory;
use ioam_base::spare::copied_in;
use ioam_node_visit::{NodeRoom, option_count};
use ioam_plan::Itinerary;
use ioam_topo::{Domain, FlowId};
use ioam_tunnel::{Numbers, enclose_in};
use std::alloc::Global;

// The outer packet around a packet that goes by an itinerary.
fn enclosed(
    alloc: Global,
    spare: Vec<u8>,
    domain: &Domain,
    itinerary: &Itinerary,
    flow: FlowId,
    numbers: &Numbers,
    packet: &[u8],
) -> Result<Vec<u8>, NoMemory>
    requires { RidesTunnel domain.now packet.now flow numbers.now itinerary.now }
    ensures tunnel { IfOk result (λ out. IsTunnel (tunnel_of domain.now flow numbers.now packet.now)) }
    ensures wire { IfOk result (λ out. out.items ≡ wire (tunnel_of domain.now flow numbers.now packet.now) 0 no_elements) }
    ensures goes { IfOk result (λ out. GoesInTunnel itinerary.now out.items) }
    ensures short { IfOk result (λ out. length out.items ≤ 65575) }
    ensures options { IfOk result (λ out. option_count out.items ≤ 4) }
{
    let out = enclose_in(alloc, spare, domain, flow, numbers, packet)?;
    Ok(out)
}

/// The packet that goes by an itinerary, or the outer packet around it, in the memory of a spare vector
/// where that has the room.
pub(crate) fn packet_of(
    alloc: Global,
    spare: Vec<u8>,
    domain: &Domain,
    itinerary: &Itinerary,
    packet: &[u8],
) -> Result<Vec<u8>, NoMemory>
    requires { Rides domain.now packet.now itinerary.now }
    ensures holds { IfOk result (λ octets. HoldsBy domain.now packet.now itinerary.now.carried octets.items) }
    ensures goes { IfOk result (λ octets. GoesBy itinerary.now.carried itinerary.now octets.items) }
    ensures short { IfOk result (λ octets. length octets.items ≤ 65575) }
    ensures options { IfOk result (λ octets. IsSome itinerary.now.carried → option_count octets.items ≤ 4) }
{
    match itinerary.carried {
        Some((flow, numbers)) => enclosed(alloc, spare, domain, itinerary, flow, &numbers, packet),
        None => copied_in(alloc, spare, packet),
    }
}

/// Room for what its visits note and export, in that of visits of which nothing is told any more.
pub(crate) fn room_for(
    alloc: Global,
    spare: NodeRoom,
    itinerary: &Itinerary,
    packet: &[u8],
) -> Result<NodeRoom, NoMemory>
    requires few { length itinerary.now.visits ≤ 256 }
    requires goes { GoesBy itinerary.now.carried itinerary.now packet.now }
    ensures notes { IfOk result (λ room. room.notes ≡ []) }
    ensures exports { IfOk result (λ room. room.exports ≡ []) }
    ensures spare { IfOk result (λ room. room.spare ≡ spare_by itinerary.now.carried itinerary.now packet.now) }
{
    match itinerary.carried {
        Some(_) => {
            let visits = itinerary.visits.list().len() as u32;
            spare.renewed(alloc, visits, option_count(packet))
        }
        None => spare.renewed(alloc, 0, 0),
    }
}
