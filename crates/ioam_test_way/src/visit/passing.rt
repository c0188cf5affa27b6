//! A visit, where its conditions hold.
ghost use Rattle.std.specs.Prelude.{IsTrue, ◌≡◌, ◌≤◌, ◌<◌, ◌^◌, None, length, slice_index};
ghost use Rattle.ioam_ip.specs.Chain.{IsSound};
ghost use Rattle.ioam_ip.specs.Hop.{option_count};
ghost use Rattle.ioam_ip.specs.Packet.{IsPacket};
ghost use Rattle.ioam_topo.specs.Domain.{nodes};

use crate::visit::rows::{At, Step};
use ioam_clock::Readings;
use ioam_ip::{Walk, header, walk};
use ioam_node::Place;
use ioam_node_visit::{NodeRoom, begin, exit, option_count, transit};
use ioam_topo::{Domain, NodeId};

// Whether a node is one of the domain's.
fn has_node(domain: &Domain, node: u32) -> bool
    ensures { IsTrue result → node < length (nodes domain.now) }
{
    (node as usize) < domain.nodes().len()
}

// Whether octets are a packet with a whole chain and such a hop limit, and there is room for its notes.
fn may_come(packet: &[u8], spare: u32) -> bool
    ensures packet { IsTrue result → IsPacket packet.now }
    ensures sound { IsTrue result → IsSound packet.now }
    ensures hops { IsTrue result → 2 ≤ slice_index packet.now 7 }
    ensures room { IsTrue result → option_count packet.now ≤ spare }
{
    if header(packet).is_none() {
        return false;
    }
    let Walk::Whole { .. } = walk(packet) else {
        return false;
    };
    packet[7] >= 2 && option_count(packet) <= spare
}

// Does a visit.
fn step(domain: &Domain, readings: &Readings, at: At, packet: &mut [u8], room: &mut NodeRoom)
    requires node { at.node < length (nodes domain.now) }
    requires time { at.time < 2 ^ 63 }
    requires packet { IsPacket packet.old }
    requires sound { IsSound packet.old }
    requires hops { 2 ≤ slice_index packet.old 7 }
    requires room { option_count packet.old ≤ room.old.spare }
{
    let node = NodeId(at.node);
    let inward = at.inward;
    let outward = Some(at.outward);
    let place = Place {
        node,
        inward,
        outward,
    };
    match at.step {
        Step::Begin => begin(domain, readings, place, at.time, packet, room),
        Step::Transit => transit(domain, readings, place, at.time, packet, room),
        Step::Exit => {
            let place = Place {
                node,
                inward,
                outward: None,
            };
            exit(domain, readings, place, at.time, packet, room);
        }
    }
}

/// Does a visit where its conditions hold, and says whether they do.
pub(crate) fn pass(
    domain: &Domain,
    readings: &Readings,
    at: At,
    packet: &mut [u8],
    room: &mut NodeRoom,
) -> bool {
    if at.time >= 1 << 63 {
        return false;
    }
    if !has_node(domain, at.node) {
        return false;
    }
    if !may_come(packet, room.spare()) {
        return false;
    }
    step(domain, readings, at, packet, room);
    true
}
