//! The stages of a packet's journey.
ghost use Rattle.std.specs.Prelude.{◌≡◌, ◌+◌, ◌<◌, ◌^◌, Some};
ghost use Rattle.ioam_node.specs.Outward.{outward_of};
ghost use Rattle.ioam_plan.specs.Journey.{outward_by, crossed, visit_by};

use crate::itinerary::{End, Visit};
use ioam_node::Place;
use ioam_topo::{Domain, FlowId, Link, NodeId, PortId, Way};
use ioam_tunnel::Numbers;

/// Where a packet is: a node, the interface by which it came, when, and its hop limit there.
#[derive(Clone, Copy)]
pub struct JourneySpot {
    pub node: NodeId,
    pub inward: u32,
    /// In nanoseconds since the epoch of the captures, below 2^63.
    pub time: u64,
    pub hops: u8,
}

/// What is to be known where a packet enters its tunnel.
#[derive(Clone, Copy)]
pub struct Entry {
    /// The hop limit of the outer header.
    pub hops: u8,
    /// Whether the packet may not be enclosed once more (RFC 2473 section 4.1.1).
    pub refused: bool,
}

/// A packet inside its tunnel.
#[derive(Clone, Copy)]
pub struct Inside {
    /// The flow in which it is enclosed, and what the entry node writes of it.
    pub flow: FlowId,
    pub numbers: Numbers,
    /// The node at which the tunnel ends.
    pub exit: NodeId,
    /// The packet's own target, and its own hop limit on the way.
    pub target: u128,
    pub hops: u8,
}

/// What nodes go by on a packet's way.
#[derive(Clone, Copy)]
pub struct Trip {
    /// The target that is routed.
    pub target: u128,
    /// The octets of the packet as it is sent.
    pub size: usize,
    /// The packet inside, where it is enclosed or is to be.
    pub inside: Option<Inside>,
}

/// A stage of a packet's journey.
#[derive(Clone, Copy)]
pub enum Stage {
    /// At the node where it enters its tunnel; the hop limit is its own.
    Enter(JourneySpot, Entry),
    /// At a node.
    At(JourneySpot),
    /// Out of the domain by a port.
    Gone(PortId),
    /// Out of its tunnel, at a node.
    Out(NodeId, Inside),
}

/// What becomes of a packet at a stage: a visit from which it goes on to another, or its end, after it
/// reached its tunnel's exit or before.
#[derive(Clone, Copy)]
pub enum JourneyStep {
    Goes(Visit, Stage),
    Ends(End, bool),
}

/// The id of the interface by which a way leaves its node: what the link has at that end, or the port;
/// None exactly where the domain has no such link or port.
pub fn outward_of(domain: &Domain, way: Way) -> Option<u32>
    ensures { result ≡ outward_of domain.now way }
{
    match way {
        Way::Link(link) => match domain.links().get(link.0 as usize) {
            Some(link) => Some(link.out_id),
            None => None,
        },
        Way::Port(port) => match domain.ports().get(port.0 as usize) {
            Some(port) => Some(port.id),
            None => None,
        },
    }
}

// The same where the packet is sent on.
fn outward_by(domain: &Domain, way: Option<Way>) -> Option<u32>
    ensures { result ≡ outward_by domain.now way }
{
    outward_of(domain, way?)
}

impl Entry {
    pub(crate) fn new(hops: u8, refused: bool) -> Entry
        ensures hops { result.hops ≡ hops }
        ensures below { result.hops < 256 }
        ensures refused { result.refused ≡ refused }
    {
        Entry { hops, refused }
    }
}

impl JourneySpot {
    // The visit there, sent on by a way, if it is.
    pub(crate) fn visit(self, domain: &Domain, way: Option<Way>) -> Visit
        ensures { result ≡ visit_by domain.now self way }
    {
        Visit {
            place: Place {
                node: self.node,
                inward: self.inward,
                outward: outward_by(domain, way),
            },
            way,
            time: self.time,
        }
    }

    // Where the packet is once it crossed a link, with this hop limit.
    pub(crate) fn crossed(self, link: &Link, hops: u8) -> JourneySpot
        requires time { self.time + 2 ^ 32 < 2 ^ 64 }
        ensures spot { result ≡ crossed self hops (Some link.now) }
        ensures soon { result.time < self.time + 2 ^ 32 }
    {
        JourneySpot {
            node: link.to,
            inward: link.in_id,
            time: self.time + u64::from(link.delay),
            hops,
        }
    }
}
