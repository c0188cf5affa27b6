//! What is planned of a packet: its visits, how its journey ends, and in which flow it is enclosed.
ghost use Rattle.std.specs.Prelude.{◌≡◌, ◌≤◌, [], length};
ghost use Rattle.ioam_plan.specs.Journey.{carried_by};

use crate::stage::Inside;
use ioam_node::{Place, Reason};
use ioam_topo::{FlowId, NodeId, PortId, Way};
use ioam_tunnel::Numbers;
use std::alloc::Global;
use std::marker::Model;

/// One visit of a packet at a node from which it is sent on, or at which it comes out of its tunnel.
#[derive(Clone, Copy, Debug, PartialEq, Eq)]
pub struct Visit {
    /// The node, and the interfaces by which the packet comes and goes.
    pub place: Place,
    /// Where it is sent; none where it comes out of its tunnel.
    pub way: Option<Way>,
    /// When it comes, in nanoseconds since the epoch of the captures, below 2^63.
    pub time: u64,
}

/// How a journey ends.
#[derive(Clone, Copy, Debug, PartialEq, Eq)]
pub enum End {
    /// The packet leaves the domain by a port.
    Left { port: PortId },
    /// It is dropped at a node.
    Drop { reason: Reason, node: NodeId },
}

/// The visits of a packet at which it is sent on or comes out of its tunnel, in their order. Contracts
/// see them as a list.
#[derive(Debug, Drop)]
pub struct Visits {
    held: Vec<Visit>,
    ghost few: { length held.items ≤ 256 },
}

impl Model for Visits {
    ghost use Rattle.std.specs.Prelude.{List};
    ghost use Rattle.ioam_plan.specs.declared.itinerary.Visit.{Visit};

    ghost Value = { List Visit };

    ghost view = { λ visits. visits.held.items };
}

impl Visits {
    /// No visits. Takes no memory.
    pub fn none(alloc: Global) -> Visits
        ensures { result ≡ [] }
    {
        Visits {
            held: Vec::new(alloc),
        }
    }

    /// The visits, at most 256.
    pub fn list(&self) -> &[Visit]
        ensures visits { result.now ≡ self.now }
        ensures few { length self.now ≤ 256 }
    {
        self.held.as_slice()
    }

    /// Their memory, in which no visit stands.
    pub(crate) fn cleared(self) -> Vec<Visit>
        ensures { result.items ≡ [] }
    {
        let Visits { mut held, .. } = self;
        held.clear();
        held
    }
}

/// What becomes of an arrival: its visits, how its journey ends, and in which flow it is enclosed.
#[derive(Debug, Drop)]
pub struct Itinerary {
    /// The port by which the packet came.
    pub port: PortId,
    /// The visits, in their order. One that drops the packet isn't among them, save that of the exit
    /// of a tunnel, which is.
    pub visits: Visits,
    /// By which port the packet leaves, or which node drops it and why.
    pub end: End,
    /// Whether it reached the exit of a flow's tunnel.
    pub exited: bool,
    /// The flow in which the packet is enclosed, and what the entry node writes of it; none where it
    /// isn't enclosed.
    pub carried: Option<(FlowId, Numbers)>,
}

// What is enclosed of a packet: one that is visited is.
fn carried_by(visits: &[Visit], inside: Option<Inside>) -> Option<(FlowId, Numbers)>
    ensures { result ≡ carried_by visits.now inside }
{
    if visits.is_empty() {
        return None;
    }
    let inside = inside?;
    Some((inside.flow, inside.numbers))
}

impl Itinerary {
    /// These visits and this end of a packet that came by a port, which perhaps came out of its tunnel, and which is
    /// enclosed where it has a visit.
    pub(crate) fn of(
        port: PortId,
        visits: Vec<Visit>,
        end: End,
        exited: bool,
        inside: Option<Inside>,
    ) -> Itinerary
        requires { length visits.items ≤ 256 }
        ensures port { result.port ≡ port }
        ensures visits { result.visits ≡ visits.items }
        ensures end { result.end ≡ end }
        ensures exited { result.exited ≡ exited }
        ensures carried { result.carried ≡ carried_by visits.items inside }
    {
        let carried = carried_by(visits.as_slice(), inside);
        Itinerary {
            port,
            visits: Visits { held: visits },
            end,
            exited,
            carried,
        }
    }
}
