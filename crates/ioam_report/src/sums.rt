//! What a run counts of its arrivals.
ghost use Rattle.std.specs.Prelude.{◌≡◌, ◌+◌, ◌++◌, ◌∷◌, ◌<◌, ◌^◌, ℕ, List, [], All, IfOk, IfSome, if◌then◌else◌, nat_eq, length, count_by, replicate};
ghost use Rattle.ioam_topo.specs.declared.domain.Domain.{Domain};
ghost use Rattle.ioam_plan.specs.declared.itinerary.Itinerary.{Itinerary};
ghost use Rattle.ioam_report.specs.Sums.{is_at, IsEndBelow, Raised, StandFor};

use crate::filled::filled;
use crate::flows::FlowSums;
use ioam_base::memory::NoMemory;
use ioam_plan::{End, Itinerary, Visit};
use ioam_topo::{Domain, NodeId};
use std::alloc::Global;
use std::marker::Model;

/// What is counted of the packets at one node.
#[derive(Clone, Copy, Debug, PartialEq, Eq)]
pub struct NodeSum {
    /// The visits, each pass of a packet by itself, among them one that dropped it.
    pub seen: u64,
    /// The packets that were dropped there.
    pub dropped: u64,
}

/// What is counted at each node, in file order. Contracts see it as a list. It has memory for these and
/// no more, so that a call which leaves it as long has taken none.
#[derive(Debug, Drop)]
pub struct NodeSums {
    held: Vec<NodeSum>,
}

impl Model for NodeSums {
    ghost use Rattle.std.specs.Prelude.{List};
    ghost use Rattle.ioam_report.specs.declared.sums.NodeSum.{NodeSum};

    ghost Value = { List NodeSum };

    ghost use Rattle.std.specs.Prelude.{◌≡◌, vec_len, vec_capacity};

    ghost view = { λ sums. sums.held.items };

    ghost invariant = { λ sums. vec_capacity sums.held ≡ vec_len sums.held };
}

impl NodeSums {
    // Nothing at each of so many nodes.
    fn new(alloc: Global, count: usize) -> Result<NodeSums, NoMemory>
        ensures { IfOk result (λ sums. sums ≡ replicate count (record { seen = 0; dropped = 0 })) }
    {
        let none = NodeSum {
            seen: 0,
            dropped: 0,
        };
        let held = filled(alloc, none, count)?;
        Ok(NodeSums { held })
    }

    /// What is counted at each node, in file order.
    pub fn list(&self) -> &[NodeSum]
        ensures { result.now ≡ self.now }
    {
        self.held.as_slice()
    }

    // Counts so many passes of a packet at a node, and so many of it as dropped.
    fn pass(&mut self, node: NodeId, seen: u64, dropped: u64)
        requires { node.0 < length self.old }
        ensures count { length self.new ≡ length self.old }
        ensures raised { (at : ℕ) → Raised self.old self.new at
            (if nat_eq at node.0 then seen else 0) (if nat_eq at node.0 then dropped else 0) }
    {
        let sum = &mut self.held[node.0 as usize];
        sum.seen = sum.seen.saturating_add(seen);
        sum.dropped = sum.dropped.saturating_add(dropped);
    }

    // Counts the visits of a packet.
    fn pass_all(&mut self, visits: &[Visit])
        requires { All (λ visit. visit.place.node.0 < length self.old) visits.now }
        ensures count { length self.new ≡ length self.old }
        ensures raised { (at : ℕ) → Raised self.old self.new at (count_by (is_at at) visits.now) 0 }
    {
        for visit in visits {
            self.pass(visit.place.node, 1, 0);
        }
    }
}

/// What a run counts of its arrivals.
#[derive(Debug, Drop)]
pub struct Sums {
    /// The arrivals.
    pub packets: u64,
    /// Those that left the domain by a port.
    pub left: u64,
    /// Those that were dropped.
    pub dropped: u64,
    /// What is counted at each node.
    pub nodes: NodeSums,
    /// What is counted of each flow.
    pub flows: FlowSums,
}

impl Sums {
    /// The sums of no arrivals in a domain.
    pub fn new(alloc: Global, domain: &Domain) -> Result<Sums, NoMemory>
        ensures { IfOk result (λ sums. StandFor domain.now sums []) }
    {
        let nodes = NodeSums::new(alloc, domain.nodes().len())?;
        let flows = FlowSums::new(alloc, domain.flows().len())?;
        Ok(Sums {
            packets: 0,
            left: 0,
            dropped: 0,
            nodes,
            flows,
        })
    }

    /// Counts an arrival more. Its nodes and its flow are those of the domain that the sums were made for, and fewer
    /// than 2^32 arrivals were counted before it. For every list of arrivals that the sums stand for,
    /// they stand afterwards for the list with this one at its end. It takes no memory: what is counted at the
    /// nodes and of the flows stays as long as it was.
    pub fn note(&mut self, itinerary: &Itinerary)
        requires packets { self.old.packets < 2 ^ 32 }
        requires visits { All (λ visit. visit.place.node.0 < length self.old.nodes) itinerary.now.visits }
        requires ends { IsEndBelow (length self.old.nodes) itinerary.now.end }
        requires flow { IfSome itinerary.now.carried (λ carried. carried.0.0 < length self.old.flows) }
        ensures packets { self.new.packets ≡ self.old.packets + 1 }
        ensures nodes { length self.new.nodes ≡ length self.old.nodes }
        ensures flows { length self.new.flows ≡ length self.old.flows }
        ensures stands { (domain : Domain) (arrivals : List Itinerary) → StandFor domain self.old arrivals
            → StandFor domain self.new (arrivals ++ itinerary.now ∷ []) }
    {
        self.packets += 1;
        self.nodes.pass_all(itinerary.visits.list());
        self.flows.note(itinerary);
        match itinerary.end {
            End::Left { .. } => self.left = self.left.saturating_add(1),
            End::Drop { node, .. } => {
                self.dropped = self.dropped.saturating_add(1);
                // The visit of its tunnel's exit is among its visits.
                self.nodes.pass(node, u64::from(!itinerary.exited), 1);
            }
        }
    }
}
