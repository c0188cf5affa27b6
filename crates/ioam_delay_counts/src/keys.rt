//! The keys of tables, and their order.
ghost use Rattle.std.specs.Prelude.{◌≡◌};
ghost use Rattle.ioam_delay_counts.specs.Keys.{id_of, known_before, length_of, steps_before};
ghost use Rattle.ioam_delay_counts.specs.Orders.{ends_before};

use crate::key::Key;
use ioam_delays::{Gap, Node};
use std::alloc::Global;
use std::mem;

/// A namespace.
#[derive(Clone, Copy, Debug, Drop)]
pub struct SpaceKey(pub u16);

/// A node in a namespace.
#[derive(Clone, Copy, Debug, Drop)]
pub struct NodeKey {
    /// The namespace.
    pub namespace: u16,
    /// The node.
    pub node: Node,
}

/// Two nodes of a namespace that wrote one after the other.
#[derive(Clone, Copy, Debug, Drop)]
pub struct HopKey {
    /// The namespace.
    pub namespace: u16,
    /// The first node.
    pub from: Node,
    /// The second.
    pub to: Node,
    /// How many between them wrote nothing.
    pub past: Gap,
}

/// A node that wrote, and how many before it wrote nothing.
#[derive(Clone, Copy, Debug)]
pub struct Step {
    /// How many between it and the node before it wrote nothing.
    pub past: Gap,
    /// The node.
    pub node: Node,
}

/// A way in a namespace.
#[derive(Debug, Drop)]
pub struct WayKey {
    /// The namespace.
    pub namespace: u16,
    /// The nodes that wrote, in order.
    pub steps: Vec<Step>,
    /// How many after the last wrote nothing.
    pub tail: Gap,
    /// Whether a node found no room.
    pub overflow: bool,
}

impl WayKey {
    // One that no trace went.
    pub(crate) fn new(alloc: Global) -> WayKey {
        WayKey {
            namespace: 0,
            steps: Vec::new(alloc),
            tail: Gap::Nodes(0),
            overflow: false,
        }
    }
}

// Whether a node comes before another: by its id, and one without an id last.
fn node_precedes(one: Node, other: Node) -> bool
    ensures { result ≡ known_before (id_of one) (id_of other) }
{
    match (one, other) {
        (Node::Id(one), Node::Id(other)) => one < other,
        (Node::Id(_), Node::Unknown) => true,
        (Node::Unknown, _) => false,
    }
}

// Whether a gap comes before another: a shorter one, and one of unknown length last.
fn gap_precedes(one: Gap, other: Gap) -> bool
    ensures { result ≡ known_before (length_of one) (length_of other) }
{
    match (one, other) {
        (Gap::Nodes(one), Gap::Nodes(other)) => one < other,
        (Gap::Nodes(_), Gap::Unknown) => true,
        (Gap::Unknown, _) => false,
    }
}

impl Key for SpaceKey {
    ghost use Rattle.ioam_delay_counts.specs.Orders.{space_before};
    ghost use Rattle.ioam_delay_counts.specs.Onward.{space_onward};

    ghost before = { space_before };

    ghost onward = { space_onward };

    fn precedes(&self, other: &SpaceKey) -> bool {
        self.0 < other.0
    }

    fn take(&mut self, _alloc: Global) -> SpaceKey {
        *self
    }
}

impl Key for NodeKey {
    ghost use Rattle.ioam_delay_counts.specs.Orders.{node_before};
    ghost use Rattle.ioam_delay_counts.specs.Onward.{node_onward};

    ghost before = { node_before };

    ghost onward = { node_onward };

    fn precedes(&self, other: &NodeKey) -> bool {
        if self.namespace < other.namespace {
            true
        } else if other.namespace < self.namespace {
            false
        } else {
            node_precedes(self.node, other.node)
        }
    }

    fn take(&mut self, _alloc: Global) -> NodeKey {
        *self
    }
}

impl Key for HopKey {
    ghost use Rattle.ioam_delay_counts.specs.Orders.{hop_before};
    ghost use Rattle.ioam_delay_counts.specs.Onward.{hop_onward};

    ghost before = { hop_before };

    ghost onward = { hop_onward };

    fn precedes(&self, other: &HopKey) -> bool {
        if self.namespace < other.namespace {
            true
        } else if other.namespace < self.namespace {
            false
        } else if node_precedes(self.from, other.from) {
            true
        } else if node_precedes(other.from, self.from) {
            false
        } else if node_precedes(self.to, other.to) {
            true
        } else if node_precedes(other.to, self.to) {
            false
        } else {
            gap_precedes(self.past, other.past)
        }
    }

    fn take(&mut self, _alloc: Global) -> HopKey {
        *self
    }
}

impl Key for WayKey {
    ghost use Rattle.ioam_delay_counts.specs.Orders.{way_before};
    ghost use Rattle.ioam_delay_counts.specs.Onward.{way_onward};

    ghost before = { way_before };

    ghost onward = { way_onward };

    fn precedes(&self, other: &WayKey) -> bool {
        if self.namespace < other.namespace {
            true
        } else if other.namespace < self.namespace {
            false
        } else {
            steps_precede(ends_precede(self, other), &self.steps, &other.steps)
        }
    }

    fn take(&mut self, alloc: Global) -> WayKey {
        mem::replace(self, WayKey::new(alloc))
    }
}

// Whether a way of the same steps comes before another.
fn ends_precede(one: &WayKey, other: &WayKey) -> bool
    ensures { result ≡ ends_before one.now other.now }
{
    if gap_precedes(one.tail, other.tail) {
        true
    } else if gap_precedes(other.tail, one.tail) {
        false
    } else {
        !one.overflow && other.overflow
    }
}

// Whether steps come before others; where all are the same, `rest` says it.
fn steps_precede(rest: bool, ones: &[Step], others: &[Step]) -> bool
    ensures { result ≡ steps_before rest ones.now others.now }
{
    let mut at = 0;
    'steps: while at < ones.len() && at < others.len() {
        let one = ones[at];
        let other = others[at];
        if gap_precedes(one.past, other.past) {
            return true;
        }
        if gap_precedes(other.past, one.past) {
            return false;
        }
        if node_precedes(one.node, other.node) {
            return true;
        }
        if node_precedes(other.node, one.node) {
            return false;
        }
        at += 1;
    }
    if at < ones.len() {
        false
    } else if at < others.len() {
        true
    } else {
        rest
    }
}
