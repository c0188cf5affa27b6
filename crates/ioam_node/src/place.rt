//! Where a packet is visited.
use ioam_topo::NodeId;

/// Where a packet is visited: a node, and its interfaces there by their ids.
#[derive(Clone, Copy, Debug, PartialEq, Eq)]
pub struct Place {
    /// The node.
    pub node: NodeId,
    /// The interface by which the packet comes.
    pub inward: u32,
    /// The interface by which it goes, if it does.
    pub outward: Option<u32>,
}
