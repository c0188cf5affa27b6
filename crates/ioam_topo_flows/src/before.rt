//! What was read before the table.
use ioam_topo_tables::{Flows, Nodes};

/// What the entries of the tables `data` and `flow` refer to.
#[derive(Clone, Copy)]
pub struct AmongNodes<'a> {
    /// The nodes.
    pub nodes: &'a Nodes,
}

/// What the entries of the table `extra` refer to.
#[derive(Clone, Copy)]
pub struct AmongFlows<'a> {
    /// The nodes.
    pub nodes: &'a Nodes,
    /// The flows.
    pub flows: &'a Flows,
}
