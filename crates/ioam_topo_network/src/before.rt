//! What was read before the table.
use ioam_topo_tables::{Nodes, Parts};

/// What the entries of the table `node` refer to.
#[derive(Clone, Copy)]
pub struct Nothing;

/// What the entries of the tables `link` and `port` refer to.
#[derive(Clone, Copy)]
pub struct AmongNodes<'a> {
    /// The nodes.
    pub nodes: &'a Nodes,
    /// The most links that may have a tap.
    pub taps: u32,
}

/// What the entries of the table `route` refer to.
#[derive(Clone, Copy)]
pub struct AmongParts<'a> {
    /// The nodes, links and ports.
    pub parts: &'a Parts,
}
