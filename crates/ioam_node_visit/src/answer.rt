//! What becomes of a packet at the exit of its tunnel.
use ioam_node::Reason;
use ioam_topo::PortId;
use std::ops::Range;

/// What becomes of a packet at the exit of its tunnel.
#[derive(Debug, Drop)]
pub enum Leave {
    /// What it carries leaves by a port.
    Out { port: PortId, inner: Range<usize> },
    /// It is dropped.
    Drop(Reason),
}
