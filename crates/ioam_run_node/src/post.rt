//! Where packets are visited.
ghost use Rattle.std.specs.Prelude.{◌<◌, length};
ghost use Rattle.ioam_topo.specs.Domain.{nodes};

use ioam_clock::Readings;
use ioam_topo::{Domain, NodeId};

/// Where packets are visited: a node of a domain, and the id of its interface by which they come.
#[derive(Drop)]
pub struct Post<'a> {
    pub(crate) domain: &'a Domain,
    pub(crate) readings: &'a Readings,
    pub(crate) node: NodeId,
    pub(crate) inward: u32,
    ghost inside: { node.0 < length (nodes domain.now) },
}
