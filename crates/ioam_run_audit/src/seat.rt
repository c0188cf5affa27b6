//! The node that sent the packets of AFTER on, and the link by which they had come.
ghost use Rattle.std.specs.Prelude.{◌<◌, ◌↔◌, IsTrue, length, slice_get};
ghost use Rattle.ioam_audit.specs.Sent.{IsSentAs, end_of};
ghost use Rattle.ioam_ip.specs.Chain.{IsSound};
ghost use Rattle.ioam_ip.specs.Packet.{IsPacket};
ghost use Rattle.ioam_topo.specs.Domain.{links, nodes};

use ioam_audit::legal;
use ioam_topo::{Domain, LinkId, NodeId};

/// The node that sent the packets of AFTER on, and the link by which they had come.
#[derive(Clone, Copy)]
pub(crate) struct Seat<'a> {
    pub(crate) domain: &'a Domain,
    pub(crate) node: NodeId,
    pub(crate) link: LinkId,
    pub(crate) ghost node_inside: { node.0 < length (nodes domain.now) },
    pub(crate) ghost link_inside: { link.0 < length (links domain.now) },
}

impl Seat<'_> {
    /// Whether the node can have sent a packet on as another.
    pub(crate) fn can_send(&self, before: &[u8], after: &[u8]) -> bool
        requires packet { IsPacket before.now }
        requires sound { IsSound before.now }
        ensures { IsTrue result ↔ IsSentAs self.now.domain.now self.now.node.0
            (end_of (slice_get (links self.now.domain.now) self.now.link.0)) before.now after.now }
    {
        legal(self.domain, self.node, self.link, before, after)
    }
}
