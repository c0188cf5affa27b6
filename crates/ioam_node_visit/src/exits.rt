//! How a packet leaves the domain where its tunnel ends.
ghost use Rattle.std.specs.Prelude.{◌<◌, length};
ghost use Rattle.ioam_topo.specs.Domain.{ports};
ghost use Rattle.ioam_node_visit.specs.Leaving.{HasInner, IsInner, LeavesSo, LeavesBy};

use crate::answer::Leave;
use ioam_ip::header;
use ioam_node::exit;
use ioam_topo::{Domain, NodeId};
use ioam_tunnel::inner;
use std::ops::Range;

// What becomes of the packet that stands from a place on.
fn leave_from(domain: &Domain, node: NodeId, packet: &[u8], range: Range<usize>) -> Leave
    requires { IsInner packet.now range }
    ensures leaves { LeavesSo domain.now node.0 packet.now result }
    ensures inside { LeavesBy (length (ports domain.now)) result }
{
    match header(&packet[range.start..]) {
        Some(header) => match exit(domain, node, header.hops, header.target) {
            Ok(port) => Leave::Out { port, inner: range },
            Err(reason) => Leave::Drop(reason),
        },
        None => unreachable!(),
    }
}

/// What becomes of an enclosed packet at the node where its tunnel ends, once that has recorded its
/// visit: the packet that it carries leaves by the port to which the node routes it, or is dropped for
/// the first of these reasons that holds: `HopLimit`, `NoRoute`. The hop limit is that of the packet
/// inside, and a route to a link is none. It carries a packet, as [`ioam_tunnel::inner`] finds it.
/// Takes no memory.
pub fn leave(domain: &Domain, node: NodeId, packet: &[u8]) -> Leave
    requires { HasInner packet.now }
    ensures leaves { LeavesSo domain.now node.0 packet.now result }
    ensures inside { LeavesBy (length (ports domain.now)) result }
{
    match inner(packet) {
        Some(range) => leave_from(domain, node, packet, range),
        None => unreachable!(),
    }
}
