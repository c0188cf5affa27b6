//! Whether the data of options are what a node may have left of them.
ghost use Rattle.std.specs.Prelude.{◌≡◌, ◌<◌, ◌≤◌, ◌↔◌, true, IsTrue, drop, length, take};
ghost use Rattle.ioam_node_visit.specs.Stepped.{Fills};
ghost use Rattle.ioam_topo.specs.Domain.{nodes};
ghost use Rattle.ioam_audit.specs.Becomes.{MayBecome};
ghost use Rattle.ioam_audit.specs.Header.{MayBecomeData, option_of};

use crate::data::may_become;
use crate::parts::is_same;
use crate::sight::Sight;
use ioam_base::octets::u16_at;
use ioam_data::Namespace;
use ioam_data::option_type::{IN_FRONT, holds_trace};
use ioam_ip::OptionSpot;
use ioam_ip::option_type::IOAM_CHANGING;
use ioam_topo::{Domain, NodeId};
use ioam_trace::HEAD_OCTETS;

// Whether a node fills the trace in the data of an option: a pre-allocated trace that may change on the way, with a header
// and a namespace that the node knows.
fn is_filled(domain: &Domain, node: NodeId, spot: OptionSpot, body: &[u8]) -> bool
    ensures fills { IsTrue result ↔ Fills domain.now node.0 (option_of spot body.now) }
    ensures long { result ≡ true → 10 ≤ length body.now }
{
    spot.kind == IOAM_CHANGING
        && body.len() >= IN_FRONT + HEAD_OCTETS
        && holds_trace(body)
        && domain.knows(node, Namespace(u16_at(body, IN_FRONT)))
}

// Whether the data of a trace are what a node may have left of them.
fn is_trace_left(sight: Sight, old: &[u8], new: &[u8]) -> bool
    requires same { length new.now ≡ length old.now }
    requires long { 10 ≤ length old.now }
    ensures { IsTrue result ↔ ((take 2 new.now ≡ take 2 old.now)
        × MayBecome sight.hops sight.id sight.inward (drop 2 old.now) (drop 2 new.now)) }
{
    is_same(&new[..IN_FRONT], &old[..IN_FRONT])
        && may_become(sight, &old[IN_FRONT..], &new[IN_FRONT..])
}

/// Whether the data of an option are what a node may have left of them.
pub(crate) fn may_leave(
    domain: &Domain,
    node: NodeId,
    sight: Sight,
    spot: OptionSpot,
    old: &[u8],
    new: &[u8],
) -> bool
    requires { length new.now ≡ length old.now }
    ensures { IsTrue result ↔ MayBecomeData domain.now node.0 sight.hops sight.id sight.inward (option_of spot old.now) new.now }
{
    if !is_filled(domain, node, spot, old) {
        return is_same(new, old);
    }
    is_trace_left(sight, old, new)
}
