//! Whether what follows the IPv6 header of a packet is what a node may have left of it.
ghost use Rattle.std.specs.Prelude.{◌≡◌, ◌+◌, ◌≤◌, ◌↔◌, IsTrue, length, slice_range};
ghost use Rattle.ioam_ip.specs.Rewriting.{options_in};
ghost use Rattle.ioam_ip.specs.Spot.{spot_end};
ghost use Rattle.ioam_audit.specs.Header.{AreLeft, MayBecomeData, option_of};

use crate::left::may_leave;
use crate::parts::is_same;
use crate::sight::Sight;
use ioam_ip::{HEADER_OCTETS, OptionSpot, next_option};
use ioam_topo::{Domain, NodeId};

// Whether all is as it was from an offset up to the data of an option of the Hop-by-Hop Options header, and these are as the
// node may have left them.
fn agrees_at(
    domain: &Domain,
    node: NodeId,
    sight: Sight,
    before: &[u8],
    after: &[u8],
    from: usize,
    spot: OptionSpot,
) -> bool
    requires same { length after.now ≡ length before.now }
    requires order { from ≤ 42 + spot.at }
    requires within { 40 + spot_end spot ≤ length before.now }
    ensures { IsTrue result ↔ ((slice_range after.now from (42 + spot.at) ≡ slice_range before.now from (42 + spot.at))
        × MayBecomeData domain.now node.0 sight.hops sight.id sight.inward
        (option_of spot (slice_range before.now (42 + spot.at) (42 + spot.at + spot.size)))
        (slice_range after.now (42 + spot.at) (42 + spot.at + spot.size))) }
{
    let start = HEADER_OCTETS + 2 + spot.at;
    let end = start + spot.size;
    is_same(&after[from..start], &before[from..start])
        && may_leave(
            domain,
            node,
            sight,
            spot,
            &before[start..end],
            &after[start..end],
        )
}

/// Whether all that follows the IPv6 header is as the node may have left it, if the Hop-by-Hop Options header ends at `end`.
pub(crate) fn agree(
    domain: &Domain,
    node: NodeId,
    sight: Sight,
    before: &[u8],
    after: &[u8],
    end: usize,
) -> bool
    requires same { length after.now ≡ length before.now }
    requires order { 40 ≤ end }
    requires within { end ≤ length before.now }
    ensures { IsTrue result ↔ AreLeft domain.now node.0 sight.hops sight.id sight.inward before.now after.now 40
        (options_in (slice_range before.now 40 end)) }
{
    let head = &before[HEADER_OCTETS..end];
    let mut from = HEADER_OCTETS;
    let mut at = 2;
    'options: while let Some(spot) = next_option(head, at) {
        if !agrees_at(domain, node, sight, before, after, from, spot) {
            return false;
        }
        at = spot.at + 2 + spot.size;
        from = HEADER_OCTETS + at;
    }
    is_same(&after[from..], &before[from..])
}
