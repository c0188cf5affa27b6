//! The packet that an enclosed packet carries.
ghost use Rattle.std.specs.Prelude.{◌≡◌, ℕ, List, length, drop, IfSome, IsSomeAnd, MatchOption};
ghost use Rattle.ioam_clock.specs.declared.sample.Sample.{Sample};
ghost use Rattle.ioam_ip.specs.Chain.{IsSound};
ghost use Rattle.ioam_ip.specs.Packet.{IsPacket};
ghost use Rattle.ioam_topo.specs.declared.domain.Domain.{Domain};
ghost use Rattle.ioam_tunnel.specs.Inner.{InnerAt};
ghost use Rattle.ioam_tunnel.specs.Wire.{Tunnel, IsTunnel};
ghost use Rattle.ioam_node_visit.specs.Visits.{Visited, closed_after};

use ioam_tunnel::inner;
use std::ops::Range;

/// Where in an enclosed packet, at its exit, the packet stands that was put into the tunnel: at its end,
/// and as it was but for its hop limit, which is one less. Of any other octets it is what `inner` answers.
pub fn carried(packet: &[u8]) -> Option<Range<usize>>
    ensures there { MatchOption result ((place : ℕ) → IsPacket packet.now → InnerAt packet.now place → ⊥)
        (λ range. InnerAt packet.now range.start × (range.end ≡ length packet.now)) }
    ensures packet { IfSome result (λ _. IsPacket packet.now) }
    ensures back { (domain : Domain) (readings : List (List Sample)) (tunnel : Tunnel) (visits : List Visited) (last : Visited) → IsTunnel tunnel
        → IsPacket tunnel.inner → IsSound tunnel.inner → packet.now ≡ closed_after domain readings tunnel visits last
        → IsSomeAnd result (λ range. (range.end ≡ length packet.now) × (drop range.start packet.now ≡ tunnel.inner)) }
{
    inner(packet)
}
