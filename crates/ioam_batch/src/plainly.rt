//! The visits of a packet that isn't enclosed.
ghost use Rattle.std.specs.Prelude.{◌≡◌, ◌≤◌, ◌-◌, ◌++◌, [], length, slice_index};
ghost use Rattle.ioam_batch.specs.Crossings.{taps_of};
ghost use Rattle.ioam_batch.specs.Ran.{lowered_from};
ghost use Rattle.ioam_ip.specs.Lowered.{lowered};

use crate::crossings::Crossings;
use ioam_ip::HOP_LIMIT;

/// So many visits, each of which lowers the packet's hop limit by one.
pub(crate) fn lower(count: usize, packet: &mut [u8], crossings: &mut Crossings)
    requires hops { count ≤ slice_index packet.old 7 - 1 }
    requires ahead { length crossings.old.ahead ≡ count }
    requires size { length packet.old ≡ crossings.old.size }
    ensures packet { packet.new ≡ lowered count packet.old }
    ensures past { crossings.new.past ≡ crossings.old.past ++ lowered_from packet.old 0 crossings.old.ahead }
    ensures ahead { crossings.new.ahead ≡ [] }
    ensures size { crossings.new.size ≡ crossings.old.size }
    ensures capacities { crossings.new.capacities ≡ crossings.old.capacities }
    ensures taps { taps_of crossings.new ≡ taps_of crossings.old }
{
    for i in 0..count {
        packet[HOP_LIMIT] -= 1;
        crossings.cross(packet);
    }
}
