//! Whether a node may have made one trace of another.
ghost use Rattle.std.specs.Prelude.{◌≡◌, ◌≤◌, ◌^◌, ◌⊎◌, ◌↔◌};
ghost use Rattle.ioam_c.specs.Judge.{MayMake};

use crate::status::{ILLEGAL, OK, VIEW};
use ioam_audit::{Sight, may_become};

/// Whether a node may have made the octets `new` of the octets `old` of a pre-allocated trace, both those after the IOAM-Option-Type
/// (RFC 9197 section 4.4), if all that is known of it is that it sent the packet on with `hop_limit`, its id and the interface by which
/// the packet came. `OK`: it may. `ILLEGAL`: it may not; so it is if the octets aren't as many. `VIEW`: the node id is 2^56 or more.
#[unsafe(no_mangle)]
pub extern "C" fn ioam_may_become(
    old: &[u8],
    new: &[u8],
    hop_limit: u8,
    node_id: u64,
    ingress: u32,
) -> u32
    ensures ok { (result ≡ 0) ↔ MayMake hop_limit node_id ingress old.now new.now }
    ensures view { (result ≡ 10) ↔ (2 ^ 56 ≤ node_id) }
    ensures other { (result ≡ 0) ⊎ ((result ≡ 10) ⊎ (result ≡ 14)) }
{
    if node_id >= 1 << 56 {
        return VIEW;
    }
    if new.len() != old.len() || !may_become(Sight::new(hop_limit, node_id, ingress), old, new) {
        return ILLEGAL;
    }
    OK
}
