//! Direct export data, read.
ghost use Rattle.std.specs.Prelude.{◌≡◌, ◌≤◌, length};
ghost use Rattle.ioam_dex.specs.Direct.{Reads, ReadsAgain, direct_at, read_of, wanted};

use crate::direct::{Direct, DirectFault};
use crate::numbers::{four_where, has_flow, has_seq, numbers_size, u32_where};
use ioam_base::octets::u16_at;
use ioam_data::{Namespace, TraceType};

// The octets that are wanted, as far as these tell.
fn wanted(octets: &[u8]) -> usize
    ensures value { result ≡ wanted octets.now }
    ensures small { result ≤ 16 }
{
    if octets.len() < 8 {
        return 8;
    }
    8 + numbers_size(octets[3])
}

// The value in front of octets that have it whole.
fn value(octets: &[u8]) -> Direct
    requires { wanted octets.now ≤ length octets.now }
    ensures { result ≡ direct_at octets.now }
{
    let ext = octets[3];
    Direct {
        namespace: Namespace(u16_at(octets, 0)),
        flags: octets[2],
        ext,
        kind: TraceType::at(octets, 4),
        flow: u32_where(has_flow(ext), octets, 8),
        seq: u32_where(has_seq(ext), octets, 8 + four_where(has_flow(ext))),
    }
}

/// Reads the octets behind the IOAM-Option-Type of a direct export option. `Short` comes exactly
/// where they are fewer than 8 and those of the optional fields. What follows them is left unread.
pub fn read(octets: &[u8]) -> Result<Direct, DirectFault>
    ensures reads { Reads octets.now result }
    // What `put` wrote is read as the same value.
    ensures again { ReadsAgain octets.now result }
    // What is read depends on the octets alone.
    ensures value { result ≡ read_of octets.now }
{
    let wanted = wanted(octets);
    if octets.len() < wanted {
        return Err(DirectFault::Short {
            have: octets.len() as u32,
            wanted: wanted as u32,
        });
    }
    Ok(value(octets))
}
