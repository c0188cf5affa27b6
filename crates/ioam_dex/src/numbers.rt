//! The numbers that extension flags have: Flow ID and Sequence Number.
ghost use Rattle.std.specs.Prelude.{◌≡◌, ◌+◌, ◌≤◌, ◌<◌, length};
ghost use Rattle.ioam_dex.specs.Numbers.{has_flow, has_seq, four_where, numbers_size, u32_where};

use crate::extension::{FLOW_ID, SEQUENCE_NUMBER};
use ioam_base::octets::u32_at;

/// Whether the extension flags (RFC 9326 section 3.2) have a Flow ID.
#[tactic(auto, unfolding(crate::specs::Numbers::has_flow))]
pub fn has_flow(ext: u8) -> bool
    ensures { result ≡ has_flow ext }
{
    ext / FLOW_ID % 2 == 1
}

/// Whether they have a Sequence Number.
#[tactic(auto, unfolding(crate::specs::Numbers::has_seq))]
pub fn has_seq(ext: u8) -> bool
    ensures { result ≡ has_seq ext }
{
    ext / SEQUENCE_NUMBER % 2 == 1
}

/// The octets of a number that is there or not.
pub(crate) fn four_where(there: bool) -> usize
    ensures value { result ≡ four_where there }
    ensures small { result ≤ 4 }
{
    if there { 4 } else { 0 }
}

/// The octets of the two.
pub(crate) fn numbers_size(ext: u8) -> usize
    ensures value { result ≡ numbers_size ext }
    ensures small { result ≤ 8 }
{
    four_where(has_flow(ext)) + four_where(has_seq(ext))
}

/// The number at a place, where it is there.
pub fn u32_where(there: bool, octets: &[u8], at: usize) -> Option<u32>
    requires { at + four_where there ≤ length octets.now }
    ensures { result ≡ u32_where there octets.now at }
{
    if there {
        Some(u32_at(octets, at))
    } else {
        None
    }
}
