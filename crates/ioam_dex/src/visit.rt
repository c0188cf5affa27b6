//! The visit that a record tells: the time at the node, 64 bits, and the interface by which the packet came, 32.
ghost use Rattle.std.specs.Prelude.{◌≡◌, ◌+◌, ◌≤◌, length};
ghost use Rattle.ioam_base.specs.Octets.{u32_at, u64_at};
ghost use Rattle.ioam_dex.specs.Visit.{has_visit, twelve_where, version_of, visit_octets, visit_where};

use crate::fields::{PLAIN, VISIT_SIZE, VISITED};
use ioam_base::buffer::Buffer;
use ioam_base::octets::{u32_at, u64_at};

/// Whether a record of this version tells a visit.
pub(crate) fn has_visit(version: u8) -> bool
    ensures { result ≡ has_visit version }
{
    version == VISITED
}

/// The version by what a record tells.
pub(crate) fn version_of(visit: Option<(u64, u32)>) -> u8
    ensures { result ≡ version_of visit }
{
    match visit {
        Some(_) => VISITED,
        None => PLAIN,
    }
}

/// The octets of a visit that is there or not.
pub(crate) fn twelve_where(there: bool) -> usize
    ensures value { result ≡ twelve_where there }
    ensures small { result ≤ 12 }
{
    if there { VISIT_SIZE } else { 0 }
}

/// The visit at a place: the time, and the interface.
pub fn visit_at(octets: &[u8], at: usize) -> (u64, u32)
    requires { at + 12 ≤ length octets.now }
    ensures { result ≡ (u64_at octets.now at, u32_at octets.now (at + 8)) }
{
    (u64_at(octets, at), u32_at(octets, at + 8))
}

/// The visit at a place, where it is there.
pub fn visit_where(there: bool, octets: &[u8], at: usize) -> Option<(u64, u32)>
    requires { at + twelve_where there ≤ length octets.now }
    ensures { result ≡ visit_where there octets.now at }
{
    if there {
        Some(visit_at(octets, at))
    } else {
        None
    }
}

/// The octets of a visit, where it is there.
pub fn visit_octets(visit: Option<(u64, u32)>) -> Buffer
    ensures value { result ≡ visit_octets visit }
    ensures small { length result ≤ 12 }
{
    let mut buffer = Buffer::new();
    if let Some((time, inward)) = visit {
        buffer.eight(time);
        buffer.four(inward);
    }
    buffer
}
