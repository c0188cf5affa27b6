//! Where headers end, and what they name as the next.
ghost use Rattle.std.specs.Prelude.{◌≡◌, ◌+◌, ◌<◌, ◌≤◌, length, MatchOption};
ghost use Rattle.ioam_ip.specs.Chain.{said_size, size_by, next_by, fragment_offset};
ghost use Rattle.ioam_ip.specs.HeadsLeft.{goes_on_by};

use crate::chain::Kind;
use crate::packet::{HEADER_OCTETS, NEXT_HEADER};
use ioam_base::octets::u16_at;

// The octets of a header that says its own length, in units of 8 octets past the first 8 (Hdr Ext Len).
pub(crate) fn said_size(packet: &[u8], at: usize) -> usize
    requires { at + 2 ≤ length packet.now }
    ensures value { result ≡ said_size packet.now at }
    ensures most { result ≤ 2048 }
{
    (usize::from(packet[at + 1]) + 1) * 8
}

// Where a header that says its own length ends, if its octets are there.
pub(crate) fn said_end(packet: &[u8], at: usize) -> Option<usize>
    requires { at ≤ length packet.now }
    ensures { MatchOption result (length packet.now < at + said_size packet.now at)
        (λ end. (end ≡ at + said_size packet.now at) × (end ≤ length packet.now)) }
{
    if packet.len() - at < 2 {
        return None;
    }
    let size = said_size(packet, at);
    if packet.len() - at < size {
        return None;
    }
    Some(at + size)
}

// Where a header of this kind ends, if its octets are there.
pub(crate) fn whole_end(packet: &[u8], at: usize, kind: Kind) -> Option<usize>
    requires { at ≤ length packet.now }
    ensures { MatchOption result (length packet.now < at + size_by packet.now at kind)
        (λ end. (end ≡ at + size_by packet.now at kind) × (end ≤ length packet.now)) }
{
    match kind {
        Kind::HopByHop | Kind::Destination | Kind::Routing => said_end(packet, at),
        Kind::Fragment => fixed_end(packet, at, 8),
        Kind::Nested => fixed_end(packet, at, HEADER_OCTETS),
        Kind::Upper => Some(at),
    }
}

// Where so many octets end, if they are there.
fn fixed_end(packet: &[u8], at: usize, size: usize) -> Option<usize>
    requires { at ≤ length packet.now }
    ensures { MatchOption result (length packet.now < at + size)
        (λ end. (end ≡ at + size) × (end ≤ length packet.now)) }
{
    if packet.len() - at < size {
        None
    } else {
        Some(at + size)
    }
}

// The next header value of a whole header.
pub(crate) fn next_value(packet: &[u8], at: usize, kind: Kind) -> u8
    requires { at + size_by packet.now at kind ≤ length packet.now }
    ensures { result ≡ next_by packet.now at kind }
{
    match kind {
        Kind::HopByHop | Kind::Destination | Kind::Routing | Kind::Fragment => packet[at],
        Kind::Nested => packet[at + NEXT_HEADER],
        Kind::Upper => 0,
    }
}

// The offset of a whole Fragment header, in units of 8 octets.
pub(crate) fn fragment_offset(packet: &[u8], at: usize) -> u16
    requires { at + 8 ≤ length packet.now }
    ensures { result ≡ fragment_offset packet.now at }
{
    u16_at(packet, at + 2) / 8
}

// Whether the chain of a sound packet goes on behind a whole header.
pub(crate) fn goes_on(packet: &[u8], at: usize, kind: Kind) -> bool
    requires { at + size_by packet.now at kind ≤ length packet.now }
    ensures { result ≡ goes_on_by packet.now at kind }
{
    match kind {
        Kind::HopByHop | Kind::Destination | Kind::Routing | Kind::Nested => true,
        Kind::Fragment => fragment_offset(packet, at) == 0,
        Kind::Upper => false,
    }
}
