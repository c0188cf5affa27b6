//! How many options a packet has for the nodes that it visits.
ghost use Rattle.std.specs.Prelude.{◌≡◌, ◌≤◌, if◌then◌else◌, length};
ghost use Rattle.ioam_ip.specs.Chain.{IsSound};
ghost use Rattle.ioam_ip.specs.Findings.{is_ioam_type};
ghost use Rattle.ioam_ip.specs.Hop.{ioam_count, option_count};
ghost use Rattle.ioam_ip.specs.Packet.{IsPacket};
ghost use Rattle.ioam_ip.specs.Rewriting.{options_in};

use ioam_ip::option_type::is_ioam_type;
use ioam_ip::{hop_header, next_option};

// 1 for an IOAM option, 0 for another.
fn counted(kind: u8) -> u32
    ensures value { result ≡ (if is_ioam_type kind then 1 else 0) }
    ensures small { result ≤ 1 }
{
    if is_ioam_type(kind) { 1 } else { 0 }
}

// How many IOAM options a header has.
fn count_in(head: &[u8]) -> u32
    requires { length head.now ≤ 2048 }
    ensures value { result ≡ ioam_count (options_in head.now) }
    ensures small { result ≤ 4096 }
{
    let mut count = 0;
    let mut at = 2;
    'options: while let Some(spot) = next_option(head, at) {
        count += counted(spot.kind);
        at = spot.at + 2 + spot.size;
    }
    count
}

/// How many IOAM options the outer Hop-by-Hop Options header of a packet has. The chain of its headers
/// is whole, so there are at most 4,096.
pub fn option_count(packet: &[u8]) -> u32
    requires packet { IsPacket packet.now }
    requires sound { IsSound packet.now }
    ensures value { result ≡ option_count packet.now }
    ensures small { result ≤ 4096 }
{
    match hop_header(packet) {
        Some(hop) => count_in(&packet[hop]),
        None => 0,
    }
}
