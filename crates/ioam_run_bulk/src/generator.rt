//! Generated packets.
ghost use Rattle.std.specs.Prelude.{◌≡◌, ◌<◌, ◌≤◌, OnOk};
ghost use Rattle.ioam_run_bulk.specs.Generated.{header, hop_limit, next_state, packet, payload_size, subnet};

use ioam_base::memory::NoMemory;
use ioam_ip::HEADER_OCTETS;
use ioam_ip::next_header::NO_NEXT;

// The most octets of a payload, and one.
const PAYLOADS: u64 = 1_400;

/// The most octets that a packet has: a header of 40, and a payload of 1,399.
pub(crate) const MOST_GENERATED: usize = HEADER_OCTETS + PAYLOADS as usize - 1;

/// The state behind a state: a linear congruential generator modulo 2^64.
pub(crate) fn next_state(state: u64) -> u64
    ensures { result ≡ next_state state }
{
    state
        .wrapping_mul(6_364_136_223_846_793_005)
        .wrapping_add(1_442_695_040_888_963_407)
}

// The hop limit, 1 to 8.
fn hop_limit(state: u64) -> u8
    ensures { result ≡ hop_limit state }
{
    1 + (state / (1 << 32) % 8) as u8
}

// How many octets the payload has, 0 to 1,399.
fn payload_size(state: u64) -> u16
    ensures value { result ≡ payload_size state }
    ensures few { result < 1400 }
{
    (state / (1 << 40) % PAYLOADS) as u16
}

// The subnet of the target, 0 or 1.
fn subnet(state: u64) -> u8
    ensures { result ≡ subnet state }
{
    (state / (1 << 60) % 2) as u8
}

// The header: from 2001:db8:1::1 to 2001:db8:2:s::1, where s is the subnet.
fn header(state: u64) -> [u8; HEADER_OCTETS]
    ensures { result ≡ header state }
{
    let size = payload_size(state);
    let high = (size / 256) as u8;
    let low = (size % 256) as u8;
    let hops = hop_limit(state);
    let s = subnet(state);
    [
        0x60, 0, 0, 0, high, low, NO_NEXT, hops, //
        0x20, 0x01, 0x0d, 0xb8, 0, 1, 0, 0, 0, 0, 0, 0, 0, 0, 0, 1, //
        0x20, 0x01, 0x0d, 0xb8, 0, 2, 0, s, 0, 0, 0, 0, 0, 0, 0, 1,
    ]
}

/// Puts the packet of a state in place of what was there: its header, and its payload of zeros. With
/// room for 1,439 octets it takes no memory.
pub(crate) fn put_packet(state: u64, octets: &mut Vec<u8>) -> Result<(), NoMemory>
    ensures { OnOk result (octets.new.items ≡ packet state) }
{
    octets.clear();
    let header = header(state);
    octets.extend_from_slice(&header)?;
    octets.resize(HEADER_OCTETS + usize::from(payload_size(state)), 0)?;
    Ok(())
}
