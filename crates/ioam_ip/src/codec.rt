//! Reading and writing the IPv6 header (RFC 8200 section 3).
ghost use Rattle.std.specs.Prelude.{◌≡◌, ◌↔◌, IsTrue, IsSome, IfSome, ℕ, List, ◌+◌, ◌≤◌, ◌++◌, length, slice_range, take};
ghost use Rattle.std.specs.Int.{w128, from_be_bytes, to_be_bytes};
ghost use Rattle.ioam_base.specs.Octets.{written};
ghost use Rattle.ioam_ip.specs.Packet.{IsPacket};
ghost use Rattle.ioam_ip.specs.Header.{HasFields, FieldsFit, class_of, header_octets};

use crate::packet::{HEADER_OCTETS, HOP_LIMIT, Header, NEXT_HEADER};
use byteorder::{BigEndian, ByteOrder};
use ioam_base::octets::{put_at, put_u16_at, put_u32_at, u16_at, u32_at};

/// The fields of the IPv6 header of these octets (RFC 8200 section 3). None exactly where they
/// aren't one packet: fewer than 40 octets, another version than 6, or more or fewer octets than 40
/// and the Payload Length.
pub fn header(octets: &[u8]) -> Option<Header>
    ensures packet { IsSome result ↔ IsPacket octets.now }
    ensures fields { IfSome result (HasFields octets.now) }
    ensures octets { IfSome result (λ read. take 40 octets.now ≡ header_octets read) }
{
    if !is_packet(octets) {
        return None;
    }
    Some(read_fields(octets))
}

/// The traffic class of a packet (RFC 8200 section 3).
pub fn class_of(packet: &[u8]) -> u8
    requires { IsPacket packet.now }
    ensures { result ≡ class_of packet.now }
{
    (u32_at(packet, 0) / 0x10_0000 % 256) as u8
}

fn read_fields(octets: &[u8]) -> Header
    requires { IsPacket octets.now }
    ensures { HasFields octets.now result }
{
    let word = u32_at(octets, 0);
    Header {
        class: class_of(octets),
        label: word % 0x10_0000,
        payload: u16_at(octets, 4),
        next: octets[NEXT_HEADER],
        hops: octets[HOP_LIMIT],
        source: u128_at(octets, 8),
        target: u128_at(octets, 24),
    }
}

// The number of 128 bits at a place, an address.
fn u128_at(octets: &[u8], at: usize) -> u128
    requires { at + 16 ≤ length octets.now }
    ensures { result ≡ from_be_bytes w128 (slice_range octets.now at (at + 16)) }
{
    BigEndian::read_u128(&octets[at..])
}

// Writes a number of 128 bits over the sixteen octets at a place.
fn put_u128_at(octets: &mut [u8], at: usize, number: u128)
    requires { at + 16 ≤ length octets.old }
    ensures { octets.new ≡ written octets.old at (to_be_bytes w128 number) }
{
    BigEndian::write_u128(&mut octets[at..], number);
}

// Whether octets are one IPv6 packet.
fn is_packet(octets: &[u8]) -> bool
    ensures { IsTrue result ↔ IsPacket octets.now }
{
    octets.len() >= HEADER_OCTETS
        && octets[0] / 16 == 6
        && octets.len() == HEADER_OCTETS + u16_at(octets, 4) as usize
}

/// Writes a header, with 6 as its version. [`header`] reads it as the same value.
pub fn put_header(into: &mut [u8; 40], header: &Header)
    ensures octets { into.new ≡ header_octets header.now }
    ensures fields { HasFields into.new header.now }
    ensures packet { (payload : List ℕ) → length payload ≡ header.now.payload → IsPacket (into.new ++ payload) }
{
    write_fields(into, *header);
}

fn write_fields(into: &mut [u8; 40], header: Header)
    ensures octets { into.new ≡ header_octets header }
    ensures fit { FieldsFit header }
{
    let word = (6 * 256 + header.class as u32) * 0x10_0000 + header.label;
    put_u32_at(into, 0, word);
    put_u16_at(into, 4, header.payload);
    put_at(into, NEXT_HEADER, &[header.next, header.hops]);
    put_u128_at(into, 8, header.source);
    put_u128_at(into, 24, header.target);
}
