//! Numbers in octets, the most significant octet first, and octets written over others.
ghost use Rattle.std.specs.Prelude.{◌≡◌, ◌+◌, ◌≤◌, ◌<◌, ◌^◌, drop, length, vec_capacity, vec_len};
ghost use Rattle.ioam_base.specs.Octets.{u16_at, u24_at, u32_at, u64_at, written};
ghost use Rattle.ioam_base.specs.Words.{two_octets, three_octets, four_octets, eight_octets};

use byteorder::{BigEndian, ByteOrder};

/// The big-endian 16-bit number at a place of the octets.
pub fn u16_at(octets: &[u8], at: usize) -> u16
    requires { at + 2 ≤ length octets.now }
    ensures { result ≡ u16_at octets.now at }
{
    BigEndian::read_u16(&octets[at..])
}

/// The big-endian 24-bit number at a place of the octets.
pub fn u24_at(octets: &[u8], at: usize) -> u32
    requires { at + 3 ≤ length octets.now }
    ensures value { result ≡ u24_at octets.now at }
    ensures fits { result < 2 ^ 24 }
{
    BigEndian::read_u24(&octets[at..])
}

/// The big-endian 32-bit number at a place of the octets.
pub fn u32_at(octets: &[u8], at: usize) -> u32
    requires { at + 4 ≤ length octets.now }
    ensures { result ≡ u32_at octets.now at }
{
    BigEndian::read_u32(&octets[at..])
}

/// The big-endian 64-bit number at a place of the octets.
pub fn u64_at(octets: &[u8], at: usize) -> u64
    requires { at + 8 ≤ length octets.now }
    ensures { result ≡ u64_at octets.now at }
{
    BigEndian::read_u64(&octets[at..])
}

/// Writes a number of 16 bits, big-endian, over the two octets at a place.
pub fn put_u16_at(octets: &mut [u8], at: usize, number: u16)
    requires { at + 2 ≤ length octets.old }
    ensures { octets.new ≡ written octets.old at (two_octets number) }
{
    BigEndian::write_u16(&mut octets[at..], number);
}

/// Writes a number of 24 bits, big-endian, over the three octets at a place.
pub fn put_u24_at(octets: &mut [u8], at: usize, number: u32)
    requires room { at + 3 ≤ length octets.old }
    requires fits { number < 2 ^ 24 }
    ensures { octets.new ≡ written octets.old at (three_octets number) }
{
    BigEndian::write_u24(&mut octets[at..], number);
}

/// Writes a number of 32 bits, big-endian, over the four octets at a place.
pub fn put_u32_at(octets: &mut [u8], at: usize, number: u32)
    requires { at + 4 ≤ length octets.old }
    ensures { octets.new ≡ written octets.old at (four_octets number) }
{
    BigEndian::write_u32(&mut octets[at..], number);
}

/// Writes a number of 64 bits, big-endian, over the eight octets at a place.
pub fn put_u64_at(octets: &mut [u8], at: usize, number: u64)
    requires { at + 8 ≤ length octets.old }
    ensures { octets.new ≡ written octets.old at (eight_octets number) }
{
    BigEndian::write_u64(&mut octets[at..], number);
}

/// Writes a part over as many octets from a place on.
pub fn put_at(octets: &mut [u8], at: usize, part: &[u8])
    requires { at + length part.now ≤ length octets.old }
    ensures { octets.new ≡ written octets.old at part.now }
{
    octets[at..at + part.len()].copy_from_slice(part);
}

/// Takes so many octets off the front of a buffer; those behind them move to its front. It keeps its room.
pub fn drop_front(buffer: &mut Vec<u8>, count: usize)
    requires { count ≤ vec_len buffer.old }
    ensures items { buffer.new.items ≡ drop count buffer.old.items }
    ensures room { vec_capacity buffer.new ≡ vec_capacity buffer.old }
{
    if count == 0 {
        return;
    }
    let len = buffer.len();
    buffer.copy_within(count..len, 0);
    buffer.truncate(len - count);
}
