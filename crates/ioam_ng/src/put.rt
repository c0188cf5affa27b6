//! Captures that are written.
ghost use Rattle.std.specs.Prelude.{◌≡◌, ◌+◌, ◌≤◌, ◌<◌, ◌^◌, ◌++◌, ◌∷◌, [], All, List, OnOk, length, is_ok, if◌then◌else◌};
ghost use Rattle.ioam_pcap.specs.Entries.{Taken};
ghost use Rattle.ioam_ng.specs.Reads.{Reads};
ghost use Rattle.ioam_pcap.specs.Ending.{Whole};
ghost use Rattle.ioam_ng.specs.Text.{head_octets, section_octets, face_octets, face_for, packet_front, packet_numbers, packet_tail, packet_octets, packet_size, taken_by, capture_text, IsSendable};

use crate::codes::{
    ENHANCED_PACKET, INTERFACE, LEAST_PACKET, LEAST_SECTION, MAGIC, RESOLUTION, SECTION,
};
use ioam_base::buffer::Buffer;
use ioam_base::memory::NoMemory;
use ioam_base::octets::{put_u16_at, put_u32_at, put_u64_at};
use ioam_base::text::{append, append_two, settle};
use ioam_pcap::{ETHERNET, Link, MOST_PACKET, Packet, RAW};

// The resolution of times in nanoseconds: 10 to the power of -9 seconds (if_tsresol).
const NANOSECONDS: u8 = 9;

// The octets of an interface block that has its resolution and the end of its options.
const INTERFACE_SIZE: u32 = 32;

// The section block of what is written, of version 1.0 and of no said length.
fn section_block() -> [u8; 28]
    ensures { result ≡ section_octets }
{
    let mut block = [0; 28];
    put_u32_at(&mut block, 0, SECTION);
    put_u32_at(&mut block, 4, LEAST_SECTION);
    put_u32_at(&mut block, 8, MAGIC);
    put_u16_at(&mut block, 12, 1);
    put_u64_at(&mut block, 16, u64::MAX);
    put_u32_at(&mut block, 24, LEAST_SECTION);
    block
}

// An interface block of what is written, by its link type.
fn interface_block(kind: u16) -> [u8; 32]
    ensures { result ≡ face_octets kind }
{
    let mut block = [0; 32];
    put_u32_at(&mut block, 0, INTERFACE);
    put_u32_at(&mut block, 4, INTERFACE_SIZE);
    put_u16_at(&mut block, 8, kind);
    put_u32_at(&mut block, 12, MOST_PACKET);
    put_u16_at(&mut block, 16, RESOLUTION);
    put_u16_at(&mut block, 18, 1);
    block[20] = NANOSECONDS;
    put_u32_at(&mut block, 28, INTERFACE_SIZE);
    block
}

// Appends the three blocks that stand before the packets, or leaves what was there.
fn append_blocks(out: &mut Vec<u8>) -> Result<(), NoMemory>
    ensures { out.new.items
        ≡ (if is_ok result then out.old.items ++ head_octets else out.old.items) }
{
    let before = out.len();
    append(out, &section_block())?;
    let answer = append_two(
        out,
        &interface_block(RAW as u16),
        &interface_block(ETHERNET as u16),
    );
    settle(out, before, answer)
}

/// Appends what stands before the packets of a capture: 92 octets, big-endian, a section and two
/// interfaces in nanoseconds, the first of packets that begin with an IP header (link type 101), the
/// second of packets with an Ethernet header (link type 1). Without memory `out` is as before.
pub fn put_ng_head(out: &mut Vec<u8>) -> Result<(), NoMemory>
    ensures octets { out.new.items
        ≡ (if is_ok result then out.old.items ++ head_octets else out.old.items) }
    ensures begins { out.old.items ≡ [] → OnOk result (out.new.items ≡ capture_text []) }
    ensures reads { out.old.items ≡ [] → OnOk result (Reads out.new.items [] Whole) }
{
    append_blocks(out)
}

// The index of the interface of a packet's layer.
fn face_for(link: Link) -> u32
    ensures { result ≡ face_for link }
{
    match link {
        Link::Raw => 0,
        Link::Ethernet => 1,
    }
}

// The octets of a block of so many captured octets.
fn packet_size(captured: u32) -> u32
    requires { captured ≤ 262144 }
    ensures value { result ≡ packet_size captured }
    ensures few { result ≤ captured + 35 }
{
    LEAST_PACKET + captured + (4 - captured % 4) % 4
}

// The front of a packet's block.
fn packet_front(link: Link, captured: u32) -> Buffer
    requires { captured ≤ 262144 }
    ensures { result ≡ packet_front link captured }
{
    let mut front = Buffer::new();
    front.four(ENHANCED_PACKET);
    front.four(packet_size(captured));
    front.four(face_for(link));
    front
}

// The time and the two lengths of a packet's block.
fn packet_numbers(time: u64, captured: u32, original: u32) -> Buffer
    ensures { result ≡ packet_numbers time captured original }
{
    let mut numbers = Buffer::new();
    numbers.four((time / (1 << 32)) as u32);
    numbers.four((time % (1 << 32)) as u32);
    numbers.four(captured);
    numbers.four(original);
    numbers
}

// What stands behind the octets of a packet.
fn packet_tail(captured: u32) -> Buffer
    requires { captured ≤ 262144 }
    ensures { result ≡ packet_tail captured }
{
    let zeros = [0; 3];
    let mut tail = Buffer::new();
    tail.append(&zeros[..(4 - captured as usize % 4) % 4]);
    tail.four(packet_size(captured));
    tail
}

// Appends a block by its parts, or leaves what was there.
fn append_block(
    front: &[u8],
    numbers: &[u8],
    octets: &[u8],
    tail: &[u8],
    out: &mut Vec<u8>,
) -> Result<(), NoMemory>
    ensures { out.new.items
        ≡ (if is_ok result then out.old.items ++ (front.now ++ (numbers.now ++ (octets.now ++ tail.now))) else out.old.items) }
{
    let before = out.len();
    append_two(out, front, numbers)?;
    let answer = append_two(out, octets, tail);
    settle(out, before, answer)
}

/// Appends the block of a packet of at most 262,144 octets and of a time below 2^62 nanoseconds,
/// with zeros to a multiple of four and no options. Without memory `out` is as before.
pub fn put_ng_packet(link: Link, packet: &Packet<'_>, out: &mut Vec<u8>) -> Result<(), NoMemory>
    requires size { length packet.now.octets.now ≤ 262144 }
    requires time { packet.now.time < 2 ^ 62 }
    ensures octets { out.new.items
        ≡ (if is_ok result then out.old.items ++ packet_octets (taken_by link packet.now) else out.old.items) }

    // Behind a capture it makes a capture of one packet more,
    ensures adds { (sent : List Taken) → out.old.items ≡ capture_text sent
        → OnOk result (out.new.items ≡ capture_text (sent ++ taken_by link packet.now ∷ [])) }

    // which reads as these packets, while its blocks are no more than a capture may have.
    ensures reads { (sent : List Taken) → All IsSendable sent → length sent + 4 ≤ 33554432 → out.old.items ≡ capture_text sent
        → OnOk result (Reads out.new.items (sent ++ taken_by link packet.now ∷ []) Whole) }
{
    let original = packet.original;
    let octets = packet.octets;
    let captured = octets.len() as u32;
    let front = packet_front(link, captured);
    let numbers = packet_numbers(packet.time, captured, original);
    let tail = packet_tail(captured);
    append_block(front.octets(), numbers.octets(), octets, tail.octets(), out)
}
