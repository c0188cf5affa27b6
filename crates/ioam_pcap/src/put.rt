//! Captures that are written.
ghost use Rattle.std.specs.Prelude.{◌≡◌, ◌≤◌, ◌++◌, [], All, List, OnOk, Some, length, map, is_ok, if◌then◌else◌};
ghost use Rattle.ioam_pcap.specs.Entries.{most};
ghost use Rattle.ioam_pcap.specs.Ending.{Whole};
ghost use Rattle.ioam_pcap.specs.Reads.{Reads};
ghost use Rattle.ioam_pcap.specs.Text.{Sent, IsSendable, head_octets, record_head, record_octets, capture_text, entry_sent, with_sent};
ghost use Rattle.ioam_ip.specs.declared.layer.Layer.TheVariants as Layer;

use crate::capture::MOST_PACKET;
use crate::form::RAW;
use crate::head::NANO_MAGIC;
use crate::numbers::EntryNumbers;
use byteorder::BigEndian;
use ioam_base::memory::NoMemory;
use ioam_base::octets::{put_u16_at, put_u32_at};
use ioam_base::text::append;

const NANOSECONDS: u64 = 1_000_000_000;

// The head: magic number, version 2.4, no zone, no accuracy, 262,144 octets at most, link type 101.
fn head() -> [u8; 24]
    ensures { result ≡ head_octets }
{
    let mut head = [0; 24];
    put_u32_at(&mut head, 0, NANO_MAGIC);
    put_u16_at(&mut head, 4, 2);
    put_u16_at(&mut head, 6, 4);
    put_u32_at(&mut head, 16, MOST_PACKET);
    put_u32_at(&mut head, 20, RAW);
    head
}

/// Appends the head of a capture: 24 octets, big-endian, nanoseconds, version 2.4, packets of at
/// most 262,144 octets that begin with an IP header (link type 101). Without memory `out` is as
/// before.
pub fn put_head(out: &mut Vec<u8>) -> Result<(), NoMemory>
    ensures octets { out.new.items
        ≡ (if is_ok result then out.old.items ++ head_octets else out.old.items) }
    ensures begins { out.old.items ≡ [] → OnOk result (out.new.items ≡ capture_text []) }
    ensures reads { out.old.items ≡ [] → OnOk result (Reads out.new.items (Some Layer.Raw) [] Whole) }
{
    append(out, &head())
}

// The head of a record of so many octets.
fn record_head(time: u64, size: u32) -> [u8; 16]
    ensures { result ≡ record_head time size }
{
    let numbers = EntryNumbers {
        seconds: ((time / NANOSECONDS) % (1 << 32)) as u32,
        fraction: (time % NANOSECONDS) as u32,
        captured: size,
        original: size,
    };
    numbers.in_octets::<BigEndian>()
}

// Appends a record.
fn append_record(time: u64, packet: &[u8], out: &mut Vec<u8>) -> Result<(), NoMemory>
    requires { length packet.now ≤ most }
    ensures { out.new.items ≡ (if is_ok result
        then out.old.items ++ record_octets time packet.now
        else out.old.items) }
{
    let before = out.len();
    append(out, &record_head(time, packet.len() as u32))?;
    match append(out, packet) {
        Ok(()) => Ok(()),
        Err(no_memory) => {
            out.truncate(before);
            Err(no_memory)
        }
    }
}

/// Appends a record of at most 262,144 octets: a head of 16 octets and the packet. The time is in
/// nanoseconds; its seconds are written modulo 2^32. Both lengths are the packet's. Without memory
/// `out` is as before.
pub fn put_record(time: u64, packet: &[u8], out: &mut Vec<u8>) -> Result<(), NoMemory>
    requires { length packet.now ≤ most }
    ensures octets { out.new.items ≡ (if is_ok result
        then out.old.items ++ record_octets time packet.now
        else out.old.items) }

    // Behind a capture it makes a capture of one packet more,
    ensures adds { (sent : List Sent) → out.old.items ≡ capture_text sent
        → OnOk result (out.new.items ≡ capture_text (with_sent sent time packet.now)) }

    // which reads as these packets.
    ensures reads { (sent : List Sent) → All IsSendable sent → out.old.items ≡ capture_text sent
        → OnOk result (Reads out.new.items (Some Layer.Raw)
        (map entry_sent (with_sent sent time packet.now)) Whole) }
{
    append_record(time, packet, out)
}
