//! Captures of the classic form.
use crate::puts::{classic, put_entry};
use crate::shown::{Shows, is_classic};
use crate::stream::captures::{two, two_read};
use ioam_pcap::{CapLook, CapStep, CaptureReader, Link, pick};
use std::alloc::Global;
use std::test::Fail;

// A head, big-endian, nanoseconds, IP (link type 101).
const HEAD: [u8; 24] = [
    0xa1, 0xb2, 0x3c, 0x4d, 0, 2, 0, 4, 0, 0, 0, 0, 0, 0, 0, 0, 0, 4, 0, 0, 0, 0, 0, 0x65,
];

// Little-endian, microseconds, Ethernet.
const LITTLE: [u8; 24] = [
    0xd4, 0xc3, 0xb2, 0xa1, 2, 0, 4, 0, 0, 0, 0, 0, 0, 0, 0, 0, 0, 0, 4, 0, 1, 0, 0, 0,
];

// The head of LITTLE with its magic number's nanoseconds, and the link type 113.
const COOKED: [u8; 24] = [
    0x4d, 0x3c, 0xb2, 0xa1, 2, 0, 4, 0, 0, 0, 0, 0, 0, 0, 0, 0, 0, 0, 4, 0, 113, 0, 0, 0,
];

#[test]
fn reads_in_any_pieces(rt: HostRuntime) -> Result<(), Fail> {
    let sizes = [1, 2, 3, 7, 16, 24, 65_536];
    assert!(rt; is_classic(rt.alloc(), two(), &sizes, two_read())?);
    Ok(())
}

// Whether a reader looks ahead to this.
fn looks_to(reader: &CaptureReader, look: CapLook) -> bool {
    reader.look() == look
}

// Whether a reader reads a head.
fn reads_head(reader: &mut CaptureReader) -> bool {
    matches!(reader.next(), CapStep::Head { .. })
}

// Whether a reader that was fed the capture looks ahead to its head, and then to its first packet.
fn looks_to_each(reader: &mut CaptureReader) -> bool {
    let first = CapLook::Packet {
        time: 2_000_007_000,
        size: 3,
    };
    reader.link().is_none()
        && looks_to(reader, CapLook::Head { link: Link::Raw })
        && reads_head(reader)
        && reader.link() == Some(Link::Raw)
        && looks_to(reader, first)
}

#[test]
fn looks_ahead(rt: HostRuntime) -> Result<(), Fail> {
    let mut reader = CaptureReader::new(rt.alloc())?;
    assert!(rt; looks_to(&reader, CapLook::More));
    reader.take(two())?;
    assert!(rt; reader.fed() == 59);
    assert!(rt; looks_to_each(&mut reader));
    Ok(())
}

// Feeds a reader octets in pieces of 65,536.
fn feed_pieces(reader: &mut CaptureReader, octets: &[u8]) -> Result<(), Fail> {
    for piece in octets.chunks(65_536) {
        reader.take(piece)?;
    }
    Ok(())
}

// Whether a reader reads a packet of the most octets.
fn reads_longest(reader: &mut CaptureReader) -> bool {
    matches!(reader.next(), CapStep::Packet(packet) if packet.octets.len() == 262_144)
}

// Whether a reader reads nothing.
fn reads_nothing(reader: &mut CaptureReader) -> bool {
    matches!(reader.next(), CapStep::More)
}

// Feeds a record of 262,144 octets so often, and says whether it is read each time.
fn longest_is_read(reader: &mut CaptureReader, record: &[u8], times: u32) -> Result<bool, Fail> {
    for _ in 0..times {
        feed_pieces(reader, record)?;
        if !reads_longest(reader) {
            return Ok(false);
        }
    }
    Ok(reads_nothing(reader))
}

// Whether a reader of a head and of 20 records of the most octets reads these.
fn megabytes_are_read(reader: &mut CaptureReader, record: &[u8]) -> Result<bool, Fail> {
    reader.take(&HEAD)?;
    Ok(reads_head(reader) && longest_is_read(reader, record, 20)? && reader.fed() == 5_243_224)
}

#[test]
fn reads_several_megabytes(rt: HostRuntime) -> Result<(), Fail> {
    let packet = vec![in rt.alloc(); 7; 262_144]?;
    let mut record = Vec::new(rt.alloc());
    put_entry(5, &packet, &mut record)?;
    let mut reader = CaptureReader::new(rt.alloc())?;
    assert!(rt; megabytes_are_read(&mut reader, &record)?);
    Ok(())
}

// A little-endian record at one second and 500,000 microseconds.
const MICROSECONDS: [u8; 18] = [1, 0, 0, 0, 0x20, 0xa1, 7, 0, 2, 0, 0, 0, 62, 0, 0, 0, 8, 9];

// A record at one second and 2,000,000,000 nanoseconds.
const NANOSECONDS: [u8; 17] = [0, 0, 0, 1, 0x77, 0x35, 0x94, 0, 0, 0, 0, 1, 0, 0, 0, 1, 5];

// The head of a record that says that it has 262,145 octets.
const LONG: [u8; 16] = [0, 0, 0, 1, 0, 0, 0, 0, 0, 4, 0, 1, 0, 4, 0, 1];

// What a pcapng file begins with.
const SECTION: [u8; 4] = [0x0a, 0x0d, 0x0d, 0x0a];

// Heads of captures, what stands behind them, and what is shown of both.
const FORMS: [(&[u8], &[u8], &str); 7] = [
    (
        &LITTLE,
        &MICROSECONDS,
        "Head { link: Ethernet }\nPacket(Packet { time: 1500000000, original: 62, octets: [8, 9] })\nwhole\n",
    ),
    (
        &HEAD,
        &NANOSECONDS,
        "Head { link: Raw }\nPacket(Packet { time: 3000000000, original: 1, octets: [5] })\nwhole\n",
    ),
    (&HEAD, &[], "Head { link: Raw }\nwhole\n"),
    (&SECTION, &[], "Magic { found: 168627466 } at 0\n"),
    (&COOKED, &[], "Link { found: 113 } at 0\n"),
    (
        &HEAD,
        &LONG,
        "Head { link: Raw }\nRecordLong { found: 262145 } at 24\n",
    ),
    (&[], &[], "Short { have: 0 } at 0\n"),
];

// Whether a head and what stands behind it are shown so, whole and octet by octet.
fn is_shown(alloc: Global, head: &[u8], rest: &[u8], expected: &str) -> Result<bool, Fail> {
    let mut capture = head.to_vec(alloc)?;
    capture.extend_from_slice(rest)?;
    is_classic(alloc, &capture, &[1, 65_536], expected)
}

// Whether each of these is.
fn all_are_shown(alloc: Global, cases: &[(&[u8], &[u8], &str)]) -> Result<bool, Fail> {
    for (head, rest, expected) in cases {
        if !is_shown(alloc, head, rest, expected)? {
            return Ok(false);
        }
    }
    Ok(true)
}

#[test]
fn reads_each_form_and_fault(rt: HostRuntime) -> Result<(), Fail> {
    let alloc = rt.alloc();
    assert!(rt; all_are_shown(alloc, &FORMS)?);
    let cut_head = "Short { have: 23 } at 0\n";
    assert!(rt; is_shown(alloc, &HEAD[..23], &[], cut_head)?);
    let cut_record = "Head { link: Raw }\nShort { have: 15 } at 24\n";
    assert!(rt; is_shown(alloc, &HEAD, &LONG[..15], cut_record)?);
    Ok(())
}

// The octets of those records.
const RECORDS: [u8; 34] = [
    0, 0, 0, 1, 0, 0, 7, 0xd0, 0, 0, 0, 2, 0, 0, 0, 2, 7, 8, //
    0, 0, 0, 1, 0, 0, 0, 1, 0, 0, 0, 0, 0, 0, 0, 0,
];

// Whether these are the octets of a head and of what stands behind it.
fn is_both(octets: &[u8], head: &[u8], rest: &[u8]) -> bool {
    octets.strip_prefix(head) == Some(rest)
}

#[test]
fn writes(rt: HostRuntime) -> Result<(), Fail> {
    let mut out = classic(rt.alloc())?;
    put_entry(1_000_002_000, &[7, 8], &mut out)?;
    put_entry(4_294_967_297_000_000_001, &[], &mut out)?;
    assert!(rt; is_both(&out, &HEAD, &RECORDS));
    Ok(())
}

// Times, and the place of the one that is picked.
const PICKS: [(&[Option<u64>], Option<usize>); 3] = [
    (&[Some(5), None, Some(5), Some(4)], Some(3)),
    (&[Some(5), None, Some(5)], Some(0)),
    (&[None], None),
];

// Whether each place is picked.
fn all_are_picked(cases: &[(&[Option<u64>], Option<usize>)]) -> bool {
    for (times, place) in cases {
        if pick(times) != *place {
            return false;
        }
    }
    true
}

#[test]
fn picks_the_first_of_the_least(rt: HostRuntime) {
    assert!(rt; all_are_picked(&PICKS));
}
