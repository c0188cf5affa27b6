//! Octets by hand, from the RFCs' formats.
ghost use Rattle.std.specs.Prelude.{◌<◌, ◌^◌};

use ioam_base::memory::NoMemory;
use ioam_base::text::append;
use ioam_ip::{Framed, Header, Walk, header, packet_of, put_header, walk};
use std::alloc::Global;
use std::test::Fail;

/// A packet of 48 octets with 8 octets of UDP header.
pub(crate) const UDP: [u8; 48] = [
    0x60, 0, 0, 0, 0, 8, 17, 64, 0x20, 0x01, 0x0D, 0xB8, 0, 1, 0, 0, 0, 0, 0, 0, 0, 0, 0, 1, 0x20,
    0x01, 0x0D, 0xB8, 0, 2, 0, 0, 0, 0, 0, 0, 0, 0, 0, 1, 4, 0, 4, 1, 0, 8, 0, 0,
];

/// A header with 32 octets of 0 as its addresses: its first 8 octets.
const NESTED_HOP: [u8; 8] = [0x60, 0, 0, 0, 0, 8, 0, 64];

const NESTED_TARGET: [u8; 8] = [0x60, 0, 0, 0, 0, 8, 60, 64];

const NESTED_LONG: [u8; 8] = [0x60, 0, 0, 0, 0xFF, 0xFF, 59, 64];

const NESTED_FOUR: [u8; 8] = [0x45, 0, 0, 0, 0, 8, 59, 64];

const ADDRESSES: [u8; 32] = [0; 32];

// A packet with these octets behind its header.
pub(crate) fn packet(
    alloc: Global,
    next: u8,
    front: &[u8],
    middle: &[u8],
    back: &[u8],
) -> Result<Vec<u8>, NoMemory> {
    let mut octets = Vec::new(alloc);
    let size = (front.len() % 16384 + middle.len() % 16384 + back.len() % 16384) as u16;
    append(&mut octets, &[0x60, 0, 0, 0])?;
    append(&mut octets, &size.to_be_bytes())?;
    append(&mut octets, &[next, 64])?;
    append(&mut octets, &ADDRESSES)?;
    append(&mut octets, front)?;
    append(&mut octets, middle)?;
    append(&mut octets, back)?;
    Ok(octets)
}

pub(crate) fn walked(octets: &[u8]) -> Option<Walk> {
    match packet_of(false, false, octets) {
        Framed::Packet(packet) => Some(walk(packet)),
        _ => None,
    }
}

// The header of the UDP packet, with this class and label.
fn udp_header(class: u8, label: u32) -> Header
    requires { label < 2 ^ 20 }
{
    Header {
        class,
        label,
        payload: 8,
        next: 17,
        hops: 64,
        source: 0x2001_0DB8_0001_0000_0000_0000_0000_0001,
        target: 0x2001_0DB8_0002_0000_0000_0000_0000_0001,
    }
}

pub(crate) fn whole(ioam: bool, upper: u8, at: u32, limit: Option<u8>) -> Walk {
    Walk::Whole {
        ioam,
        upper,
        at,
        limit,
    }
}

// Whether a walk carries IOAM, the value and place with which its chain ends, and its limit.
type Ends = (bool, u8, u32, Option<u8>);

// Whole chains: the first next header value, the first header, what stands behind it, and how it ends.
const WHOLE: [(u8, &[u8], &[u8], Ends); 12] = [
    (17, &[4, 0, 4, 1, 0, 8, 0, 0], &[], (false, 17, 40, None)),
    // Behind a Routing header.
    (
        43,
        &[60, 0, 0, 0, 0, 0, 0, 0],
        &[59, 0, 0x11, 4, 0, 0, 0, 0],
        (true, 59, 56, None),
    ),
    // A fragment that isn't the first, and one that is.
    (
        44,
        &[60, 0, 0, 8, 0, 0, 0, 1],
        &[59, 0, 0x11, 4, 0, 0, 0, 0],
        (false, 44, 40, None),
    ),
    (
        44,
        &[60, 0, 0, 1, 0, 0, 0, 1],
        &[59, 0, 0x11, 4, 0, 0, 0, 0],
        (true, 59, 56, None),
    ),
    // The three bits behind the offset are none of it.
    (
        44,
        &[60, 0, 0, 6, 0, 0, 0, 1],
        &[59, 0, 0x11, 4, 0, 0, 0, 0],
        (true, 59, 56, None),
    ),
    // PadN without data.
    (60, &[59, 0, 1, 0, 1, 2, 0, 0], &[], (false, 59, 48, None)),
    // ESP and AH end the chain.
    (50, &[0, 0, 0, 1, 0, 0, 0, 1], &[], (false, 50, 40, None)),
    (
        60,
        &[51, 0, 1, 4, 0, 0, 0, 0],
        &[59, 4, 0, 0],
        (false, 51, 48, None),
    ),
    // The first Tunnel Encapsulation Limit of one data octet, in Destination Options alone.
    (
        60,
        &[59, 1, 4, 2, 9, 9, 4, 1],
        &[5, 4, 1, 6, 1, 2, 0, 0],
        (false, 59, 56, Some(5)),
    ),
    (
        0,
        &[60, 0, 4, 1, 7, 1, 1, 0],
        &[59, 0, 4, 1, 0, 1, 1, 0],
        (false, 59, 56, Some(0)),
    ),
    (0, &[59, 0, 0x31, 1, 7, 1, 1, 0], &[], (true, 59, 48, None)),
    (59, &[], &[], (false, 59, 40, None)),
];

// Chains that break, and the place of the header that breaks each.
const BROKEN: [(u8, &[u8], &[u8], u32); 6] = [
    // Hop-by-Hop Options behind Destination Options.
    (
        60,
        &[0, 0, 1, 4, 0, 0, 0, 0],
        &[59, 0, 1, 4, 0, 0, 0, 0],
        48,
    ),
    // An option that runs one octet past its header, and past the packet.
    (60, &[59, 0, 5, 5, 0, 0, 0, 0], &[0; 8], 40),
    (60, &[59, 0, 5, 5, 0, 0, 0, 0], &[], 40),
    (
        43,
        &[60, 0, 0, 0, 0, 0, 0, 0],
        &[59, 1, 1, 4, 0, 0, 0, 0],
        48,
    ),
    // A lone type octet at the end.
    (60, &[59, 0, 1, 3, 0, 0, 0, 5], &[], 40),
    // Too few octets for a Fragment header.
    (44, &[60, 0, 0, 1], &[], 40),
];

// Whether the walk of such a packet ends so.
fn is_walked(alloc: Global, next: u8, parts: [&[u8]; 3], wanted: Walk) -> Result<bool, NoMemory> {
    let [front, middle, back] = parts;
    let octets = packet(alloc, next, front, middle, back)?;
    Ok(walked(&octets) == Some(wanted))
}

// Whether each chain ends so.
fn all_end(alloc: Global, cases: &[(u8, &[u8], &[u8], Ends)]) -> Result<bool, NoMemory> {
    for (next, front, back, (ioam, upper, at, limit)) in cases {
        let wanted = whole(*ioam, *upper, *at, *limit);
        if !is_walked(alloc, *next, [front, &[], back], wanted)? {
            return Ok(false);
        }
    }
    Ok(true)
}

// Whether each chain breaks there.
fn all_break(alloc: Global, cases: &[(u8, &[u8], &[u8], u32)]) -> Result<bool, NoMemory> {
    for (next, front, back, at) in cases {
        if !is_walked(alloc, *next, [front, &[], back], Walk::Bad { at: *at })? {
            return Ok(false);
        }
    }
    Ok(true)
}

#[test]
fn walks(rt: HostRuntime) -> Result<(), Fail> {
    assert!(rt; all_end(rt.alloc(), &WHOLE)?);
    assert!(rt; all_break(rt.alloc(), &BROKEN)?);
    Ok(())
}

// Headers behind the first, what stands behind each, and how the walk ends.
const NESTED: [(&[u8], &[u8], Ends); 3] = [
    (
        &NESTED_HOP,
        &[59, 0, 0x31, 4, 0, 0, 0, 0],
        (true, 59, 88, None),
    ),
    // Its payload length isn't compared.
    (&NESTED_LONG, &[], (false, 59, 80, None)),
    // A limit behind it isn't the packet's.
    (
        &NESTED_TARGET,
        &[59, 0, 4, 1, 7, 1, 1, 0],
        (false, 59, 88, None),
    ),
];

// Whether the walk of such a packet with a header behind its own ends so.
fn is_nested(alloc: Global, front: &[u8], back: &[u8], wanted: Walk) -> Result<bool, NoMemory> {
    is_walked(alloc, 41, [front, &ADDRESSES, back], wanted)
}

// Whether each ends so.
fn all_end_nested(alloc: Global, cases: &[(&[u8], &[u8], Ends)]) -> Result<bool, NoMemory> {
    for (front, back, (ioam, upper, at, limit)) in cases {
        if !is_nested(alloc, front, back, whole(*ioam, *upper, *at, *limit))? {
            return Ok(false);
        }
    }
    Ok(true)
}

// Whether 2,048 octets of options, all Pad1, are walked.
fn pads_are_walked(alloc: Global) -> Result<bool, NoMemory> {
    let wanted = whole(false, 59, 2088, None);
    is_walked(alloc, 0, [&[59, 255], &[0; 2046], &[]], wanted)
}

#[test]
fn nested(rt: HostRuntime) -> Result<(), Fail> {
    let alloc = rt.alloc();
    assert!(rt; all_end_nested(alloc, &NESTED)?);
    // The version is compared.
    assert!(rt; is_nested(alloc, &NESTED_FOUR, &[], Walk::Bad { at: 40 })?);
    assert!(rt; pads_are_walked(alloc)?);
    Ok(())
}

// A frame of the UDP packet with this Ethertype, and four octets of padding.
fn frame_of(alloc: Global, ethertype: [u8; 2]) -> Result<Vec<u8>, NoMemory> {
    let mut frame = Vec::new(alloc);
    append(&mut frame, &[2, 0, 0, 0, 0, 1, 2, 0, 0, 0, 0, 2])?;
    append(&mut frame, &ethertype)?;
    append(&mut frame, &UDP)?;
    append(&mut frame, &[0; 4])?;
    Ok(frame)
}

// Whether the octets, with an Ethernet header or cut or not, are framed so.
fn is_framed(ethernet: bool, cut: bool, octets: &[u8], wanted: Framed<'_>) -> bool {
    packet_of(ethernet, cut, octets) == wanted
}

// Whether parts of the packet are refused.
fn are_refused(packet: &[u8; 48]) -> bool {
    is_framed(true, true, &packet[..13], Framed::NotIpv6)
        && is_framed(false, false, &packet[..47], Framed::Length)
        && is_framed(false, false, &packet[..39], Framed::Length)
        && is_framed(false, true, &[], Framed::NotIpv6)
}

// Whether a frame of a packet is that packet, and cut off where it was cut.
fn is_framed_whole(frame: &[u8], packet: &[u8]) -> bool {
    is_framed(true, false, frame, Framed::Packet(packet))
        && is_framed(true, true, frame, Framed::Cut)
}

#[test]
fn frames(rt: HostRuntime) -> Result<(), Fail> {
    let frame = frame_of(rt.alloc(), [0x86, 0xDD])?;
    assert!(rt; is_framed_whole(&frame, &UDP));
    let other = frame_of(rt.alloc(), [0x08, 0x00])?;
    assert!(rt; is_framed(true, false, &other, Framed::NotIpv6));
    assert!(rt; are_refused(&UDP));
    Ok(())
}

// Whether a header with a class and a label is written so in front, and then as the packet's own.
fn is_put(octets: &mut [u8; 40], front: &[u8; 4], packet: &[u8; 48]) -> bool {
    put_header(octets, &udp_header(0xAB, 0xC_DE12));
    octets.starts_with(front) && octets[4..] == packet[4..40]
}

// Whether this header is read of the octets.
fn is_header(octets: &[u8], wanted: Option<Header>) -> bool {
    header(octets) == wanted
}

#[test]
fn headers(rt: HostRuntime) {
    let mut octets = [0; 40];
    assert!(rt; is_put(&mut octets, &[0x6A, 0xBC, 0xDE, 0x12], &UDP));
    assert!(rt; is_header(&octets, None));
    assert!(rt; is_header(&UDP, Some(udp_header(0, 0))));
}
