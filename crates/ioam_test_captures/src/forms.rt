//! Records of a capture in the form pcapng, and the same of classic captures.
use crate::puts::blocks;
use crate::shown::{all_are_shown, is_shown};
use std::test::Fail;

// A section, little-endian, of two interfaces, of Ethernet and of IP, and a record of each.
const LITTLE: [u8; 144] = [
    0x0a, 0x0d, 0x0d, 0x0a, 0x1c, 0, 0, 0, 0x4d, 0x3c, 0x2b, 0x1a, 1, 0, 0, 0, //
    0xff, 0xff, 0xff, 0xff, 0xff, 0xff, 0xff, 0xff, 0x1c, 0, 0, 0, //
    1, 0, 0, 0, 0x14, 0, 0, 0, 1, 0, 0, 0, 0, 0, 4, 0, 0x14, 0, 0, 0, //
    1, 0, 0, 0, 0x14, 0, 0, 0, 101, 0, 0, 0, 0, 0, 4, 0, 0x14, 0, 0, 0, //
    6, 0, 0, 0, 0x24, 0, 0, 0, 1, 0, 0, 0, 0, 0, 0, 0, 0x60, 0xe3, 0x16, 0, //
    2, 0, 0, 0, 62, 0, 0, 0, 8, 9, 0, 0, 0x24, 0, 0, 0, //
    6, 0, 0, 0, 0x28, 0, 0, 0, 0, 0, 0, 0, 0, 0, 0, 0, 0x87, 0x84, 0x1e, 0, //
    5, 0, 0, 0, 5, 0, 0, 0, 10, 20, 30, 40, 50, 0, 0, 0, 0x28, 0, 0, 0,
];

// A section, big-endian, of two interfaces, of IPv6 and of Ethernet, and a record of each.
const BIG: [u8; 136] = [
    0x0a, 0x0d, 0x0d, 0x0a, 0, 0, 0, 0x1c, 0x1a, 0x2b, 0x3c, 0x4d, 0, 1, 0, 0, //
    0xff, 0xff, 0xff, 0xff, 0xff, 0xff, 0xff, 0xff, 0, 0, 0, 0x1c, //
    0, 0, 0, 1, 0, 0, 0, 0x14, 0, 229, 0, 0, 0, 4, 0, 0, 0, 0, 0, 0x14, //
    0, 0, 0, 1, 0, 0, 0, 0x14, 0, 1, 0, 0, 0, 4, 0, 0, 0, 0, 0, 0x14, //
    0, 0, 0, 6, 0, 0, 0, 0x20, 0, 0, 0, 0, 0, 0, 0, 0, 0, 0x2d, 0xc6, 0xc0, //
    0, 0, 0, 0, 0, 0, 1, 0, 0, 0, 0, 0x20, //
    0, 0, 0, 6, 0, 0, 0, 0x24, 0, 0, 0, 1, 0, 0, 0, 0, 0, 0x2d, 0xc6, 0xc1, //
    0, 0, 0, 1, 0, 0, 0, 1, 5, 0, 0, 0, 0, 0, 0, 0x24,
];

// Classic captures: of IP, little-endian; and of Ethernet, big-endian; both in microseconds.
const IP: [u8; 58] = [
    0xd4, 0xc3, 0xb2, 0xa1, 2, 0, 4, 0, 0, 0, 0, 0, 0, 0, 0, 0, 0, 0, 4, 0, 101, 0, 0, 0, //
    1, 0, 0, 0, 0x20, 0xa1, 7, 0, 2, 0, 0, 0, 62, 0, 0, 0, 8, 9, //
    3, 0, 0, 0, 0, 0, 0, 0, 0, 0, 0, 0, 0, 1, 0, 0,
];

const ETHERNET: [u8; 62] = [
    0xa1, 0xb2, 0xc3, 0xd4, 0, 2, 0, 4, 0, 0, 0, 0, 0, 0, 0, 0, 0, 4, 0, 0, 0, 0, 0, 1, //
    0, 0, 0, 2, 0, 0, 0, 7, 0, 0, 0, 5, 0, 0, 0, 5, 10, 20, 30, 40, 50, //
    0, 0, 0, 3, 0, 0, 0, 1, 0, 0, 0, 1, 0, 0, 0, 1, 5,
];

// The records in the order of their times.
const FIRST: &str =
    "Packet { link: Raw, packet: Packet { time: 1500000000, original: 62, octets: [8, 9] } }";

const SECOND: &str =
    "Packet { link: Ethernet, packet: Packet { time: 2000007000, original: 5, octets: [10, 20, 30, 40, 50] } }";

const THIRD: &str =
    "Packet { link: Raw, packet: Packet { time: 3000000000, original: 256, octets: [] } }";

const FOURTH: &str =
    "Packet { link: Ethernet, packet: Packet { time: 3000001000, original: 1, octets: [5] } }";

#[test]
fn reads_the_same_of_either_form(rt: HostRuntime) -> Result<(), Fail> {
    let alloc = rt.alloc();
    let mut sections = LITTLE.to_vec(alloc)?;
    sections.extend_from_slice(&BIG)?;
    assert!(rt; is_shown(alloc, &sections, &[FIRST, SECOND, THIRD, FOURTH, "whole"])?);
    assert!(rt; is_shown(alloc, &IP, &[FIRST, THIRD, "whole"])?);
    assert!(rt; is_shown(alloc, &ETHERNET, &[SECOND, FOURTH, "whole"])?);
    Ok(())
}

// A block of type 3.
const KIND: [u8; 16] = [0, 0, 0, 3, 0, 0, 0, 16, 0, 0, 0, 0, 0, 0, 0, 16];

// Captures that are cut to so many octets, and what is shown of them.
const CUT: [(&[u8], usize, &[&str]); 4] = [
    (&LITTLE, 4, &["Short { have: 4 } at 0"]),
    (&LITTLE, 3, &["Short { have: 3 } at 0"]),
    (&IP, 57, &[FIRST, "Short { have: 15 } at 42"]),
    (&KIND, 16, &["Magic { found: 3 } at 0"]),
];

#[test]
fn says_the_faults_of_either_form(rt: HostRuntime) -> Result<(), Fail> {
    let alloc = rt.alloc();
    let mut kind = blocks(alloc)?;
    kind.extend_from_slice(&KIND)?;
    assert!(rt; is_shown(alloc, &kind, &["Kind { found: 3 } at 92"])?);
    assert!(rt; all_are_shown(alloc, &CUT)?);
    Ok(())
}
