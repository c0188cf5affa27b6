//! Blocks with a fault, other orders, resolutions and sections.
use crate::ng::written::HEAD;
use crate::shown::{all_are_shown, is_shown};
use std::alloc::Global;
use std::test::Fail;

// A section, little-endian, with an interface of IPv6 whose times are in 2^-10 seconds, ten seconds
// earlier, a packet at 10.5 seconds of it, a block that is skipped, a second section of which no
// interface is known, and a packet in it.
const SECTIONS: [u8; 180] = [
    0x0a, 0x0d, 0x0d, 0x0a, 0x1c, 0, 0, 0, 0x4d, 0x3c, 0x2b, 0x1a, 1, 0, 0, 0, //
    0xff, 0xff, 0xff, 0xff, 0xff, 0xff, 0xff, 0xff, 0x1c, 0, 0, 0, //
    1, 0, 0, 0, 0x2c, 0, 0, 0, 229, 0, 0, 0, 0, 0, 4, 0, //
    9, 0, 1, 0, 0x8a, 0, 0, 0, 14, 0, 8, 0, 0xf6, 0xff, 0xff, 0xff, 0xff, 0xff, 0xff, 0xff, //
    0, 0, 0, 0, 0x2c, 0, 0, 0, //
    6, 0, 0, 0, 0x24, 0, 0, 0, 0, 0, 0, 0, 0, 0, 0, 0, 0, 0x2a, 0, 0, //
    2, 0, 0, 0, 2, 0, 0, 0, 7, 8, 0, 0, 0x24, 0, 0, 0, //
    5, 0, 0, 0, 0x0c, 0, 0, 0, 0x0c, 0, 0, 0, //
    0x0a, 0x0d, 0x0d, 0x0a, 0, 0, 0, 0x1c, 0x1a, 0x2b, 0x3c, 0x4d, 0, 1, 0, 0, //
    0xff, 0xff, 0xff, 0xff, 0xff, 0xff, 0xff, 0xff, 0, 0, 0, 0x1c, //
    0, 0, 0, 6, 0, 0, 0, 0x20, 0, 0, 0, 0, 0, 0, 0, 0, 0, 0, 0, 0, //
    0, 0, 0, 0, 0, 0, 0, 0, 0, 0, 0, 0x20,
];

/// The octets of [`SECTIONS`].
pub(crate) fn sections() -> &'static [u8] {
    &SECTIONS
}

// A block of type 3 behind a head.
const KIND: [u8; 16] = [0, 0, 0, 3, 0, 0, 0, 16, 0, 0, 0, 0, 0, 0, 0, 16];

// Captures that are cut to so many octets, and what is shown of them.
const FAULTY: [(&[u8], usize, &[&str]); 3] = [
    (
        &SECTIONS,
        180,
        &[
            "Packet { link: Raw, packet: Packet { time: 500000000, original: 2, octets: [7, 8] } }",
            "Face { found: 0 } at 148",
        ],
    ),
    (&KIND, 4, &["Magic { found: 3 } at 0"]),
    (&HEAD, 4, &["Short { have: 4 } at 0"]),
];

// Whether such a block behind a head is shown so, and where it is cut before its last octet.
fn kind_is_shown(alloc: Global, head: &[u8]) -> Result<bool, Fail> {
    let mut capture = head.to_vec(alloc)?;
    capture.extend_from_slice(&KIND)?;
    let cut = capture.get(..107).ok_or("too short")?;
    Ok(
        is_shown(alloc, &capture, &["Kind { found: 3 } at 92"])?
            && is_shown(alloc, cut, &["Short { have: 15 } at 92"])?,
    )
}

#[test]
fn says_the_faults_of_blocks(rt: HostRuntime) -> Result<(), Fail> {
    let alloc = rt.alloc();
    assert!(rt; all_are_shown(alloc, &FAULTY)?);
    assert!(rt; kind_is_shown(alloc, &HEAD)?);
    Ok(())
}
