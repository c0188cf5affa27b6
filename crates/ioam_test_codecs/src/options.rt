//! The lines of IOAM options. Octets by hand, from the formats of RFC 8200, RFC 9197 and RFC 9486.
use ioam_base::memory::NoMemory;
use ioam_base::text::append;
use ioam_ip::{Framed, Walk, packet_of, walk};
use ioam_report_options::{count_options, put_options};
use std::alloc::Global;

// How many options a packet with this Destination Options header has, and their lines.
fn listed(alloc: Global, header: &[u8]) -> Result<(usize, Vec<u8>), NoMemory> {
    let mut octets = Vec::new(alloc);
    let size = (header.len() % 256) as u8;
    append(&mut octets, &[0x60, 0, 0, 0, 0, size, 60, 64])?;
    append(&mut octets, &[0; 32])?;
    append(&mut octets, header)?;
    let mut out = Vec::new(alloc);
    if let Framed::Packet(packet) = packet_of(false, false, &octets) {
        if let Walk::Whole { .. } = walk(packet) {
            put_options(packet, &mut out)?;
            return Ok((count_options(packet), out));
        }
    }
    Ok((0, out))
}

const HEADERS: [(&[u8], usize, &[u8]); 3] = [
    (&[59, 0, 0x31, 1, 0, 1, 1, 0], 1, b"  31 at 42 short\n"),
    // Another option.
    (&[59, 0, 0x12, 2, 0, 0, 0, 0], 0, b""),
    (
        &[59, 1, 0x11, 4, 0, 2, 0xAB, 0xCD, 0x31, 2, 0, 5, 1, 2, 0, 0],
        2,
        b"  11 at 42 proof abcd\n  31 at 48 other 5 -\n",
    ),
];

// Whether the options of each header are so many, and have these lines.
fn all_are(alloc: Global, rows: &[(&[u8], usize, &[u8])]) -> Result<bool, NoMemory> {
    for (header, count, lines) in rows {
        let (many, out) = listed(alloc, header)?;
        if many != *count || out.as_slice() != *lines {
            return Ok(false);
        }
    }
    Ok(true)
}

#[test]
fn options_have_lines(rt: HostRuntime) {
    assert!(rt; all_are(rt.alloc(), &HEADERS).expect(&rt, "memory"));
}
