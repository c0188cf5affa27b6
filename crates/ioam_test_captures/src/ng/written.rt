//! What is written, and that it is read back.
use crate::puts::{blocks, put_block};
use crate::shown::is_shown;
use ioam_pcap::{Link, Packet};
use std::test::Fail;

// A section, big-endian, and two interfaces in nanoseconds: of IP, and of Ethernet.
pub(crate) const HEAD: [u8; 92] = [
    0x0a, 0x0d, 0x0d, 0x0a, 0, 0, 0, 0x1c, 0x1a, 0x2b, 0x3c, 0x4d, 0, 1, 0, 0, //
    0xff, 0xff, 0xff, 0xff, 0xff, 0xff, 0xff, 0xff, 0, 0, 0, 0x1c, //
    0, 0, 0, 1, 0, 0, 0, 0x20, 0, 0x65, 0, 0, 0, 4, 0, 0, //
    0, 9, 0, 1, 9, 0, 0, 0, 0, 0, 0, 0, 0, 0, 0, 0x20, //
    0, 0, 0, 1, 0, 0, 0, 0x20, 0, 1, 0, 0, 0, 4, 0, 0, //
    0, 9, 0, 1, 9, 0, 0, 0, 0, 0, 0, 0, 0, 0, 0, 0x20,
];

// Two packets behind it: of 48 octets at one second, and of 5 at 2^32 nanoseconds.
const LONG: [u8; 28] = [
    0, 0, 0, 6, 0, 0, 0, 0x50, 0, 0, 0, 0, 0, 0, 0, 0, 0x3b, 0x9a, 0xca, 0, //
    0, 0, 0, 0x30, 0, 0, 0, 0x30,
];

const SHORT: [u8; 40] = [
    0, 0, 0, 6, 0, 0, 0, 0x28, 0, 0, 0, 1, 0, 0, 0, 1, 0, 0, 0, 0, //
    0, 0, 0, 5, 0, 0, 0, 9, 1, 2, 3, 4, 5, 0, 0, 0, 0, 0, 0, 0x28,
];

const READ: [&str; 3] = [
    "Packet { link: Raw, packet: Packet { time: 1000000000, original: 48, octets: [96, 96, 96, 96, 96, 96, 96, 96, 96, 96, 96, 96, 96, 96, 96, 96, 96, 96, 96, 96, 96, 96, 96, 96, 96, 96, 96, 96, 96, 96, 96, 96, 96, 96, 96, 96, 96, 96, 96, 96, 96, 96, 96, 96, 96, 96, 96, 96] } }",
    "Packet { link: Ethernet, packet: Packet { time: 4294967296, original: 9, octets: [1, 2, 3, 4, 5] } }",
    "whole",
];

// The packets.
const RAW: Packet<'static> = Packet {
    time: 1_000_000_000,
    original: 48,
    octets: &[0x60; 48],
};

const ETHERNET: Packet<'static> = Packet {
    time: 4_294_967_296,
    original: 9,
    octets: &[1, 2, 3, 4, 5],
};

// Whether the head and both packets are written so, the octets of the long one aside.
fn are_written(out: &[u8], head: &[u8], long: &[u8], short: &[u8]) -> bool {
    out.get(..92) == Some(head)
        && out.get(92..120) == Some(long)
        && out.get(171) == Some(&0x50)
        && out.get(172..) == Some(short)
}

#[test]
fn writes_and_reads_back(rt: HostRuntime) -> Result<(), Fail> {
    let alloc = rt.alloc();
    let mut out = blocks(alloc)?;
    put_block(Link::Raw, RAW, &mut out)?;
    put_block(Link::Ethernet, ETHERNET, &mut out)?;
    assert!(rt; are_written(&out, &HEAD, &LONG, &SHORT));
    assert!(rt; is_shown(alloc, &out, &READ)?);
    Ok(())
}
