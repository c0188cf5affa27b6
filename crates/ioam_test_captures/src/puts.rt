//! The calls that write captures, each behind a look at what it needs, without contracts, so that what
//! goes through them is soon proved.
use ioam_ng::{put_ng_head, put_ng_packet};
use ioam_pcap::{Link, Packet, put_head, put_record};
use std::alloc::Global;
use std::test::Fail;

/// The front of a capture in the form pcapng.
pub(crate) fn blocks(alloc: Global) -> Result<Vec<u8>, Fail> {
    let mut out = Vec::new(alloc);
    put_ng_head(&mut out)?;
    Ok(out)
}

/// The head of a classic capture.
pub(crate) fn classic(alloc: Global) -> Result<Vec<u8>, Fail> {
    let mut out = Vec::new(alloc);
    put_head(&mut out)?;
    Ok(out)
}

/// Writes the block of a packet.
pub(crate) fn put_block(link: Link, packet: Packet<'_>, out: &mut Vec<u8>) -> Result<(), Fail> {
    if packet.octets.len() > 262_144 || packet.time >= 4_611_686_018_427_387_904 {
        return Err(Fail::from("not to be written"));
    }
    put_ng_packet(link, &packet, out)?;
    Ok(())
}

/// Writes a record of a classic capture.
pub(crate) fn put_entry(time: u64, octets: &[u8], out: &mut Vec<u8>) -> Result<(), Fail> {
    if octets.len() > 262_144 {
        return Err(Fail::from("not to be written"));
    }
    put_record(time, octets, out)?;
    Ok(())
}
