//! What is due of a capture, and the turn of several.
use crate::ng::faults::sections;
use crate::puts::{blocks, classic, put_block, put_entry};
use crate::shown::Shows;
use ioam_capture::{Due, Reader, Step, Turn, next_turn};
use ioam_pcap::{CapFault, Link, Packet};
use std::alloc::Global;
use std::test::Fail;

const FAULT: CapFault = CapFault::Short { have: 7 };

const SOON: Due = Due::Record { time: 4 };

const LATE: Due = Due::Record { time: 5 };

const BAD: Due = Due::Bad {
    at: 24,
    fault: FAULT,
};

const FRONT: Due = Due::Bad {
    at: 0,
    fault: FAULT,
};

// What is due of some captures, and whose turn it is.
const TURNS: [(&[Due], Turn); 8] = [
    (&[], Turn::Over),
    (&[Due::End, Due::End], Turn::Over),
    (
        &[LATE, SOON, Due::End, SOON],
        Turn::Next { place: 1, time: 4 },
    ),
    (&[SOON, LATE, SOON], Turn::Next { place: 0, time: 4 }),
    (
        &[SOON, BAD, FRONT],
        Turn::Broken {
            place: 1,
            at: 24,
            fault: FAULT,
        },
    ),
    (&[SOON, Due::More], Turn::Unshown),
    (&[BAD, Due::More], Turn::Unshown),
    (&[Due::More, BAD, SOON], Turn::Unshown),
];

// Whether it is the turn of each.
fn all_are_turns(cases: &[(&[Due], Turn)]) -> bool {
    for (dues, turn) in cases {
        if next_turn(dues) != *turn {
            return false;
        }
    }
    true
}

#[test]
fn takes_the_first_of_the_least(rt: HostRuntime) {
    assert!(rt; all_are_turns(&TURNS));
}

// Whether this is due of a reader.
fn is_due(reader: &mut Reader, ended: bool, due: Due) -> Result<bool, Fail> {
    Ok(reader.due(ended)? == due)
}

// Whether a reader takes the next record.
fn takes_one(reader: &mut Reader) -> bool {
    matches!(reader.next(), Step::Packet { .. })
}

// Whether a reader of one record tells when it is due, and when none is.
fn tells_of_one(reader: &mut Reader) -> Result<bool, Fail> {
    let first = Due::Record { time: 5 };
    Ok(
        is_due(reader, false, first)?
            && is_due(reader, true, first)?
            && takes_one(reader)
            && is_due(reader, false, Due::More)?
            && is_due(reader, true, Due::End)?,
    )
}

// Whether a reader that was fed nothing tells of nothing, or of a cut capture.
fn tells_of_none(reader: &mut Reader) -> Result<bool, Fail> {
    let fault = CapFault::Short { have: 0 };
    Ok(is_due(reader, false, Due::More)? && is_due(reader, true, Due::Bad { at: 0, fault })?)
}

// Whether a reader tells of a capture of one record, before it is fed and after.
fn tells_of(alloc: Global, capture: &[u8]) -> Result<bool, Fail> {
    let mut reader = Reader::new(alloc)?;
    if !tells_of_none(&mut reader)? {
        return Ok(false);
    }
    reader.take(capture)?;
    tells_of_one(&mut reader)
}

// A packet of two octets, five nanoseconds after the first moment.
const TINY: Packet<'static> = Packet {
    time: 5,
    original: 2,
    octets: &[7, 8],
};

// A capture in the form pcapng with that packet.
fn in_blocks(alloc: Global) -> Result<Vec<u8>, Fail> {
    let mut capture = blocks(alloc)?;
    put_block(Link::Ethernet, TINY, &mut capture)?;
    Ok(capture)
}

// A classic one.
fn in_entries(alloc: Global) -> Result<Vec<u8>, Fail> {
    let mut capture = classic(alloc)?;
    put_entry(5, &[7, 8], &mut capture)?;
    Ok(capture)
}

#[test]
fn tells_what_is_due(rt: HostRuntime) -> Result<(), Fail> {
    let alloc = rt.alloc();
    assert!(rt; tells_of(alloc, &in_blocks(alloc)?)?);
    assert!(rt; tells_of(alloc, &in_entries(alloc)?)?);
    Ok(())
}

// Whether a reader that is fed the sections tells of the packet, and behind it of the fault.
fn tells_of_sections(alloc: Global, sections: &[u8]) -> Result<bool, Fail> {
    let mut reader = Reader::new(alloc)?;
    reader.take(sections)?;
    let packet = Due::Record { time: 500_000_000 };
    let fault = CapFault::Face { found: 0 };
    Ok(
        is_due(&mut reader, false, packet)?
            && takes_one(&mut reader)
            && is_due(&mut reader, false, Due::Bad { at: 148, fault })?,
    )
}

#[test]
fn tells_what_is_due_of_sections(rt: HostRuntime) -> Result<(), Fail> {
    assert!(rt; tells_of_sections(rt.alloc(), sections())?);
    Ok(())
}
