//! Edge-to-edge data.
ghost use Rattle.std.specs.Prelude.{◌≡◌, ◌≤◌};
ghost use Rattle.ioam_edge.specs.Edge.{HasItsFields, asks};

use ioam_data::Namespace;
use ioam_edge::{Edge, EdgeFault, Note, Receiver, Tally, put, read};
use std::alloc::Global;
use std::test::Fail;

// The octets of namespace 7 and the types 0x0000, 0x1000, .. 0xF000.
const OCTETS: [&[u8]; 16] = [
    &[0, 7, 0x00, 0],
    &[0, 7, 0x10, 0, 0x31, 0x32, 0x33, 0x34],
    &[0, 7, 0x20, 0, 0x21, 0x22, 0x23, 0x24],
    &[
        0, 7, 0x30, 0, 0x21, 0x22, 0x23, 0x24, 0x31, 0x32, 0x33, 0x34,
    ],
    &[0, 7, 0x40, 0, 0x11, 0x12, 0x13, 0x14],
    &[
        0, 7, 0x50, 0, 0x11, 0x12, 0x13, 0x14, 0x31, 0x32, 0x33, 0x34,
    ],
    &[
        0, 7, 0x60, 0, 0x11, 0x12, 0x13, 0x14, 0x21, 0x22, 0x23, 0x24,
    ],
    &[
        0, 7, 0x70, 0, 0x11, 0x12, 0x13, 0x14, 0x21, 0x22, 0x23, 0x24, 0x31, 0x32, 0x33, 0x34,
    ],
    &[0, 7, 0x80, 0, 1, 2, 3, 4, 5, 6, 7, 8],
    &[
        0, 7, 0x90, 0, 1, 2, 3, 4, 5, 6, 7, 8, 0x31, 0x32, 0x33, 0x34,
    ],
    &[
        0, 7, 0xA0, 0, 1, 2, 3, 4, 5, 6, 7, 8, 0x21, 0x22, 0x23, 0x24,
    ],
    &[
        0, 7, 0xB0, 0, 1, 2, 3, 4, 5, 6, 7, 8, 0x21, 0x22, 0x23, 0x24, 0x31, 0x32, 0x33, 0x34,
    ],
    &[
        0, 7, 0xC0, 0, 1, 2, 3, 4, 5, 6, 7, 8, 0x11, 0x12, 0x13, 0x14,
    ],
    &[
        0, 7, 0xD0, 0, 1, 2, 3, 4, 5, 6, 7, 8, 0x11, 0x12, 0x13, 0x14, 0x31, 0x32, 0x33, 0x34,
    ],
    &[
        0, 7, 0xE0, 0, 1, 2, 3, 4, 5, 6, 7, 8, 0x11, 0x12, 0x13, 0x14, 0x21, 0x22, 0x23, 0x24,
    ],
    &[
        0, 7, 0xF0, 0, 1, 2, 3, 4, 5, 6, 7, 8, 0x11, 0x12, 0x13, 0x14, 0x21, 0x22, 0x23, 0x24,
        0x31, 0x32, 0x33, 0x34,
    ],
];

// Whether a type asks for the field of a bit, 0 to 15 and the most significant first.
#[tactic(auto, unfolding(ioam_edge::specs::Edge::asks))]
fn asks(kind: u16, bit: u8) -> bool
    requires { bit ≤ 15 }
    ensures { result ≡ asks kind bit }
{
    (kind >> (15 - bit)) % 2 == 1
}

// The value of a type, its numbers those of OCTETS.
fn edge_of(kind: u16) -> Edge
    ensures fields { HasItsFields result }
    ensures kind { result.kind ≡ kind }
{
    let seq64 = if asks(kind, 0) {
        Some(0x0102_0304_0506_0708)
    } else {
        None
    };
    let seq32 = if asks(kind, 1) {
        Some(0x1112_1314)
    } else {
        None
    };
    let seconds = if asks(kind, 2) {
        Some(0x2122_2324)
    } else {
        None
    };
    let fraction = if asks(kind, 3) {
        Some(0x3132_3334)
    } else {
        None
    };
    Edge {
        namespace: Namespace(7),
        kind,
        seq64,
        seq32,
        seconds,
        fraction,
    }
}

// Whether the value of a type is written so, and read again.
fn is_both(alloc: Global, octets: &[u8], kind: u16) -> Result<bool, Fail> {
    let edge = edge_of(kind % 16 * 4096);
    let mut out = Vec::new(alloc);
    put(&edge, &mut out)?;
    Ok(out.as_slice() == octets && read(octets) == Ok(edge))
}

// Whether the values of all types are.
fn all_are_both(alloc: Global, rows: &[&[u8]]) -> Result<bool, Fail> {
    for (octets, kind) in rows.iter().zip(0..16) {
        if !is_both(alloc, octets, kind)? {
            return Ok(false);
        }
    }
    Ok(true)
}

#[test]
fn each_type_is_written_and_read(rt: HostRuntime) -> Result<(), Fail> {
    assert!(rt; all_are_both(rt.alloc(), &OCTETS)?);
    Ok(())
}

// Octets that are cut off, how many there are, and how many are wanted.
const SHORT: [(&[u8], u32, u32); 5] = [
    (&[], 0, 4),
    (&[0, 7, 0x40], 3, 4),
    (&[0, 7, 0x40, 0, 0, 0], 6, 8),
    (&[0, 7, 0x8F, 0xFF, 1, 2, 3, 4, 5, 6, 7], 11, 12),
    (
        &[
            0, 7, 0xF0, 0, 1, 2, 3, 4, 5, 6, 7, 8, 0x11, 0x12, 0x13, 0x14, 0x21, 0x22, 0x23, 0x24,
            0x31, 0x32, 0x33,
        ],
        23,
        24,
    ),
];

// Whether each of these is refused so.
fn all_are_short(cases: &[(&[u8], u32, u32)]) -> bool {
    for (octets, have, wanted) in cases {
        let fault = EdgeFault::Short {
            have: *have,
            wanted: *wanted,
        };
        if read(octets) != Err(fault) {
            return false;
        }
    }
    true
}

// Whether the 32-bit sequence number 9 is read of a type with bits that are not known.
fn is_read_of_unknown(octets: &[u8]) -> bool {
    match read(octets) {
        Ok(edge) => edge.seq32 == Some(9) && edge.kind == 0x4FFF,
        Err(_) => false,
    }
}

#[test]
fn short_data_is_refused(rt: HostRuntime) {
    assert!(rt; all_are_short(&SHORT));
    // What follows for bits that are not known is left unread.
    assert!(rt; is_read_of_unknown(&[0, 7, 0x4F, 0xFF, 0, 0, 0, 9, 0xAA]));
}

// Numbers near one another, and what is noted of each.
const NEAR: [(u64, Note); 5] = [
    (0, Note::Next),
    (2, Note::Gap { missed: 1 }),
    (1, Note::Late),
    (1, Note::Repeat),
    (5, Note::Gap { missed: 2 }),
];

// Numbers far apart, and what is noted of each.
const FAR: [(u64, Note); 11] = [
    (37, Note::Gap { missed: 37 }),
    (36, Note::Late),
    (100, Note::Gap { missed: 62 }),
    (100, Note::Repeat),
    (37, Note::Repeat),
    (36, Note::Late),
    (38, Note::Late),
    (38, Note::Repeat),
    (
        u64::MAX,
        Note::Gap {
            missed: u64::MAX - 101,
        },
    ),
    (u64::MAX, Note::Repeat),
    (u64::MAX - 64, Note::Late),
];

// Whether a receiver notes this of each number.
fn all_noted(receiver: &mut Receiver, cases: &[(u64, Note)]) -> bool {
    for (number, note) in cases {
        if receiver.note(*number) != *note {
            return false;
        }
    }
    true
}

// What is noted of each in all.
const NEAR_IN_ALL: Tally = Tally {
    next: Some(6),
    gaps: 2,
    missed: 3,
    late: 1,
    repeats: 1,
};

const FAR_IN_ALL: Tally = Tally {
    next: None,
    gaps: 3,
    missed: u64::MAX - 2,
    late: 4,
    repeats: 4,
};

// Whether a receiver notes this of each number, and that in all.
fn are_noted(cases: &[(u64, Note)], tally: &Tally) -> bool {
    let mut receiver = Receiver::new();
    all_noted(&mut receiver, cases) && receiver.tally() == *tally
}

#[test]
fn numbers_are_noted(rt: HostRuntime) {
    assert!(rt; are_noted(&NEAR, &NEAR_IN_ALL));
    assert!(rt; are_noted(&FAR, &FAR_IN_ALL));
}
