//! The data of traces.
use ioam_data::{Namespace, TraceType, View};
use ioam_trace::{Filled, Incremental, Trace, TraceFault, fill, put_trace};
use std::alloc::Global;
use std::test::Fail;

// The fault of the octets of a trace.
fn fault(octets: &[u8]) -> Option<TraceFault> {
    match Trace::read(octets) {
        Ok(_) => None,
        Err(fault) => Some(fault),
    }
}

// Octets that are no trace, and why.
const FAULTS: [(&[u8], TraceFault); 7] = [
    (&[0, 7, 8, 0, 0x80, 0, 0], TraceFault::Short { have: 7 }),
    (
        &[0, 7, 8, 0, 0x80, 0, 0, 0, 0],
        TraceFault::Short { have: 9 },
    ),
    (
        &[0, 7, 8, 5, 0x80, 0, 0, 0, 0, 0, 0, 0],
        TraceFault::Space { remaining: 5 },
    ),
    (
        &[0, 7, 0x10, 0, 0x80, 0, 0, 0],
        TraceFault::NodeLen {
            found: 2,
            wanted: 1,
        },
    ),
    (
        &[0, 7, 8, 0, 0x80, 8, 0, 0],
        TraceFault::NodeLen {
            found: 1,
            wanted: 2,
        },
    ),
    // A third word where each element has two.
    (
        &[
            0, 7, 0x10, 0, 0xc0, 0, 0, 0, 1, 0, 0, 1, 0, 1, 0, 1, 1, 0, 0, 1,
        ],
        TraceFault::Element { at: 16 },
    ),
    // A snapshot that is not there.
    (
        &[0, 7, 8, 0, 0x80, 0, 2, 0, 1, 0, 0, 1],
        TraceFault::Element { at: 8 },
    ),
];

// Whether each of these is no trace for that reason.
fn all_fail(cases: &[(&[u8], TraceFault)]) -> bool {
    for (octets, found) in cases {
        if fault(octets) != Some(*found) {
            return false;
        }
    }
    true
}

#[test]
fn faults(rt: HostRuntime) {
    assert!(rt; all_fail(&FAULTS));
}

// The length and the first octet of the first two elements, the oldest first, and how many there
// are; a fault has 9 of them.
fn first_two(octets: &[u8]) -> ((usize, u8), (usize, u8), u32) {
    let mut first = (0, 0);
    let mut second = (0, 0);
    let mut count: u32 = 0;
    let Ok(trace) = Trace::read(octets) else {
        return (first, second, 9);
    };
    for element in trace.elements() {
        let head = (element.len(), element.first().copied().unwrap_or(0));
        if count == 0 {
            first = head;
        } else if count == 1 {
            second = head;
        }
        count = count.saturating_add(1);
    }
    (first, second, count)
}

// Octets of traces, and their first two elements.
const ELEMENTS: [(&[u8], ((usize, u8), (usize, u8), u32)); 3] = [
    // RemainingLen is the space.
    (
        &[0, 7, 8, 1, 0x80, 0, 0, 0, 9, 9, 9, 9],
        ((0, 0), (0, 0), 0),
    ),
    // Overflow is set; the newest element stands first.
    (
        &[0, 7, 0x0c, 0, 0x80, 0, 0, 0, 0x3f, 0, 0, 2, 0x40, 0, 0, 1],
        ((4, 0x40), (4, 0x3f), 2),
    ),
    // Undefined bits, and NodeLen above the words; one word is free.
    (
        &[
            0, 7, 0x18, 1, 0x80, 8, 0, 0, 5, 5, 5, 5, 1, 1, 1, 1, 2, 2, 2, 2, 3, 3, 3, 3,
        ],
        ((12, 1), (0, 0), 1),
    ),
];

// Whether each has these.
fn all_have(cases: &[(&[u8], ((usize, u8), (usize, u8), u32))]) -> bool {
    for (octets, first) in cases {
        if first_two(octets) != *first {
            return false;
        }
    }
    true
}

// Whether snapshots without data and with 45 words are two elements.
fn long_has_two() -> bool {
    let mut long = [0; 204];
    long[2] = 8;
    long[4] = 0x80;
    long[6] = 2;
    long[8] = 63;
    long[12] = 45;
    long[196] = 64;
    first_two(&long) == ((8, 64), (188, 63), 2)
}

#[test]
fn elements(rt: HostRuntime) {
    assert!(rt; all_have(&ELEMENTS));
    assert!(rt; long_has_two());
}

// A node of which nothing is known but its id and the hop limit.
fn node(hops: u8, id: u32) -> View<'static> {
    View {
        hops,
        id: u64::from(id),
        inward: None,
        outward: None,
        stamp: None,
        delay: None,
        queue: None,
        buffer: None,
        short: None,
        wide: None,
        snapshot: None,
    }
}

// The hop limits and ids of nodes that come to one trace, and what each does.
const FILLED: [(u8, u32, Filled); 4] = [
    (64, 1, Filled::Added { words: 1 }),
    (63, 2, Filled::Added { words: 1 }),
    (62, 3, Filled::Overflowed),
    (61, 4, Filled::AlreadyOver),
];

// Whether each does that.
fn all_fill(octets: &mut [u8], nodes: &[(u8, u32, Filled)]) -> bool {
    for (hops, id, filled) in nodes {
        if fill(octets, &node(*hops, *id)) != *filled {
            return false;
        }
    }
    true
}

// A trace with room for two nodes.
fn begun(alloc: Global) -> Result<Vec<u8>, Fail> {
    let kind = TraceType::new(0x800000);
    if !kind.is_entry_type() {
        return Err(Fail::from("no type of an entry node"));
    }
    let mut octets = Vec::new(alloc);
    put_trace(Namespace(7), kind, 2, &mut octets)?;
    Ok(octets)
}

const BEGUN: [u8; 16] = [0, 7, 8, 2, 0x80, 0, 0, 0, 0, 0, 0, 0, 0, 0, 0, 0];

const FULL: [u8; 16] = [0, 7, 0x0c, 0, 0x80, 0, 0, 0, 0x3f, 0, 0, 2, 0x40, 0, 0, 1];

// Whether a trace is begun so, and then filled.
fn is_filled(octets: &mut [u8], begun: &[u8; 16], full: &[u8; 16]) -> bool {
    *octets == *begun.as_slice() && all_fill(octets, &FILLED) && *octets == *full.as_slice()
}

#[test]
fn filling(rt: HostRuntime) -> Result<(), Fail> {
    let mut octets = begun(rt.alloc())?;
    assert!(rt; is_filled(&mut octets, &BEGUN, &FULL));
    Ok(())
}

// Whether a node with the hop limit 63 does that to a trace, which is as it is to be afterwards.
fn fills(octets: &mut [u8], filled: Filled, after: &[u8]) -> bool {
    fill(octets, &node(63, 2)) == filled && *octets == *after
}

// Whether a trace whose RemainingLen is above the space is left as it is, and octets of no trace are.
fn are_unsuited(cut: &mut [u8; 12], after: &[u8; 12]) -> bool {
    fills(&mut cut[..7], Filled::Unsuited, &after[..7]) && fills(cut, Filled::Unsuited, after)
}

// Whether a word of all ones is added for undefined bits.
fn undefined_is_filled() -> bool {
    let mut undefined = [0, 7, 0x10, 2, 0x80, 8, 0, 0, 0, 0, 0, 0, 0, 0, 0, 0];
    let after = [
        0, 7, 0x10, 0, 0x80, 8, 0, 0, 0x3f, 0, 0, 2, 0xff, 0xff, 0xff, 0xff,
    ];
    fills(&mut undefined, Filled::Added { words: 2 }, &after)
}

#[test]
fn filling_at_odds(rt: HostRuntime) {
    let octets = [0, 7, 8, 9, 0x80, 0, 0, 0, 0, 0, 0, 0];
    let mut cut = octets;
    assert!(rt; are_unsuited(&mut cut, &octets));
    assert!(rt; undefined_is_filled());
}

// The length and the first octet of a trace's oldest element, or why there is none.
type Encoded = Result<(usize, u8), Option<TraceFault>>;

// Decodes the octets of an incremental trace and encodes it again: the length and the first octet
// of its oldest element, and the octets.
fn encoded_again(octets: &[u8], out: &mut Vec<u8>) -> Encoded {
    match Incremental::decode(octets) {
        Ok(trace) => {
            if trace.encode(out).is_err() {
                return Err(None);
            }
            let oldest = trace.elements().next().unwrap_or(&[]);
            Ok((oldest.len(), oldest.first().copied().unwrap_or(0)))
        }
        Err(fault) => Err(Some(fault)),
    }
}

// Octets of incremental traces, and what is answered of each.
const AGAIN: [(&[u8], Encoded); 4] = [
    (
        &[0, 7, 0x10, 0, 0x80, 0, 0, 0],
        Err(Some(TraceFault::NodeLen {
            found: 2,
            wanted: 1,
        })),
    ),
    (
        &[0, 7, 8, 0, 0x80, 0, 0],
        Err(Some(TraceFault::Short { have: 7 })),
    ),
    (&[0, 7, 8, 0, 0x80, 0, 0, 0], Ok((0, 0))),
    // RemainingLen is not compared.
    (
        &[0, 7, 8, 5, 0x80, 0, 0, 0, 0x3f, 0, 0, 2, 0x40, 0, 0, 1],
        Ok((4, 0x40)),
    ),
];

// Whether that is answered of each.
fn all_are_encoded(cases: &[(&[u8], Encoded)], out: &mut Vec<u8>) -> bool {
    for (octets, answer) in cases {
        if encoded_again(octets, out) != *answer {
            return false;
        }
    }
    true
}

const ENCODED: [u8; 24] = [
    0, 7, 8, 0, 0x80, 0, 0, 0, 0, 7, 8, 5, 0x80, 0, 0, 0, 0x3f, 0, 0, 2, 0x40, 0, 0, 1,
];

#[test]
fn incremental(rt: HostRuntime) {
    let mut out = Vec::new(rt.alloc());
    assert!(rt; all_are_encoded(&AGAIN, &mut out));
    assert!(rt; out.as_slice() == ENCODED.as_slice());
}
