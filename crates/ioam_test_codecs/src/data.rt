//! Trace types and elements.
ghost use Rattle.std.specs.Prelude.{◌≡◌, ℕ, ◌<◌, None};

use ioam_data::{ElementBuf, Fields, TraceType, View, element, fields, split};

fn kind(bits: u32) -> TraceType
    requires { bits < 16777216 }
    ensures { result ≡ bits }
{
    TraceType::new(bits)
}

// A view of which only the delay is known.
fn delayed(delay: Option<u64>) -> View<'static> {
    View {
        hops: 64,
        id: 1,
        inward: None,
        outward: None,
        stamp: None,
        delay,
        queue: None,
        buffer: None,
        short: None,
        wide: None,
        snapshot: None,
    }
}

// A trace type, how many words its fields take, and how many undefined bits it has.
const TYPES: [(u32, u8, u8); 4] = [
    (0xfff000, 15, 0),
    (0x000ffc, 0, 10),
    (0x800800, 1, 1),
    (0x00e003, 6, 0),
];

// Whether each type takes so many words and has so many undefined bits.
fn all_count(cases: &[(u32, u8, u8)]) -> bool {
    for (bits, words, undefined) in cases {
        let kind = TraceType::new(*bits % 0x100_0000);
        if kind.words() != *words || kind.undefined() != *undefined {
            return false;
        }
    }
    true
}

// A trace type, a NodeLen, and whether the one fits the other.
const FITS: [(u32, u8, bool); 6] = [
    (0x800800, 2, true),
    (0x800800, 31, true),
    (0x800800, 1, false),
    (0xc00000, 2, true),
    (0xc00000, 3, false),
    (1, 0, true),
];

// Whether each fits so.
fn all_fit(cases: &[(u32, u8, bool)]) -> bool {
    for (bits, node_len, fits) in cases {
        if TraceType::new(*bits % 0x100_0000).fits(*node_len) != *fits {
            return false;
        }
    }
    true
}

// Whether types say what can be added to them.
fn tell_what_can_be_added() -> bool {
    !kind(1).can_add(0) && kind(2).can_add(0)
}

// Whether types say that they have a snapshot, and which bits.
fn tell_their_bits() -> bool {
    kind(0x000002).has_snapshot()
        && !kind(0xfffffd).has_snapshot()
        && kind(0x800000).has(0)
        && !kind(0x800000).has(1)
        && kind(0x800800).bits() == 0x800800
}

// Whether types say that an entry node may write them.
fn tell_who_writes_them() -> bool {
    kind(0xc04002).is_entry_type() && !kind(0x800800).is_entry_type() && !kind(1).is_entry_type()
}

#[test]
fn types(rt: HostRuntime) {
    assert!(rt; all_count(&TYPES));
    assert!(rt; all_fit(&FITS));
    assert!(rt; tell_what_can_be_added());
    assert!(rt; tell_their_bits());
    assert!(rt; tell_who_writes_them());
}

// A trace type, a NodeLen, octets, and the size of the element with which they begin.
const SIZES: [(u32, u8, &[u8], Option<usize>); 8] = [
    (0x800000, 1, &[255; 16], Some(4)),
    (0x800000, 1, &[255; 3], None),
    (0xc00000, 1, &[255; 16], None),
    (0x000001, 0, &[255; 16], None),
    // Undefined bits, and NodeLen above the words.
    (0x800800, 3, &[255; 16], Some(12)),
    // A snapshot without data, with one word, and with one that is cut.
    (0x000002, 0, &[0, 255, 255, 255, 9], Some(4)),
    (0x000002, 0, &[1, 0, 0, 9, 1, 2, 3, 4], Some(8)),
    (0x000002, 0, &[1, 0, 0, 9, 1, 2, 3], None),
];

// Whether an element has that size.
fn has_size(bits: u32, node_len: u8, octets: &[u8], size: Option<usize>) -> bool {
    split(TraceType::new(bits % 0x100_0000), node_len, octets) == size
}

// Whether each element has that size.
fn all_have_size(cases: &[(u32, u8, &[u8], Option<usize>)]) -> bool {
    for (bits, node_len, octets, size) in cases {
        if !has_size(*bits, *node_len, octets, *size) {
            return false;
        }
    }
    true
}

// Whether a snapshot of 45 words behind a field has its size, and none where its last octet is cut off.
fn long_has_size() -> bool {
    let mut long = [0; 188];
    long[4] = 45;
    has_size(0x800002, 1, &long, Some(188)) && has_size(0x800002, 1, &long[..187], None)
}

#[test]
fn sizes(rt: HostRuntime) {
    assert!(rt; all_have_size(&SIZES));
    assert!(rt; long_has_size());
}

// What a node knows where nothing is unknown to it.
const ALL: View<'static> = View {
    hops: 61,
    id: 5,
    inward: Some(70000),
    outward: Some(2),
    stamp: Some((2, 3)),
    delay: Some(4),
    queue: Some(5),
    buffer: Some(6),
    short: Some(0x01020304),
    wide: Some(0x0102030405060708),
    snapshot: Some((9, &[0xaa, 0xbb, 0xcc, 0xdd])),
};

// Types with a NodeLen, and the element that such a node writes: the second with the fields behind those
// of the first, and three words of filler, one of them for an undefined bit.
const ELEMENTS: [(u32, u8, &[u8]); 2] = [
    (
        0xc04002,
        4,
        &[
            0x3d, 0, 0, 5, 0xff, 0xff, 0, 2, 0, 1, 0x11, 0x70, 0, 0, 0, 2, 1, 0, 0, 9, 0xaa, 0xbb,
            0xcc, 0xdd,
        ],
    ),
    (
        0x3fb800,
        14,
        &[
            0, 0, 0, 2, 0, 0, 0, 3, 0, 0, 0, 4, 1, 2, 3, 4, 0, 0, 0, 5, 255, 255, 255, 255, 0x3d,
            0, 0, 0, 0, 0, 0, 5, 1, 2, 3, 4, 5, 6, 7, 8, 0, 0, 0, 6, 255, 255, 255, 255, 255, 255,
            255, 255, 255, 255, 255, 255,
        ],
    ),
];

// Whether an element is written so.
fn is_element(
    bits: u32,
    node_len: u8,
    view: &View<'_>,
    buffer: &mut ElementBuf,
    octets: &[u8],
) -> bool {
    element(
        TraceType::new(bits % 0x100_0000),
        node_len % 32,
        view,
        buffer,
    ) && buffer.octets() == octets
}

// Whether each element is written so, in the same room.
fn all_are_elements(view: &View<'_>, cases: &[(u32, u8, &[u8])]) -> bool {
    let mut buffer = ElementBuf::new();
    for (bits, node_len, octets) in cases {
        if !is_element(*bits, *node_len, view, &mut buffer, octets) {
            return false;
        }
    }
    true
}

// Whether these are the fields of the first type, as the view shows them.
fn are_shown(read: &Fields<'_>) -> bool {
    read.hop_node == Some((61, 5))
        && read.faces == Some((65535, 2))
        && read.wide_faces == Some((70000, 2))
        && read.seconds.is_none()
        && read.fill.is_empty()
        && read.snapshot == Some((9, [0xaa, 0xbb, 0xcc, 0xdd].as_slice()))
}

// Whether the fields of the first type are read as the view shows them.
fn is_read_back(view: &View<'_>) -> bool {
    let mut buffer = ElementBuf::new();
    element(kind(0xc04002), 4, view, &mut buffer)
        && are_shown(&fields(kind(0xc04002), 4, buffer.octets()))
}

#[test]
fn elements(rt: HostRuntime) {
    assert!(rt; all_are_elements(&ALL, &ELEMENTS));
    assert!(rt; is_read_back(&ALL));
}

// Types with a NodeLen, a delay, and the element that a node writes that knows no more; the last is of
// a node without a snapshot.
const BOUNDS: [(u32, u8, Option<u64>, &[u8]); 4] = [
    (0x080000, 1, Some(2147483647), &[0x7f, 0xff, 0xff, 0xff]),
    (0x080000, 1, Some(2147483648), &[0x80, 0, 0, 0]),
    (0x080000, 1, None, &[0xff, 0xff, 0xff, 0xff]),
    (0x800002, 1, None, &[64, 0, 0, 1, 0, 255, 255, 255]),
];

// Whether each element is written so, in the same room.
fn all_are_bounds(buffer: &mut ElementBuf, cases: &[(u32, u8, Option<u64>, &[u8])]) -> bool {
    for (bits, node_len, delay, octets) in cases {
        if !is_element(*bits, *node_len, &delayed(*delay), buffer, octets) {
            return false;
        }
    }
    true
}

// Whether undefined bits without their words are refused, and the room holds what it held.
fn is_refused(buffer: &mut ElementBuf) -> bool {
    !element(kind(0x800800), 1, &delayed(None), buffer) && buffer.octets().len() == 8
}

#[test]
fn bounds_of_fields(rt: HostRuntime) {
    let mut buffer = ElementBuf::new();
    assert!(rt; all_are_bounds(&mut buffer, &BOUNDS));
    assert!(rt; is_refused(&mut buffer));
}
