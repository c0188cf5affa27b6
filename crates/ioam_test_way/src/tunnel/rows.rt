//! Outer packets, as rows: the flow and the packet that is put into it, and the octets of the outer
//! packet.
use ioam_tunnel::Numbers;

// Nothing but the hop limit and the addresses of the flow is written.
const PLAIN: Numbers = Numbers {
    number: 0,
    direct: None,
    limit: None,
    stamp: None,
};

pub(crate) struct Row {
    /// The keys of the flow besides its name, its ends and its namespace, and the table of its
    /// further traces.
    pub(crate) flow: &'static str,
    pub(crate) extra: &'static str,
    pub(crate) numbers: Numbers,
    /// Version, traffic class and flow label of the packet that is carried.
    pub(crate) word: &'static str,
    /// The first eight octets of the outer packet.
    pub(crate) start: &'static str,
    /// The octets between its addresses and the packet that it carries.
    pub(crate) headers: &'static str,
}

const TRACED: [Row; 3] = [
    // A trace of three words.
    Row {
        flow: "hops = 64, trace = 0x800000, capacity = 3",
        extra: "",
        numbers: PLAIN,
        word: "60000000",
        start: "60000000 0050 00 40",
        headers: "29 03 01 00 31 16 00 00 0007 0803 800000 00 00000000 00000000 00000000 01 02 00 00",
    },
    // Two traces; the traffic class of the packet, and the label of the flow.
    Row {
        flow: "hops = 64, label = 0x12345, trace = 0x800000, capacity = 3",
        extra: "extra = [{ flow = \"f\", namespace = 8, trace = 0x800000, capacity = 2 }]\n",
        numbers: PLAIN,
        word: "6ab54321",
        start: "6ab12345 0060 00 40",
        headers: "29 05 01 00 31 16 00 00 0007 0803 800000 00 00000000 00000000 00000000
            31 12 00 00 0008 0802 800000 00 00000000 00000000",
    },
    // A trace, and edge-to-edge data with a sequence number of 32 bits.
    Row {
        flow: "hops = 64, trace = 0x800000, capacity = 3, edge = 0x4000",
        extra: "",
        numbers: PLAIN,
        word: "60000000",
        start: "60000000 0060 00 40",
        headers: "3c 03 01 00 31 16 00 00 0007 0803 800000 00 00000000 00000000 00000000 01 02 00 00
            29 01 01 00 11 0a 00 03 0007 4000 00000000",
    },
];

const BARE: [Row; 3] = [
    // An encapsulation limit, and edge-to-edge data with a sequence number of 64 bits and a stamp.
    Row {
        flow: "hops = 255, edge = 0xb000",
        extra: "",
        numbers: Numbers {
            number: 0x0102_0304,
            direct: None,
            limit: Some(5),
            stamp: Some((0xa1b2_c3d4, 0x0506_0708)),
        },
        word: "60000000",
        start: "60000000 0050 3c ff",
        headers: "29 03 04 01 05 01 01 00 11 16 00 03 0007 b000 0000000001020304 a1b2c3d4 05060708",
    },
    // A stamp that isn't known, and no encapsulation limit.
    Row {
        flow: "hops = 255, edge = 0x7000",
        extra: "",
        numbers: PLAIN,
        word: "60000000",
        start: "60000000 0048 3c ff",
        headers: "29 02 01 00 11 12 00 03 0007 7000 00000000 ffffffff ffffffff",
    },
    // A trace, and an encapsulation limit alone.
    Row {
        flow: "hops = 64, trace = 0x800000, capacity = 3",
        extra: "",
        numbers: Numbers {
            number: 0,
            direct: None,
            limit: Some(0),
            stamp: None,
        },
        word: "60000000",
        start: "60000000 0058 00 40",
        headers: "3c 03 01 00 31 16 00 00 0007 0803 800000 00 00000000 00000000 00000000 01 02 00 00
            29 00 04 01 00 01 01 00",
    },
];

const DIRECT: [Row; 3] = [
    // Direct export without a trace.
    Row {
        flow: "hops = 5, direct = 0x800000, every = 1, flow_id = 9",
        extra: "",
        numbers: Numbers {
            number: 2,
            direct: Some(2),
            limit: None,
            stamp: None,
        },
        word: "60000000",
        start: "60000000 0048 00 05",
        headers: "29 02 01 00 11 12 00 04 0007 00 c0 800000 00 00000009 00000002",
    },
    // No option.
    Row {
        flow: "hops = 64",
        extra: "",
        numbers: PLAIN,
        word: "60000000",
        start: "60000000 0030 29 40",
        headers: "",
    },
    // The longest header: three traces of 61 words, and direct export. Each `z` is 16 octets of zero.
    Row {
        flow: "hops = 64, trace = 0x800000, capacity = 61, direct = 0x800000, every = 1, flow_id = 9",
        extra: "extra = [
            { flow = \"f\", namespace = 8, trace = 0x000002, capacity = 61 },
            { flow = \"f\", namespace = 9, trace = 0xfff002, capacity = 61 },
        ]\n",
        numbers: Numbers {
            number: 0,
            direct: Some(0),
            limit: None,
            stamp: None,
        },
        word: "60000000",
        start: "60000000 0348 00 40",
        headers: "29 62 01 00
            31 fe 00 00 0007 083d 800000 00 zzzzzzzzzzzzzzz 00000000
            31 fe 00 00 0008 003d 000002 00 zzzzzzzzzzzzzzz 00000000
            31 fe 00 00 0009 783d fff002 00 zzzzzzzzzzzzzzz 00000000
            11 12 00 04 0007 00 c0 800000 00 00000009 00000000",
    },
];

/// Flows with traces.
pub(crate) fn traced() -> &'static [Row] {
    &TRACED
}

/// Flows without a trace.
pub(crate) fn bare() -> &'static [Row] {
    &BARE
}

/// Direct export, no option, and the longest header.
pub(crate) fn direct() -> &'static [Row] {
    &DIRECT
}

// Two nodes that know three namespaces, and a flow as far as its further keys.
const DOMAIN: &str = "node = [
  { name = \"a\", id = 1, address = \"2001:db8::a\", namespaces = [7, 8, 9] },
  { name = \"c\", id = 3, address = \"2001:db8::c\", namespaces = [7, 8, 9] },
]
flow = [{ name = \"f\", entry = \"a\", exit = \"c\", source = \"::/0\", target = \"2001:db8:2::/48\", namespace = 7, ";

// The file of the domain of a row.
pub(crate) fn domain_texts(row: &Row) -> [&'static str; 4] {
    [DOMAIN, row.flow, " }]\n", row.extra]
}

// The packet of a row behind its first word: 8 octets of UDP header.
const PACKET: &str =
    "0008 11 40 20010db8000100000000000000000001 20010db8000200000000000000000001 0400040100080000";

// The packet that is put into a flow.
pub(crate) fn packet_digits(row: &Row) -> [&'static str; 2] {
    [row.word, PACKET]
}

// The same with its hop limit one less.
const CARRIED: &str =
    "0008 11 3f 20010db8000100000000000000000001 20010db8000200000000000000000001 0400040100080000";

// The addresses of the outer packet.
const ENDS: &str = "20010db800000000000000000000000a 20010db800000000000000000000000c";

// The outer packet.
pub(crate) fn outer_digits(row: &Row) -> [&'static str; 5] {
    [row.start, ENDS, row.headers, row.word, CARRIED]
}

const NONE_CARRIED: [&[&str]; 5] = [
    // Octets that aren't a packet, and a packet that carries none.
    &[],
    &["60000000", PACKET],
    // The last octet of what is carried isn't there.
    &[
        "60000000 002f 29 40",
        ENDS,
        "60000000 0008 11 3f 20010db8000100000000000000000001 20010db8000200000000000000000001 04000401000800",
    ],
    // Behind the header of UDP nothing is carried.
    &[
        "60000000 0038 11 40",
        ENDS,
        "0400040100080000 60000000",
        CARRIED,
    ],
    // What is carried is of another version.
    &["60000000 0030 29 40", ENDS, "40000000", CARRIED],
];

/// Octets in which no packet is carried.
pub(crate) fn none_carried() -> &'static [&'static [&'static str]] {
    &NONE_CARRIED
}
