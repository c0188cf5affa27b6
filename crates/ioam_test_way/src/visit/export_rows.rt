//! Packets in the tunnel of a flow that ask for export records.
use crate::visit::rows::{A, ADDED, At, B, C, CARRIED, EXPORTED, Noted, Row, Step, Stop};
use ioam_node_visit::What;

// Visits on a way that leads from a to b, back to a, and so on.
const SECOND: At = At {
    step: Step::Transit,
    node: 1,
    inward: 21,
    outward: 24,
    time: 1_000_001_000,
};

const THIRD: At = At {
    step: Step::Transit,
    node: 0,
    inward: 13,
    outward: 12,
    time: 1_000_002_000,
};

const FOURTH: At = At {
    step: Step::Transit,
    node: 1,
    inward: 21,
    outward: 24,
    time: 1_000_003_000,
};

const FIFTH: At = At {
    step: Step::Transit,
    node: 0,
    inward: 13,
    outward: 12,
    time: 1_000_004_000,
};

const TRACED: [Row; 1] = [
    // A trace and direct export.
    Row {
        spaces: "7",
        data: "",
        readings: "",
        start: "60000000 0060 00",
        hops: "40",
        headers: "29 05 01 00 31 16 00 00 0007 0803 800000 00 00000000 00000000 00000000 11 12 00 04 0007 00 c0 800000 00 00000009 00000000",
        behind: CARRIED,
        stops: &[
            Stop {
                at: A,
                hops: "40",
                headers: "29 05 01 00 31 16 00 00 0007 0802 800000 00 00000000 00000000 40000001 11 12 00 04 0007 00 c0 800000 00 00000009 00000000",
            },
            Stop {
                at: B,
                hops: "3f",
                headers: "29 05 01 00 31 16 00 00 0007 0801 800000 00 00000000 3f000002 40000001 11 12 00 04 0007 00 c0 800000 00 00000009 00000000",
            },
            Stop {
                at: C,
                hops: "3f",
                headers: "29 05 01 00 31 16 00 00 0007 0800 800000 00 3e000003 3f000002 40000001 11 12 00 04 0007 00 c0 800000 00 00000009 00000000",
            },
        ],
        notes: &[ADDED, EXPORTED, ADDED, EXPORTED, ADDED, EXPORTED],
        exports: &[
            "02 c0 0022 0007 00 800000 000000003b9aca00 0000000a 00000009 00000000 40000001",
            "02 c0 0022 0007 00 800000 000000003b9acde8 00000015 00000009 00000000 3f000002",
            "02 c0 0022 0007 00 800000 000000003b9ad1d0 00000020 00000009 00000000 3e000003",
        ],
    },
];

const ALONE: [Row; 1] = [
    // Direct export alone, from a to b and back until the hop limit is 1.
    Row {
        spaces: "7",
        data: "",
        readings: "",
        start: "60000000 0048 00",
        hops: "05",
        headers: "29 02 01 00 11 12 00 04 0007 00 c0 800000 00 00000009 00000000",
        behind: CARRIED,
        stops: &[
            Stop {
                at: A,
                hops: "05",
                headers: "29 02 01 00 11 12 00 04 0007 00 c0 800000 00 00000009 00000000",
            },
            Stop {
                at: SECOND,
                hops: "04",
                headers: "29 02 01 00 11 12 00 04 0007 00 c0 800000 00 00000009 00000000",
            },
            Stop {
                at: THIRD,
                hops: "03",
                headers: "29 02 01 00 11 12 00 04 0007 00 c0 800000 00 00000009 00000000",
            },
            Stop {
                at: FOURTH,
                hops: "02",
                headers: "29 02 01 00 11 12 00 04 0007 00 c0 800000 00 00000009 00000000",
            },
            Stop {
                at: FIFTH,
                hops: "01",
                headers: "29 02 01 00 11 12 00 04 0007 00 c0 800000 00 00000009 00000000",
            },
        ],
        notes: &[EXPORTED, EXPORTED, EXPORTED, EXPORTED, EXPORTED],
        exports: &[
            "02 c0 0022 0007 00 800000 000000003b9aca00 0000000a 00000009 00000000 05000001",
            "02 c0 0022 0007 00 800000 000000003b9acde8 00000015 00000009 00000000 04000002",
            "02 c0 0022 0007 00 800000 000000003b9ad1d0 0000000d 00000009 00000000 03000001",
            "02 c0 0022 0007 00 800000 000000003b9ad5b8 00000015 00000009 00000000 02000002",
            "02 c0 0022 0007 00 800000 000000003b9ad9a0 0000000d 00000009 00000000 01000001",
        ],
    },
];

const LONGEST: [Row; 1] = [
    // The longest header: three traces of 61 words, and direct export.
    Row {
        spaces: "7",
        data: "",
        readings: "",
        start: "60000000 0348 00",
        hops: "40",
        headers: "29 62 01 00
            31 fe 00 00 0007 083d 800000 00 zzzzzzzzzzzzzzz 00000000
            31 fe 00 00 0008 003d 000002 00 zzzzzzzzzzzzzzz 00000000
            31 fe 00 00 0009 783d fff002 00 zzzzzzzzzzzzzzz 00000000
            11 12 00 04 0007 00 c0 800000 00 00000009 00000000",
        behind: CARRIED,
        stops: &[Stop {
            at: A,
            hops: "40",
            headers: "29 62 01 00
                31 fe 00 00 0007 083c 800000 00 zzzzzzzzzzzzzzz 40000001
                31 fe 00 00 0008 003c 000002 00 zzzzzzzzzzzzzzz 00ffffff
                31 fe 00 00 0009 782d fff002 00 zzzzzzzzzzz 00000000
                40000001 000a000c ffffffff ffffffff ffffffff ffffffff ffffffff ffffffff
                4000000000000001 0000000a 0000000c ffffffffffffffff ffffffff 00ffffff
                11 12 00 04 0007 00 c0 800000 00 00000009 00000000",
        }],
        notes: &[
            ADDED,
            Noted {
                space: 8,
                direct: false,
                what: What::Added { words: 1 },
            },
            Noted {
                space: 9,
                direct: false,
                what: What::Added { words: 16 },
            },
            EXPORTED,
        ],
        exports: &[
            "02 c0 0022 0007 00 800000 000000003b9aca00 0000000a 00000009 00000000 40000001",
        ],
    },
];

/// Packets on their way through a tunnel that ask for records, beside a trace.
pub(crate) fn traced() -> &'static [Row] {
    &TRACED
}

/// Without a trace.
pub(crate) fn alone() -> &'static [Row] {
    &ALONE
}

/// With the longest header.
pub(crate) fn longest() -> &'static [Row] {
    &LONGEST
}
