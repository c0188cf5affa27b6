//! Packets in the tunnel of a flow, with traces.
use crate::visit::rows::{A, ADDED, B, C, CARRIED, Noted, OVERFLOWED, Row, Stop};
use ioam_node_visit::What;

const TRACED: [Row; 2] = [
    // A trace of three words.
    Row {
        spaces: "7",
        data: "",
        readings: "",
        start: "60000000 0050 00",
        hops: "40",
        headers: "29 03 01 00 31 16 00 00 0007 0803 800000 00 00000000 00000000 00000000 01 02 00 00",
        behind: CARRIED,
        stops: &[
            Stop {
                at: A,
                hops: "40",
                headers: "29 03 01 00 31 16 00 00 0007 0802 800000 00 00000000 00000000 40000001 01 02 00 00",
            },
            Stop {
                at: B,
                hops: "3f",
                headers: "29 03 01 00 31 16 00 00 0007 0801 800000 00 00000000 3f000002 40000001 01 02 00 00",
            },
            Stop {
                at: C,
                hops: "3f",
                headers: "29 03 01 00 31 16 00 00 0007 0800 800000 00 3e000003 3f000002 40000001 01 02 00 00",
            },
        ],
        notes: &[ADDED, ADDED, ADDED],
        exports: &[],
    },
    // A trace of two words, which is full at the exit.
    Row {
        spaces: "7",
        data: "",
        readings: "",
        start: "60000000 0048 00",
        hops: "40",
        headers: "29 02 01 00 31 12 00 00 0007 0802 800000 00 00000000 00000000",
        behind: CARRIED,
        stops: &[
            Stop {
                at: A,
                hops: "40",
                headers: "29 02 01 00 31 12 00 00 0007 0801 800000 00 00000000 40000001",
            },
            Stop {
                at: B,
                hops: "3f",
                headers: "29 02 01 00 31 12 00 00 0007 0800 800000 00 3f000002 40000001",
            },
            Stop {
                at: C,
                hops: "3f",
                headers: "29 02 01 00 31 12 00 00 0007 0c00 800000 00 3f000002 40000001",
            },
        ],
        notes: &[ADDED, ADDED, OVERFLOWED],
        exports: &[],
    },
];

const TAUGHT: [Row; 2] = [
    // Snapshots, which NodeLen doesn't count: that of b doesn't fit, and c adds nothing after Overflow is set.
    Row {
        spaces: "7",
        data: "data = [
            { node = \"a\", namespace = 7, schema = 5, snapshot = \"0011223344556677\" },
            { node = \"b\", namespace = 7, schema = 6, snapshot = \"0000000000000000000000000000000000000000000000000000000000000000\" },
        ]\n",
        readings: "",
        start: "60000000 0060 00",
        hops: "40",
        headers: "29 05 01 00 31 2a 00 00 0007 0808 800002 00 zz",
        behind: CARRIED,
        stops: &[
            Stop {
                at: A,
                hops: "40",
                headers: "29 05 01 00 31 2a 00 00 0007 0804 800002 00 z 40000001 02000005 00112233 44556677",
            },
            Stop {
                at: B,
                hops: "3f",
                headers: "29 05 01 00 31 2a 00 00 0007 0c04 800002 00 z 40000001 02000005 00112233 44556677",
            },
            Stop {
                at: C,
                hops: "3f",
                headers: "29 05 01 00 31 2a 00 00 0007 0c04 800002 00 z 40000001 02000005 00112233 44556677",
            },
        ],
        notes: &[
            Noted {
                space: 7,
                direct: false,
                what: What::Added { words: 4 },
            },
            OVERFLOWED,
            Noted {
                space: 7,
                direct: false,
                what: What::AlreadyOver,
            },
        ],
        exports: &[],
    },
    // Node b doesn't know the namespace.
    Row {
        spaces: "",
        data: "",
        readings: "",
        start: "60000000 0050 00",
        hops: "40",
        headers: "29 03 01 00 31 16 00 00 0007 0803 800000 00 00000000 00000000 00000000 01 02 00 00",
        behind: CARRIED,
        stops: &[
            Stop {
                at: A,
                hops: "40",
                headers: "29 03 01 00 31 16 00 00 0007 0802 800000 00 00000000 00000000 40000001 01 02 00 00",
            },
            Stop {
                at: B,
                hops: "3f",
                headers: "29 03 01 00 31 16 00 00 0007 0802 800000 00 00000000 00000000 40000001 01 02 00 00",
            },
            Stop {
                at: C,
                hops: "3f",
                headers: "29 03 01 00 31 16 00 00 0007 0801 800000 00 00000000 3e000003 40000001 01 02 00 00",
            },
        ],
        notes: &[
            ADDED,
            Noted {
                space: 7,
                direct: false,
                what: What::Unknown,
            },
            ADDED,
        ],
        exports: &[],
    },
];

const DOUBLE: [Row; 1] = [
    // Two traces: b knows the namespace of the first alone. The options for the exit stay as they are.
    Row {
        spaces: "7",
        data: "",
        readings: "",
        start: "60000000 0070 00",
        hops: "40",
        headers: "3c 05 01 00 31 16 00 00 0007 0803 800000 00 00000000 00000000 00000000
            31 12 00 00 0008 0802 800000 00 00000000 00000000 29 01 01 00 11 0a 00 03 0007 4000 00000000",
        behind: CARRIED,
        stops: &[
            Stop {
                at: A,
                hops: "40",
                headers: "3c 05 01 00 31 16 00 00 0007 0802 800000 00 00000000 00000000 40000001
                31 12 00 00 0008 0801 800000 00 00000000 40000001 29 01 01 00 11 0a 00 03 0007 4000 00000000",
            },
            Stop {
                at: B,
                hops: "3f",
                headers: "3c 05 01 00 31 16 00 00 0007 0801 800000 00 00000000 3f000002 40000001
                31 12 00 00 0008 0801 800000 00 00000000 40000001 29 01 01 00 11 0a 00 03 0007 4000 00000000",
            },
            Stop {
                at: C,
                hops: "3f",
                headers: "3c 05 01 00 31 16 00 00 0007 0800 800000 00 3e000003 3f000002 40000001
                31 12 00 00 0008 0800 800000 00 3e000003 40000001 29 01 01 00 11 0a 00 03 0007 4000 00000000",
            },
        ],
        notes: &[
            ADDED,
            Noted {
                space: 8,
                direct: false,
                what: What::Added { words: 1 },
            },
            ADDED,
            Noted {
                space: 8,
                direct: false,
                what: What::Unknown,
            },
            ADDED,
            Noted {
                space: 8,
                direct: false,
                what: What::Added { words: 1 },
            },
        ],
        exports: &[],
    },
];

const READ: [Row; 1] = [
    // Clocks and queues; only a's are known. An encapsulation limit, and a packet that has one.
    Row {
        spaces: "7",
        data: "",
        readings: "a 0 0 2147483648 3 4\n",
        start: "60000000 0090 00",
        hops: "40",
        headers: "3c 09 01 00 31 46 00 00 0007 280f 3a1000 00 zzz 000000000000000000000000 01 02 00 00 2900040100010100",
        behind: "60000000 0010 3c 3f 20010db8000100000000000000000001 20010db8000200000000000000000001 1100040100010100 0400040100080000",
        stops: &[
            Stop {
                at: A,
                hops: "40",
                headers: "3c 09 01 00 31 46 00 00 0007 280a 3a1000 00 zz 0000000000000000
                00000001 00000000 80000000 00000003 00000004 01 02 00 00 2900040100010100",
            },
            Stop {
                at: B,
                hops: "3f",
                headers: "3c 09 01 00 31 46 00 00 0007 2805 3a1000 00 z 00000000
                ffffffff ffffffff ffffffff ffffffff ffffffff
                00000001 00000000 80000000 00000003 00000004 01 02 00 00 2900040100010100",
            },
            Stop {
                at: C,
                hops: "3f",
                headers: "3c 09 01 00 31 46 00 00 0007 2800 3a1000 00
                ffffffff ffffffff ffffffff ffffffff ffffffff ffffffff ffffffff ffffffff ffffffff ffffffff
                00000001 00000000 80000000 00000003 00000004 01 02 00 00 2900040100010100",
            },
        ],
        notes: &[
            Noted {
                space: 7,
                direct: false,
                what: What::Added { words: 5 },
            },
            Noted {
                space: 7,
                direct: false,
                what: What::Added { words: 5 },
            },
            Noted {
                space: 7,
                direct: false,
                what: What::Added { words: 5 },
            },
        ],
        exports: &[],
    },
];

/// Packets on their way through a tunnel: a trace that is whole, and one that is full.
pub(crate) fn traced() -> &'static [Row] {
    &TRACED
}

/// Nodes with snapshots, and one that doesn't know the namespace.
pub(crate) fn taught() -> &'static [Row] {
    &TAUGHT
}

/// Two traces.
pub(crate) fn double() -> &'static [Row] {
    &DOUBLE
}

/// The nodes' readings.
pub(crate) fn read() -> &'static [Row] {
    &READ
}
