//! Packets that no tunnel of the domain made, each visited by node b.
use crate::visit::rows::{ADDED, B, EXPORTED, Noted, Row, Stop};
use ioam_node_visit::What;

// The header of UDP, which is behind the options.
const UDP: &str = "0400040100080000";

const UNSUITED: [Row; 3] = [
    // RemainingLen is above the option's space.
    Row {
        spaces: "7",
        data: "",
        readings: "",
        start: "60000000 0028 00",
        hops: "40",
        headers: "11 03 01 00 31 1a 00 00 0007 0809 800000 00 z",
        behind: UDP,
        stops: &[Stop {
            at: B,
            hops: "3f",
            headers: "11 03 01 00 31 1a 00 00 0007 0809 800000 00 z",
        }],
        notes: &[Noted {
            space: 7,
            direct: false,
            what: What::Unsuited,
        }],
        exports: &[],
    },
    // A type with an undefined bit, for which a node writes all ones.
    Row {
        spaces: "7",
        data: "",
        readings: "",
        start: "60000000 0020 00",
        hops: "40",
        headers: "11 02 01 00 31 12 00 00 0007 1002 800800 00 00000000 00000000",
        behind: UDP,
        stops: &[Stop {
            at: B,
            hops: "3f",
            headers: "11 02 01 00 31 12 00 00 0007 1000 800800 00 3f000002 ffffffff",
        }],
        notes: &[Noted {
            space: 7,
            direct: false,
            what: What::Added { words: 2 },
        }],
        exports: &[],
    },
    // Overflow is set.
    Row {
        spaces: "7",
        data: "",
        readings: "",
        start: "60000000 0020 00",
        hops: "40",
        headers: "11 02 01 00 31 0e 00 00 0007 0c01 800000 00 00000000 01 02 00 00",
        behind: UDP,
        stops: &[Stop {
            at: B,
            hops: "3f",
            headers: "11 02 01 00 31 0e 00 00 0007 0c01 800000 00 00000000 01 02 00 00",
        }],
        notes: &[Noted {
            space: 7,
            direct: false,
            what: What::AlreadyOver,
        }],
        exports: &[],
    },
];

const UNKNOWN: [Row; 3] = [
    // A namespace that the node doesn't know.
    Row {
        spaces: "7",
        data: "",
        readings: "",
        start: "60000000 0020 00",
        hops: "40",
        headers: "11 02 01 00 31 0e 00 00 0009 0801 800000 00 00000000 01 02 00 00",
        behind: UDP,
        stops: &[Stop {
            at: B,
            hops: "3f",
            headers: "11 02 01 00 31 0e 00 00 0009 0801 800000 00 00000000 01 02 00 00",
        }],
        notes: &[Noted {
            space: 9,
            direct: false,
            what: What::Unknown,
        }],
        exports: &[],
    },
    // Two traces of one namespace.
    Row {
        spaces: "7",
        data: "",
        readings: "",
        start: "60000000 0030 00",
        hops: "40",
        headers: "11 04 01 00 31 0e 00 00 0007 0801 800000 00 00000000 31 0e 00 00 0007 0801 800000 00 00000000 01 02 00 00",
        behind: UDP,
        stops: &[Stop {
            at: B,
            hops: "3f",
            headers: "11 04 01 00 31 0e 00 00 0007 0800 800000 00 3f000002 31 0e 00 00 0007 0800 800000 00 3f000002 01 02 00 00",
        }],
        notes: &[ADDED, ADDED],
        exports: &[],
    },
    // Direct export without an id and a number.
    Row {
        spaces: "7",
        data: "",
        readings: "",
        start: "60000000 0018 00",
        hops: "40",
        headers: "11 01 01 00 11 0a 00 04 0007 00 00 800000 00",
        behind: UDP,
        stops: &[Stop {
            at: B,
            hops: "3f",
            headers: "11 01 01 00 11 0a 00 04 0007 00 00 800000 00",
        }],
        notes: &[EXPORTED],
        exports: &["02 00 001a 0007 00 800000 000000003b9acde8 00000015 3f000002"],
    },
];

const PARTLY: [Row; 3] = [
    // It asks for the checksum complement too, which isn't exported.
    Row {
        spaces: "7",
        data: "",
        readings: "",
        start: "60000000 0018 00",
        hops: "40",
        headers: "11 01 01 00 11 0a 00 04 0007 00 00 810000 00",
        behind: UDP,
        stops: &[Stop {
            at: B,
            hops: "3f",
            headers: "11 01 01 00 11 0a 00 04 0007 00 00 810000 00",
        }],
        notes: &[EXPORTED],
        exports: &["02 00 001a 0007 00 800000 000000003b9acde8 00000015 3f000002"],
    },
    // A trace that is too short for its header.
    Row {
        spaces: "7",
        data: "",
        readings: "",
        start: "60000000 0010 00",
        hops: "40",
        headers: "11 00 31 03 00 00 07 00",
        behind: UDP,
        stops: &[Stop {
            at: B,
            hops: "3f",
            headers: "11 00 31 03 00 00 07 00",
        }],
        notes: &[Noted {
            space: 0,
            direct: false,
            what: What::Short,
        }],
        exports: &[],
    },
    // A trace of the type of options that may not change on the way.
    Row {
        spaces: "7",
        data: "",
        readings: "",
        start: "60000000 0020 00",
        hops: "40",
        headers: "11 02 01 00 11 0e 00 00 0007 0801 800000 00 00000000 01 02 00 00",
        behind: UDP,
        stops: &[Stop {
            at: B,
            hops: "3f",
            headers: "11 02 01 00 11 0e 00 00 0007 0801 800000 00 00000000 01 02 00 00",
        }],
        notes: &[],
        exports: &[],
    },
];

const BEHIND: [Row; 2] = [
    // Direct export and a trace for the exit, in Destination Options.
    Row {
        spaces: "7",
        data: "",
        readings: "",
        start: "60000000 0028 3c",
        hops: "40",
        headers: "11 03 01 00 11 0a 00 04 0007 00 00 800000 00 31 0e 00 00 0007 0801 800000 00 00000000",
        behind: UDP,
        stops: &[Stop {
            at: B,
            hops: "3f",
            headers: "11 03 01 00 11 0a 00 04 0007 00 00 800000 00 31 0e 00 00 0007 0801 800000 00 00000000",
        }],
        notes: &[],
        exports: &[],
    },
    // The packet that is carried has a trace of its own.
    Row {
        spaces: "7",
        data: "",
        readings: "",
        start: "60000000 0048 29",
        hops: "40",
        headers: "60000000 0020 00 40 20010db8000100000000000000000001 20010db8000200000000000000000001
            11 02 01 00 31 0e 00 00 0007 0801 800000 00 00000000 01 02 00 00",
        behind: UDP,
        stops: &[Stop {
            at: B,
            hops: "3f",
            headers: "60000000 0020 00 40 20010db8000100000000000000000001 20010db8000200000000000000000001
                11 02 01 00 31 0e 00 00 0007 0801 800000 00 00000000 01 02 00 00",
        }],
        notes: &[],
        exports: &[],
    },
];

/// Packets of others: RemainingLen, undefined bits and Overflow.
pub(crate) fn unsuited() -> &'static [Row] {
    &UNSUITED
}

/// A namespace that the node doesn't know, one twice, and direct export.
pub(crate) fn unknown() -> &'static [Row] {
    &UNKNOWN
}

/// A field that isn't exported, a short trace, and a type that may not change.
pub(crate) fn partly() -> &'static [Row] {
    &PARTLY
}

/// Options for the exit, and those of the packet that is carried.
pub(crate) fn behind() -> &'static [Row] {
    &BEHIND
}
