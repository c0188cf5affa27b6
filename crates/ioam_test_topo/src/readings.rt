//! Readings of clocks.
use crate::domains::{NODES, is_read_so};
use ioam_clock::{ReadWhy, Readings, ReadingsRefused, Sample, read_readings, stamp};
use ioam_topo::{Domain, Format, NodeId};
use std::alloc::Global;

// Files, one behind another.
const GOOD: &str =
    "|\n\n|a 0 0 - - -|a 0 0 - - -\n|\n\na 0 0 - - -\n\nb 0 0 - - -\na 1 0 - - -\n|a 9223372036854775807 9223372036854775807 9223372036854775807 4294967295 4294967295";

const NOT_SIX_WORDS: &str =
    "a 0 0 - -|a 0 0 - - - -|a 0  - - -| a 0 0 - - -|a 0 0 - - - |a 0 0 - -\t-|\r\n|c\n7";

const NO_NODE: &str = "c 00 0 - - -|a\t 0 0 - - -|A 0 0 - - -";

const NO_NUMBER: &str =
    "a 00 0 - - -|a +1 0 - - -|a 9223372036854775808 0 - - -|a 0 9223372036854775808 - - -|a 0 0 9223372036854775808 - -|a 0 0 - 4294967296 -|a 0 0 - - 4294967296|a - 0 - - -|a 0 - - - -|a 0 0 - - --";

// Files whose fault isn't in their first line, with the line and the fault.
const LATER: [(&str, u32, ReadWhy); 3] = [
    ("a 0 0 - - -\na 0 0 - - -", 2, ReadWhy::Order),
    (
        "\na 5 0 - - -\nb 1 0 - - -\na 5 0 - - -\n-",
        4,
        ReadWhy::Order,
    ),
    ("a 0 0 - - -\n\nc", 3, ReadWhy::Words),
];

// Whether a file is refused at a line for a reason.
fn is_refused(alloc: Global, domain: &Domain, file: &[u8], line: u32, why: ReadWhy) -> bool {
    match read_readings(alloc, domain, file) {
        Err(ReadingsRefused::Fault(fault)) => fault.line == line && fault.why == why,
        _ => false,
    }
}

// Whether each of these files is read.
fn are_read(alloc: Global, domain: &Domain, files: &str) -> bool {
    for file in files.split('|') {
        if read_readings(alloc, domain, file.as_bytes()).is_err() {
            return false;
        }
    }
    true
}

// Whether each of these files is refused at its first line for a reason.
fn are_refused(alloc: Global, domain: &Domain, files: &str, why: ReadWhy) -> bool {
    for file in files.split('|') {
        if !is_refused(alloc, domain, file.as_bytes(), 1, why) {
            return false;
        }
    }
    true
}

// Whether each of these files is refused at its line for its reason.
fn are_refused_later(alloc: Global, domain: &Domain, files: &[(&str, u32, ReadWhy)]) -> bool {
    for file in files {
        if !is_refused(alloc, domain, file.0.as_bytes(), file.1, file.2) {
            return false;
        }
    }
    true
}

// Whether the samples of two lines are in force from their times on.
fn has_samples(readings: &Readings) -> bool {
    let first = Sample {
        time: 10,
        clock: 5,
        delay: Some(2_147_483_648),
        queue: Some(3),
        buffer: Some(4),
    };
    readings.view(NodeId(0), 9).is_none()
        && readings.view(NodeId(0), 99) == Some(first)
        && readings.clock_at(NodeId(0), 150) == Some(1050)
        && readings.clock_at(NodeId(1), 150).is_none()
}

// Whether a time has these words in each format.
fn has_stamps(time: u64) -> bool {
    stamp(Format::Ptp, time) == (1, 500_000_000)
        && stamp(Format::Ntp, time) == (1, 2_147_483_648)
        && stamp(Format::Posix, time) == (1, 500_000)
}

// Whether a line of a MiB is refused as no six words.
fn is_long_line_refused(alloc: Global, domain: &Domain) -> bool {
    match vec![in alloc; b'7'; 1 << 20] {
        Ok(line) => is_refused(alloc, domain, line.as_slice(), 1, ReadWhy::Words),
        Err(_) => false,
    }
}

// Whether the files above are read or refused as they should be.
fn are_all_so(alloc: Global, domain: &Domain) -> bool {
    are_read(alloc, domain, GOOD)
        && are_refused(alloc, domain, NOT_SIX_WORDS, ReadWhy::Words)
        && are_refused(alloc, domain, NO_NODE, ReadWhy::Node)
        && are_refused(alloc, domain, NO_NUMBER, ReadWhy::Number)
        && are_refused_later(alloc, domain, &LATER)
        && is_refused(
            alloc,
            domain,
            b"\xff 0 0 - - -".as_slice(),
            1,
            ReadWhy::Node,
        )
        && is_long_line_refused(alloc, domain)
}

// Whether the samples of two lines are read, and are in force from their times on.
fn reads_samples(alloc: Global, domain: &Domain) -> bool {
    let file = "a 10 5 2147483648 3 4\na 100 1000 - - -".as_bytes();
    match read_readings(alloc, domain, file) {
        Ok(readings) => has_samples(&readings),
        Err(_) => false,
    }
}

// Whether files of the nodes' readings are read or refused as they should be.
fn reads_files(alloc: Global) -> bool {
    is_read_so(alloc, NODES, |domain| {
        are_all_so(alloc, domain) && reads_samples(alloc, domain)
    })
}

#[test]
fn reads_readings(rt: HostRuntime) {
    assert!(rt; reads_files(rt.alloc()) && has_stamps(1_500_000_000));
}
