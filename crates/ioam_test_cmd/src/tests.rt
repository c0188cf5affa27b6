//! One run over a desk that never fails.
use crate::rows::{File, files, one_packet, report, tracing};
use ioam_base::memory::NoMemory;
use ioam_batch::OpenGate;
use ioam_cmd::ioam_surely;
use ioam_desk::SureDesk;
use ioam_run_answer::line;
use ioam_test_rows::digits::{octets, text, words};
use std::alloc::Global;
use std::thread::Threads;

// A run with three workers.
const RUN_BY_THREE: [&str; 6] = [
    "run",
    "domain.toml",
    "readings",
    "3",
    "report.txt",
    "exports",
];

// A desk that never fails, with a domain and one packet.
fn desk_of(alloc: Global) -> Result<SureDesk, NoMemory> {
    let mut desk = SureDesk::new(alloc)?;
    desk.put_file("domain.toml", &text(alloc, tracing())?)?;
    desk.put_file("west.pcap", &octets(alloc, one_packet())?)?;
    Ok(desk)
}

// Whether that run over it answers `done`.
fn is_done<R: Threads + Sync>(
    rt: &R,
    alloc: Global,
    desk: &mut SureDesk,
) -> Result<bool, NoMemory> {
    let words = words(alloc, &RUN_BY_THREE)?;
    let line = line(alloc, &ioam_surely(rt, alloc, &words, desk, &OpenGate))?;
    Ok(line.as_str() == "done")
}

// Whether a file holds what it should.
fn holds(alloc: Global, desk: &SureDesk, file: &File) -> Result<bool, NoMemory> {
    let wanted = octets(alloc, file.parts)?;
    Ok(desk.file(file.name) == Some(wanted.as_slice()))
}

#[test]
fn run_over_a_desk_that_never_fails(rt: HostRuntime) {
    let alloc = rt.alloc();
    let mut desk = desk_of(alloc).expect(&rt, "memory");
    assert!(rt; is_done(&rt, alloc, &mut desk).expect(&rt, "memory"));
    assert!(rt; desk.file("report.txt") == Some(report()));
    for file in files() {
        let is_held = holds(alloc, &desk, file).expect(&rt, "memory");
        assert!(rt; is_held, "at {}", file.name);
    }
}
