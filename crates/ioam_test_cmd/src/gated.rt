//! The top call behind gates: what `run` writes is what its jobs hold, and its chunks run at once.
use crate::rows::{exporting, one_packet, tracing, two_packets};
use ioam_base::memory::NoMemory;
use ioam_batch::Gate;
use ioam_cmd::ioam;
use ioam_desk::MemoryDesk;
use ioam_run_answer::line;
use ioam_test_gates::{ShutGate, make_meeting};
use ioam_test_rows::digits::{HEAD, octets, text, words};
use std::alloc::Global;
use std::process::Abort;
use std::thread::Threads;

// By two workers.
const RUN_BY_TWO: [&str; 6] = [
    "run",
    "domain.toml",
    "readings",
    "2",
    "report.txt",
    "exports",
];

// Whether a run of these words over a desk answers `done`.
fn is_done<R: Threads + Sync, G: Gate>(
    rt: &R,
    alloc: Global,
    texts: &[&str],
    desk: &mut MemoryDesk,
    gate: &G,
) -> Result<bool, NoMemory> {
    let words = words(alloc, texts)?;
    let line = line(alloc, &ioam(rt, alloc, &words, desk, gate))?;
    Ok(line.as_str() == "done")
}

// A desk with this domain and this capture.
fn desk_of(alloc: Global, domain: &[&str], west: &[&str]) -> Result<MemoryDesk, NoMemory> {
    let mut desk = MemoryDesk::new(alloc)?;
    desk.put_file("domain.toml", &text(alloc, domain)?)?;
    desk.put_file("readings", b"")?;
    desk.put_file("west.pcap", &octets(alloc, west)?)?;
    Ok(desk)
}

// The desk after a run of these files, where it does all.
fn desk_after<G: Gate>(
    rt: &(impl Abort + Threads + Sync),
    alloc: Global,
    domain: &[&str],
    west: &[&str],
    gate: &G,
) -> MemoryDesk {
    let mut desk = desk_of(alloc, domain, west).expect(rt, "memory");
    let is_done = is_done(rt, alloc, &RUN_BY_TWO, &mut desk, gate);
    assert!(rt; is_done.expect(rt, "memory"));
    desk
}

// Whether a file has a text in it.
fn has(file: Option<&[u8]>, part: &[u8]) -> bool {
    match file {
        Some(octets) => octets
            .windows(part.len().max(1))
            .any(|window| window == part),
        None => false,
    }
}

#[test]
fn two_chunks_meet(rt: HostRuntime) {
    let gate = make_meeting();
    let desk = desk_after(&rt, rt.alloc(), tracing(), two_packets(), &gate);
    assert!(rt; gate.has_met());
    assert!(rt; has(desk.file("report.txt"), b"2 west left east flow f 1\n"));
}

#[test]
fn two_chunks_of_a_generated_load_meet(rt: HostRuntime) {
    let gate = make_meeting();
    let mut desk = MemoryDesk::new(rt.alloc()).expect(&rt, "memory");
    let bulk = ["bulk", "0", "2", "2", "r"];
    let is_done = is_done(&rt, rt.alloc(), &bulk, &mut desk, &gate);
    assert!(rt; is_done.expect(&rt, "memory"));
    assert!(rt; gate.has_met());
    assert!(rt; has(desk.file("r"), b"packets 2 left 1 dropped 1\n"));
}

// Where no job is run the traces have no elements, the links carried no octets, and nothing is exported.
#[test]
fn a_shut_gate_shows(rt: HostRuntime) {
    let alloc = rt.alloc();
    let desk = desk_after(&rt, alloc, tracing(), one_packet(), &ShutGate);
    let empty = octets(alloc, &[HEAD, "00000001 00000000 00000000 00000000"]).expect(&rt, "octets");
    assert!(rt; has(desk.file("report.txt"), b"  trace 7 800000 whole 0\n"));
    assert!(rt; !has(desk.file("report.txt"), b"hop="));
    assert!(rt; desk.file("ab.pcap") == Some(empty.as_slice()));
    let desk = desk_after(&rt, alloc, exporting(), one_packet(), &ShutGate);
    assert!(rt; desk.file("exports") == Some(b"".as_slice()));
}
