//! Packets in batches.
ghost use Rattle.std.specs.Prelude.{All};
ghost use Rattle.ioam_batch.specs.Jobs.{IsFresh};

use crate::batch::making::make_job;
use crate::batch::rows::{Row, after, before, domain_texts};
use crate::file::is_read_so;
use ioam_base::memory::NoMemory;
use ioam_batch::{Batch, Gate, Job, OpenGate, run_batch};
use ioam_clock::{Readings, read_readings};
use ioam_test_gates::{ShutGate, make_meeting};
use ioam_test_rows::digits::{UDP, octets, text};
use ioam_topo::Domain;
use std::alloc::Global;
use std::process::Abort;
use std::thread::Threads;

// A job of the packet of the rows.
fn job(rt: &impl Abort, alloc: Global, domain: &Domain, readings: &Readings) -> Job
    ensures { IsFresh domain.now result }
{
    let packet = octets(alloc, &[UDP]).expect(rt, "memory");
    make_job(alloc, domain, readings, &packet).expect(rt, "a job")
}

// Two of them.
fn two_jobs(rt: &impl Abort, alloc: Global, domain: &Domain, readings: &Readings) -> Batch
    ensures { All (IsFresh domain.now) result.jobs }
{
    let mut batch = Batch::new(alloc).expect(rt, "memory");
    batch.push(job(rt, alloc, domain, readings));
    assert!(rt; batch.has_room());
    batch.push(job(rt, alloc, domain, readings));
    batch
}

// Whether octets are these.
fn are(alloc: Global, digits: &[&str], found: &[u8]) -> bool {
    match octets(alloc, digits) {
        Ok(wanted) => wanted.as_slice() == found,
        Err(NoMemory) => false,
    }
}

// Whether a visit sent these octets on a link with a tap.
fn crosses(alloc: Global, job: &Job, visit: usize, digits: &[&str]) -> bool {
    match job.crossing(visit) {
        Some(found) => are(alloc, digits, found),
        None => false,
    }
}

// Whether a job is as a row says.
fn is_so(alloc: Global, job: &Job, row: &Row) -> bool {
    are(alloc, row.packet, job.packet())
        && crosses(alloc, job, 0, row.first)
        && crosses(alloc, job, 1, row.second)
        && job.crossing(2).is_none()
        && are(alloc, row.exports, job.room().exports())
}

// Whether two jobs are, and each has this room.
fn are_so(alloc: Global, jobs: &[Job], row: &Row) -> bool {
    for job in jobs {
        if job.reserved() != 2052 || !is_so(alloc, job, row) {
            return false;
        }
    }
    jobs.len() == 2
}

// Whether two jobs are as a row says once two workers ran them behind a gate.
fn run_two<G: Gate>(
    rt: &(impl Abort + Threads + Sync),
    alloc: Global,
    domain: &Domain,
    readings: &Readings,
    gate: &G,
    row: &Row,
) -> bool {
    let mut batch = two_jobs(rt, alloc, domain, readings);
    run_batch(rt, domain, readings, &mut batch, 2, gate);
    are_so(alloc, batch.jobs(), row)
}

// Whether there is room and no job still once 64 workers ran a batch of none behind a gate.
fn run_none<G: Gate>(
    rt: &(impl Abort + Threads + Sync),
    alloc: Global,
    domain: &Domain,
    readings: &Readings,
    gate: &G,
) -> bool {
    let mut batch = Batch::new(alloc).expect(rt, "memory");
    run_batch(rt, domain, readings, &mut batch, 64, gate);
    batch.jobs().is_empty() && batch.has_room()
}

// Whether both are so by readings that say nothing.
fn run_both<G: Gate>(
    rt: &(impl Abort + Threads + Sync),
    alloc: Global,
    domain: &Domain,
    gate: &G,
    row: &Row,
) -> bool {
    match read_readings(alloc, domain, b"") {
        Ok(readings) => run_none(rt, alloc, domain, &readings, gate)
            && run_two(rt, alloc, domain, &readings, gate, row),
        Err(_) => false,
    }
}

// Whether they are in the domain of the rows.
fn runs<G: Gate>(rt: &(impl Abort + Threads + Sync), alloc: Global, gate: &G, row: &Row) -> bool {
    match text(alloc, domain_texts()) {
        Ok(file) => is_read_so(
            alloc,
            file.as_slice(),
            |domain| run_both(rt, alloc, domain, gate, row),
        ),
        Err(NoMemory) => false,
    }
}

#[test]
fn two_chunks_meet(rt: HostRuntime) {
    let gate = make_meeting();
    assert!(rt; runs(&rt, rt.alloc(), &gate, after()));
    assert!(rt; gate.has_met());
}

#[test]
fn a_shut_gate_leaves_jobs_as_they_were(rt: HostRuntime) {
    assert!(rt; runs(&rt, rt.alloc(), &ShutGate, before()));
}

#[test]
fn an_open_gate_runs_them(rt: HostRuntime) {
    assert!(rt; runs(&rt, rt.alloc(), &OpenGate, after()));
}
