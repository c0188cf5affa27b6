//! `bulk SEED COUNT WORKERS REPORT`.
ghost use Rattle.std.specs.Prelude.{◌≡◌, ◌<◌, ◌≤◌, ◌^◌, IfOk};
ghost use Rattle.std.specs.Borrow.{MutBor};
ghost use Rattle.ioam_run_arrivals.specs.Forwarding.{IsOf, taken};
ghost use Rattle.ioam_run_arrivals.specs.declared.forwarding.Forwarding.{Forwarding};
ghost use Rattle.ioam_topo_generated.specs.Bulk.{IsBulkDomain};
ghost use Rattle.ioam_run_answer.specs.Bounds.{answered};
ghost use Rattle.ioam_run_answer.specs.Desks.{around};
ghost use Rattle.ioam_run_answer.specs.declared.outcome.Outcome.TheVariants as outcome;
ghost use Rattle.ioam_run_bulk.specs.Load.{IsSkipped};
ghost use Rattle.ioam_run_bulk.specs.Promise.{Keeps, no_readings};

use crate::stage::Generating;
use crate::terms::Terms;
use ioam_base::memory::NoMemory;
use ioam_base::name::Name;
use ioam_clock::{Readings, read_readings};
use ioam_desk::Desk;
use ioam_run_answer::{Outcome, answered};
use ioam_run_arrivals::{Forwarding, Gate};
use ioam_stream::{Stop, run as run_stage};
use ioam_topo::Domain;
use ioam_topo_generated::bulk_domain;
use std::alloc::Global;
use std::slice;
use std::thread::Threads;

// No samples of any node: a file of no octets has no fault.
fn no_readings(alloc: Global, domain: &Domain) -> Result<Readings, NoMemory>
    ensures { IfOk result (λ readings. readings ≡ no_readings domain.now) }
{
    match read_readings(alloc, domain, &[]) {
        Ok(readings) => Ok(readings),
        Err(_) => Err(NoMemory),
    }
}

/// Runs `bulk SEED COUNT WORKERS REPORT`: COUNT packets, 1 to 1,000,000, that are generated behind SEED
/// are sent through a domain of five nodes in a row, the first of which encloses those for the first
/// subnet behind the last (RFC 9197 section 4.4, RFC 9486 section 3). Their jobs are run in batches by
/// WORKERS workers, 1 to 64, each asking `gate` before its jobs, and forgotten, so that what is held at
/// a time doesn't grow with COUNT. REPORT has the sums alone.
///
/// REPORT is opened first, and written behind the last arrival. No input is opened.
pub fn run_bulk<R: Threads + Sync, D: Desk, G: Gate>(
    rt: &R,
    alloc: Global,
    seed: u64,
    count: u32,
    workers: u32,
    report: &Name,
    desk: &mut D,
    gate: &G,
) -> Outcome
    requires count { (1 ≤ count) × (count ≤ 1000000) }
    requires staffed { (1 ≤ workers) × (workers ≤ 64) }
    ensures keeps { Keeps (around D.tells (D.reading desk.old) (D.reading desk.new) (D.writing desk.old) (D.writing desk.new)) seed count report.now result }
{
    let Ok(domain) = bulk_domain(alloc, count) else {
        return Outcome::NoMemory;
    };
    let Ok(readings) = no_readings(alloc, &domain) else {
        return Outcome::NoMemory;
    };
    let run = |gathered: &mut Forwarding|
        requires { (1 ≤ workers) × (workers ≤ 64) × IsOf domain gathered.old × (taken gathered.old < 2 ^ 33) }
        ensures { IsSkipped domain readings gathered.old gathered.new }
    { gathered.skip(rt, workers, gate, &domain, &readings) };
    let stop = run_by(alloc, &run, seed, count, &domain, &readings, report, desk);
    answered(stop, Outcome::Done)
}

// Opens the one file, and writes to it the sums of the arrivals, whose jobs are run by `run`. It answers no
// `Outcome`: that names `'static`, and the check of borrows covers no such call with a closure.
fn run_by<F: Fn(&mut Forwarding), D: Desk>(
    alloc: Global,
    run: &F,
    seed: u64,
    count: u32,
    domain: &Domain,
    readings: &Readings,
    report: &Name,
    desk: &mut D,
) -> Stop
    requires domain { IsBulkDomain count domain.now }
    requires readings { readings.now ≡ no_readings domain.now }
    requires may_run { (p : MutBor Forwarding) → IsOf domain.now p.now → taken p.now < 2 ^ 33 → F.pre run.now p }
    requires runs { (p q : MutBor Forwarding) (done : Unit {0}) → IsOf domain.now p.now → F.post run.now p done q
        → IsSkipped domain.now readings.now p.now q.now }
    ensures keeps { Keeps (around D.tells (D.reading desk.old) (D.reading desk.new) (D.writing desk.old) (D.writing desk.new)) seed count report.now (answered result outcome.Done) }
{
    let terms = Terms {
        run,
        seed,
        count,
        domain,
        readings,
    };
    let Ok(mut stage) = Generating::new(alloc, terms) else {
        return Stop::NoMemory;
    };
    run_stage(alloc, desk, &[], slice::from_ref(report), &mut stage)
}
