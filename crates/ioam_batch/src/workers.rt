//! The jobs of a batch in chunks, each run by a worker.
ghost use Rattle.std.specs.Prelude.{◌≡◌, ◌+◌, ◌≤◌, ◌<◌, ◌^◌, All, IsTrue, drop, length, take};
ghost use Rattle.std.specs.List.{AllZip};
ghost use Rattle.std.specs.Thread.{IsSync};
ghost use Rattle.ioam_batch.specs.Batches.{MayRun};
ghost use Rattle.ioam_batch.specs.Jobs.{HasRun, HasTaps, Holds, IsFresh, KeepsMemory};

use crate::batch::Batch;
use crate::gate::Gate;
use crate::job::Job;
use crate::running::run_job;
use ioam_clock::Readings;
use ioam_topo::Domain;
use std::thread::{Threads, join_mut};

// Runs these jobs, one after the other.
fn run_each(domain: &Domain, readings: &Readings, jobs: &mut [Job])
    requires { All (IsFresh domain.now) jobs.old }
    ensures { AllZip (HasRun domain.now readings.now) jobs.old jobs.new }
{
    'jobs: for job in jobs.iter_mut() {
        run_job(domain, readings, job);
    }
}

// Runs the jobs of a chunk where the gate opens.
fn run_chunk<G: Gate>(domain: &Domain, readings: &Readings, gate: &G, chunk: u32, jobs: &mut [Job])
    requires { All (IsFresh domain.now) jobs.old }
    ensures runs { IsTrue G.opens → AllZip (HasRun domain.now readings.now) jobs.old jobs.new }
    ensures may { AllZip (MayRun domain.now readings.now) jobs.old jobs.new }
{
    if gate.pass(chunk) {
        run_each(domain, readings, jobs);
    }
}

// Runs jobs in chunks of this size, each but the last by a thread of its own. One thread starts them
// all: where threads that start at the same moment start others, these come to wait for one core.
#[cycle(chunks)]
fn run_chunks<R: Threads + Sync, G: Gate>(
    rt: &R,
    domain: &Domain,
    readings: &Readings,
    gate: &G,
    chunk: u32,
    size: usize,
    jobs: &mut [Job],
)
    requires size { 0 < size }
    requires few { chunk + length jobs.old < 2 ^ 32 }
    requires fresh { All (IsFresh domain.now) jobs.old }
    ensures runs { IsTrue G.opens → AllZip (HasRun domain.now readings.now) jobs.old jobs.new }
    ensures may { AllZip (MayRun domain.now readings.now) jobs.old jobs.new }
{
    if jobs.len() <= size {
        run_chunk(domain, readings, gate, chunk, jobs);
        return;
    }
    let (first, others) = jobs.split_at_mut(size);
    run_beside(rt, domain, readings, gate, chunk, size, first, others);
}

// Runs the jobs of a chunk by a thread of its own, and meanwhile the others in chunks.
#[cycle(chunks)]
fn run_beside<R: Threads + Sync, G: Gate>(
    rt: &R,
    domain: &Domain,
    readings: &Readings,
    gate: &G,
    chunk: u32,
    size: usize,
    first: &mut [Job],
    others: &mut [Job],
)
    requires size { 0 < size }
    requires some { 0 < length first.old }
    requires few { chunk + 1 + length others.old < 2 ^ 32 }
    requires first { All (IsFresh domain.now) first.old }
    requires others { All (IsFresh domain.now) others.old }
    ensures first_runs { IsTrue G.opens → AllZip (HasRun domain.now readings.now) first.old first.new }
    ensures first_may { AllZip (MayRun domain.now readings.now) first.old first.new }
    ensures others_run { IsTrue G.opens → AllZip (HasRun domain.now readings.now) others.old others.new }
    ensures others_may { AllZip (MayRun domain.now readings.now) others.old others.new }
{
    let mut front = ||
        requires { All (IsFresh domain.now) first.now }
        ensures { (IsTrue G.opens → AllZip (HasRun domain.entry.now readings.entry.now) first.entry.now first.exit.now)
            × AllZip (MayRun domain.entry.now readings.entry.now) first.entry.now first.exit.now }
    { run_chunk(domain, readings, gate, chunk, first) };
    let mut back = ||
        requires { IsSync R.row × IsSync G.row × (0 < size) × (chunk + 1 + length others.now < 2 ^ 32) × All (IsFresh domain.now) others.now }
        ensures { (IsTrue G.opens → AllZip (HasRun domain.entry.now readings.entry.now) others.entry.now others.exit.now)
            × AllZip (MayRun domain.entry.now readings.entry.now) others.entry.now others.exit.now }
    { run_chunks(rt, domain, readings, gate, chunk + 1, size, others) };
    join_mut(rt, &mut front, &mut back);
}

// Runs the first so many of these jobs in chunks of this size.
fn run_front<R: Threads + Sync, G: Gate>(
    rt: &R,
    domain: &Domain,
    readings: &Readings,
    gate: &G,
    size: usize,
    count: usize,
    jobs: &mut [Job],
)
    requires size { 0 < size }
    requires count { count ≤ length jobs.old }
    requires few { count < 2 ^ 32 }
    requires fresh { All (IsFresh domain.now) (take count jobs.old) }
    ensures runs { IsTrue G.opens → AllZip (HasRun domain.now readings.now) (take count jobs.old) (take count jobs.new) }
    ensures may { AllZip (MayRun domain.now readings.now) (take count jobs.old) (take count jobs.new) }
    ensures behind { drop count jobs.new ≡ drop count jobs.old }
{
    let (waiting, _) = jobs.split_at_mut(count);
    run_chunks(rt, domain, readings, gate, 0, size, waiting);
}

/// Runs the jobs of a batch by so many workers, each on a chunk of ceil(jobs / workers) jobs that it
/// alone may write. A worker calls the gate once before its chunk, and runs the chunk's jobs where it
/// answers true. With one worker no thread is started. It takes no memory and can't fail.
///
/// With a gate that always opens each job is as [`run_job`] leaves it, whatever its chunk and the
/// workers; with any other each is so or as it was. Their number and their order stay, and what holds
/// of each before its visits and after them.
pub fn run_batch<R: Threads + Sync, G: Gate>(
    rt: &R,
    domain: &Domain,
    readings: &Readings,
    batch: &mut Batch,
    workers: u32,
    gate: &G,
)
    requires some { 1 ≤ workers }
    requires few { workers ≤ 64 }
    requires fresh { All (IsFresh domain.now) batch.old.jobs }
    ensures runs { IsTrue G.opens → AllZip (HasRun domain.now readings.now) batch.old.jobs batch.new.jobs }
    ensures may { AllZip (MayRun domain.now readings.now) batch.old.jobs batch.new.jobs }
    ensures holds { All (Holds domain.now) batch.old.jobs → All (Holds domain.now) batch.new.jobs }
    ensures taps { All (HasTaps domain.now) batch.new.jobs }
    ensures memory { AllZip KeepsMemory batch.old.jobs batch.new.jobs }
{
    let size = batch.count.div_ceil(workers as usize);
    if size == 0 {
        return;
    }
    run_front(
        rt,
        domain,
        readings,
        gate,
        size,
        batch.count,
        &mut batch.jobs,
    );
}
