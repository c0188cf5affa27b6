//! The places of a batch: jobs that wait and, behind them, jobs in whose memory others are made.
ghost use Rattle.std.specs.Prelude.{◌≡◌, ◌+◌, ◌<◌, ◌≤◌, ◌++◌, ◌∷◌, [], All, IfErr, IfOk, drop, length, take, vec_capacity};
ghost use Rattle.ioam_batch.specs.Batches.{IsSmall};
ghost use Rattle.ioam_batch.specs.Jobs.{reserved_of};
ghost use Rattle.ioam_batch.specs.Made.{IsMade};
ghost use Rattle.ioam_batch.specs.declared.job.Job.{Job};
ghost use Rattle.ioam_plan.specs.Rides.{Rides};

use crate::job::Job;
use ioam_base::memory::NoMemory;
use ioam_plan::{Itinerary, Visits};
use ioam_topo::Domain;
use std::alloc::Global;

// Puts a job behind all others. It takes no memory.
fn append(jobs: &mut Vec<Job>, job: Job)
    requires { length jobs.old.items < vec_capacity jobs.old }
    ensures items { jobs.new.items ≡ jobs.old.items ++ job ∷ [] }
    ensures room { vec_capacity jobs.new ≡ vec_capacity jobs.old }
{
    // never refused: there is room for one more. `insert` says that it stays in its block
    let _ = jobs.insert(jobs.len(), job);
}

/// Puts a job into a place: over the one that stands there, or behind all others. It takes no memory.
pub(crate) fn put_job_at(jobs: &mut Vec<Job>, place: usize, job: Job)
    requires place { place ≤ length jobs.old.items }
    requires room { place < vec_capacity jobs.old }
    ensures front { take (place + 1) jobs.new.items ≡ take place jobs.old.items ++ job ∷ [] }
    ensures behind { drop (place + 1) jobs.new.items ≡ drop (place + 1) jobs.old.items }
    ensures there { place < length jobs.new.items }
    ensures room { vec_capacity jobs.new ≡ vec_capacity jobs.old }
{
    if place < jobs.len() {
        jobs[place] = job;
    } else {
        append(jobs, job);
    }
}

/// Sees that a job stands at a place. It takes no memory.
pub(crate) fn make_place(alloc: Global, jobs: &mut Vec<Job>, place: usize)
    requires place { place ≤ length jobs.old.items }
    requires room { place < vec_capacity jobs.old }
    ensures front { take place jobs.new.items ≡ take place jobs.old.items }
    ensures small { All IsSmall (drop place jobs.old.items) → All IsSmall (drop place jobs.new.items) }
    ensures there { place < length jobs.new.items }
    ensures room { vec_capacity jobs.new ≡ vec_capacity jobs.old }
{
    if place == jobs.len() {
        append(jobs, Job::none(alloc));
    }
}

/// Makes the job of a packet at a place, in the memory of the one that stands there, and answers how many
/// octets it has reserved. After NoMemory the one there has no more than it had.
pub(crate) fn make_at(
    alloc: Global,
    jobs: &mut Vec<Job>,
    place: usize,
    domain: &Domain,
    itinerary: Itinerary,
    packet: &[u8],
) -> Result<usize, NoMemory>
    requires place { place < length jobs.old.items }
    requires rides { Rides domain.now packet.now itinerary }
    ensures made { IfOk result (λ reserved. (job : Job) × IsMade domain.now packet.now itinerary job × (reserved ≡ reserved_of job)
        × (take (place + 1) jobs.new.items ≡ take place jobs.old.items ++ job ∷ [])) }
    ensures front { take place jobs.new.items ≡ take place jobs.old.items }
    ensures behind { drop (place + 1) jobs.new.items ≡ drop (place + 1) jobs.old.items }
    ensures small { IfErr result (λ _. All IsSmall (drop place jobs.old.items) → All IsSmall (drop place jobs.new.items)) }
    ensures few { length jobs.new.items ≡ length jobs.old.items }
    ensures room { vec_capacity jobs.new ≡ vec_capacity jobs.old }
{
    let job = &mut jobs[place];
    match job.renew(alloc, domain, itinerary, packet) {
        Ok(()) => Ok(job.reserved()),
        Err(NoMemory) => Err(NoMemory),
    }
}

/// Takes the memory of the visits of the job at a place out; that of none where no job stands there.
pub(crate) fn visits_at(alloc: Global, jobs: &mut Vec<Job>, place: usize) -> Visits
    ensures front { take place jobs.new.items ≡ take place jobs.old.items }
    ensures small { All IsSmall (drop place jobs.old.items) → All IsSmall (drop place jobs.new.items) }
    ensures few { length jobs.new.items ≡ length jobs.old.items }
    ensures room { vec_capacity jobs.new ≡ vec_capacity jobs.old }
{
    if place < jobs.len() {
        jobs[place].take_visits(alloc)
    } else {
        Visits::none(alloc)
    }
}

/// Hands the memory of all jobs back that have more octets reserved than these.
pub(crate) fn keep_small(jobs: &mut Vec<Job>, most: usize)
    ensures small { All (λ job. reserved_of job ≤ most) jobs.new.items }
    ensures room { vec_capacity jobs.new ≡ vec_capacity jobs.old }
{
    jobs.retain(|job| job.reserved() <= most);
}
