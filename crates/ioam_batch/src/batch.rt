//! Jobs that are run together.
ghost use Rattle.std.specs.Prelude.{◌≡◌, ◌<◌, ◌≤◌, ◌++◌, ◌∷◌, [], All, List, IfErr, IfOk, IsTrue, OnOk, length};
ghost use Rattle.ioam_batch.specs.Batches.{IsSmall, has_room};
ghost use Rattle.ioam_batch.specs.Made.{IsMade};
ghost use Rattle.ioam_batch.specs.declared.job.Job.{Job};
ghost use Rattle.ioam_plan.specs.Rides.{Rides};

use crate::job::Job;
use crate::places::{keep_small, make_at, make_place, put_job_at, visits_at};
use ioam_base::memory::NoMemory;
use ioam_plan::{Itinerary, Visits};
use ioam_topo::Domain;
use std::alloc::Global;
use std::marker::Model;

/// A batch has room while it has fewer jobs.
const MOST_JOBS: usize = 256;

/// A batch has room while its jobs have fewer octets reserved: 64 MiB.
const MOST_RESERVED: u64 = 1 << 26;

/// The memory of a job is kept for one to come where it has no more octets reserved.
const MOST_KEPT: usize = 1 << 16;

/// Jobs that are run together, and behind them jobs that were told, in whose memory others are made.
#[derive(Drop)]
pub struct Batch {
    pub(crate) jobs: Vec<Job>,
    // So many of the jobs wait: the first.
    pub(crate) count: usize,
    // How many octets these have reserved.
    pub(crate) reserved: u64,
    // Whether one of these may have more octets reserved than are kept for one to come. None behind has.
    pub(crate) has_large: bool,
}

impl Model for Batch {
    ghost use Rattle.std.specs.Prelude.{drop, take, vec_capacity};
    ghost use Rattle.ioam_batch.specs.Batches.{Batched, IsBatch};

    ghost Value = { Batched };

    ghost view = { λ batch. record { jobs = take batch.count batch.jobs.items; kept = drop batch.count batch.jobs.items } };

    ghost invariant = { λ batch. IsBatch batch.jobs.items (vec_capacity batch.jobs) batch.count batch.reserved batch.has_large };
}

impl Batch {
    /// A batch of no jobs, with room for as many as it ever has.
    pub fn new(alloc: Global) -> Result<Batch, NoMemory>
        ensures jobs { IfOk result (λ batch. batch.jobs ≡ []) }
        ensures kept { IfOk result (λ batch. batch.kept ≡ []) }
    {
        Ok(Batch {
            jobs: Vec::with_capacity(alloc, MOST_JOBS)?,
            count: 0,
            reserved: 0,
            has_large: false,
        })
    }

    /// Whether one more job may be pushed: exactly where there are fewer than 256, and the octets that
    /// they have reserved are fewer than 64 MiB.
    pub fn has_room(&self) -> bool
        ensures { result ≡ has_room self.now.jobs }
    {
        self.count < MOST_JOBS && self.reserved < MOST_RESERVED
    }

    /// Puts a job behind the others. It takes no memory: the capacity of the vector of jobs is 256 before
    /// and after, as the invariant says.
    pub fn push(&mut self, job: Job)
        requires { IsTrue (has_room self.old.jobs) }
        ensures { self.new.jobs ≡ self.old.jobs ++ job ∷ [] }
    {
        let reserved = job.reserved();
        put_job_at(&mut self.jobs, self.count, job);
        self.count += 1;
        self.reserved += reserved as u64;
        self.has_large |= reserved > MOST_KEPT;
    }

    /// Makes the job of a packet that goes by an itinerary, as [`Job::new`] says it, behind the others, in
    /// the memory of one that was told: more is taken only where that has too little room. After NoMemory
    /// the jobs are as they were.
    pub fn make(
        &mut self,
        alloc: Global,
        domain: &Domain,
        itinerary: Itinerary,
        packet: &[u8],
    ) -> Result<(), NoMemory>
        requires room { IsTrue (has_room self.old.jobs) }
        requires rides { Rides domain.now packet.now itinerary }
        ensures made { OnOk result ((job : Job) × IsMade domain.now packet.now itinerary job × (self.new.jobs ≡ self.old.jobs ++ job ∷ [])) }
        ensures as_before { IfErr result (λ _. self.new.jobs ≡ self.old.jobs) }
    {
        make_place(alloc, &mut self.jobs, self.count);
        let reserved = make_at(alloc, &mut self.jobs, self.count, domain, itinerary, packet)?;
        self.count += 1;
        self.reserved += reserved as u64;
        self.has_large |= reserved > MOST_KEPT;
        Ok(())
    }

    /// The jobs, in their order; at most 256.
    pub fn jobs(&self) -> &[Job]
        ensures value { result.now ≡ self.now.jobs }
        ensures few { length self.now.jobs ≤ 256 }
    {
        &self.jobs[..self.count]
    }

    /// The last of the jobs.
    pub fn last(&self) -> &Job
        requires { 0 < length self.now.jobs }
        ensures { (front : List Job) × (self.now.jobs ≡ front ++ result.now ∷ []) }
    {
        &self.jobs[self.count - 1]
    }

    /// The memory of the visits of a job that was told, for a way to be planned in; that of none where
    /// there is no such job. It takes no memory.
    pub fn spare_visits(&mut self, alloc: Global) -> Visits
        ensures { self.new.jobs ≡ self.old.jobs }
    {
        visits_at(alloc, &mut self.jobs, self.count)
    }

    /// Takes the jobs away. Their memory is kept for jobs to come: that of at most 256 jobs, each of which
    /// had at most 65,536 octets reserved, 16 MiB in all; that of the others is handed back. The batch keeps
    /// its own: the capacity of its vector stays 256.
    pub fn clear(&mut self)
        ensures none { self.new.jobs ≡ [] }
        ensures few { length self.new.kept ≤ 256 }
        ensures small { All IsSmall self.new.kept }
    {
        if self.has_large {
            keep_small(&mut self.jobs, MOST_KEPT);
            self.has_large = false;
        }
        self.count = 0;
        self.reserved = 0;
    }
}
