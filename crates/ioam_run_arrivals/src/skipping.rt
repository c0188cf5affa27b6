//! Arrivals of which nothing is told but the sums.
ghost use Rattle.std.specs.Prelude.{◌≡◌, ◌<◌, ◌≤◌, ◌^◌, [], false, Bool, List, ℕ, IfOk};
ghost use Rattle.ioam_clock.specs.declared.sample.Sample.{Sample};
ghost use Rattle.ioam_run_texts.specs.Fate.{Frame};
ghost use Rattle.ioam_run_texts.specs.Texts.{texts_so_far};
ghost use Rattle.ioam_run_arrivals.specs.Forwarding.{Forwards, IsOf, NoneWaits, taken};

use crate::forwarding::Forwarding;
use ioam_base::memory::NoMemory;
use ioam_batch::{Batch, Gate, run_batch};
use ioam_clock::Readings;
use ioam_plan::Counters;
use ioam_report::Sums;
use ioam_run_outputs::tapped_links;
use ioam_topo::Domain;
use std::alloc::Global;
use std::thread::Threads;

impl Forwarding {
    /// No arrivals yet of a domain. No output gets the head of a capture.
    pub fn start(alloc: Global, domain: &Domain) -> Result<Forwarding, NoMemory>
        ensures of { IfOk result (IsOf domain.now) }
        ensures counted { IfOk result (λ gathered. taken gathered ≡ 0) }
        ensures gathers { IfOk result (λ gathered. (opens : Bool) (readings : List (List Sample))
            → Forwards opens domain.now readings [] (texts_so_far domain.now readings []) gathered) }
    {
        let sums = Sums::new(alloc, domain)?;
        let counters = Counters::new(alloc, domain)?;
        let taps = tapped_links(alloc, domain)?;
        let batch = Batch::new(alloc)?;
        Ok(Forwarding {
            sums,
            counters,
            taps,
            batch,
            told: 0,
        })
    }

    /// Runs the jobs that wait by so many workers, and forgets what they leave. None waits then. What
    /// the outputs were told of any arrival isn't known afterwards, the sums and the numbers stay. It
    /// takes no memory.
    pub fn skip<R: Threads + Sync, G: Gate>(
        &mut self,
        rt: &R,
        workers: u32,
        gate: &G,
        domain: &Domain,
        readings: &Readings,
    )
        requires staffed { (1 ≤ workers) × (workers ≤ 64) }
        requires of { IsOf domain.now self.old }
        requires few { taken self.old < 2 ^ 33 }
        ensures of { IsOf domain.now self.new }
        ensures counted { taken self.new ≡ taken self.old }
        ensures none { NoneWaits self.new }
        ensures gathers { (frames : List Frame) (texts : List (List ℕ)) → Forwards false domain.now readings.now frames texts self.old
            → Forwards false domain.now readings.now frames texts self.new }
    {
        run_batch(rt, domain, readings, &mut self.batch, workers, gate);
        let jobs = self.batch.jobs();
        self.told += jobs.len() as u64;
        self.batch.clear();
    }
}
