//! The texts of a run, gathered batch by batch.
ghost use Rattle.std.specs.Prelude.{◌≡◌, ◌↔◌, ◌+◌, ◌<◌, ◌≤◌, ◌^◌, ◌∷◌, ◌++◌, [], Bool, IsTrue, List, ℕ, OnOk, length};
ghost use Rattle.ioam_clock.specs.declared.sample.Sample.{Sample};
ghost use Rattle.ioam_run_texts.specs.Fate.{Frame};
ghost use Rattle.ioam_run_texts.specs.Texts.{sums_by};
ghost use Rattle.ioam_run_outputs.specs.Outlets.{outlet_count};
ghost use Rattle.ioam_desk_outputs.specs.Told.{Adds, said_more};
ghost use Rattle.ioam_pcap.specs.Entries.{most};
ghost use Rattle.ioam_topo.specs.Domain.{ports};
ghost use Rattle.ioam_run_arrivals.specs.Forwarding.{Forwards, Forwarded, IsOf, NoneWaits, frame_of, has_room, taken};

use crate::arriving::{Arrival, add_job};
use crate::telling::put_jobs;
use ioam_base::memory::NoMemory;
use ioam_batch::{Batch, Gate, run_batch};
use ioam_clock::Readings;
use ioam_desk_outputs::Output;
use ioam_plan::Counters;
use ioam_report::{Sums, put_sums};
use ioam_run_outputs::place_of_report;
use ioam_topo::{Domain, LinkId};
use std::alloc::Global;
use std::thread::Threads;

/// The arrivals of a run, as they are numbered and counted, and the jobs of those that were not told
/// yet. Its outputs are, in this order: for each port of the domain, in file order, a capture of the
/// packets that leave by it; for each link with a tap, in file order, a capture of what crosses it; the
/// report; the export records.
#[derive(Drop)]
pub struct Forwarding {
    /// What was counted of the arrivals so far.
    pub sums: Sums,
    /// How many packets were enclosed in each flow.
    pub counters: Counters,
    /// The links that have a tap, in file order.
    pub taps: Vec<LinkId>,
    /// The jobs of the arrivals that wait.
    pub batch: Batch,
    /// How many arrivals were told.
    pub told: u64,
}

impl Forwarding {
    /// How many arrivals were taken.
    pub fn taken(&self) -> u64
        ensures { result ≡ taken self.now }
    {
        self.sums.packets
    }

    /// Whether no arrival waits.
    pub fn none_waits(&self) -> bool
        ensures { IsTrue result ↔ NoneWaits self.now }
    {
        self.batch.jobs().is_empty()
    }

    /// Whether one more arrival may be taken before what waits is told.
    pub fn has_room(&self) -> bool
        ensures { result ≡ has_room self.now }
    {
        self.batch.has_room()
    }

    /// Takes the next arrival. It draws its number where it is enclosed, is counted, and its job waits, in
    /// the memory of one that was told where that has the room; nothing is told. Fewer than 2^32 arrivals
    /// were taken. After NoMemory nothing is known of what was counted and waits.
    pub fn take(
        &mut self,
        alloc: Global,
        domain: &Domain,
        readings: &Readings,
        arrival: &Arrival<'_>,
    ) -> Result<(), NoMemory>
        requires of { IsOf domain.now self.old }
        requires room { IsTrue (has_room self.old) }
        requires port { arrival.now.port.0 < length (ports domain.now) }
        requires time { arrival.now.captured.time < 2 ^ 62 }
        requires short { length arrival.now.captured.octets.now ≤ most }
        requires few { taken self.old < 2 ^ 32 }
        ensures of { OnOk result (IsOf domain.now self.new) }
        ensures counted { OnOk result (taken self.new ≡ taken self.old + 1) }
        ensures gathers { OnOk result ((opens : Bool) (frames : List Frame) (so_far : List (List ℕ))
            → Forwards opens domain.now readings.now frames so_far self.old
            → Forwards opens domain.now readings.now
            (frames ++ frame_of arrival.now ∷ []) so_far self.new) }
    {
        add_job(
            alloc,
            &mut self.batch,
            domain,
            readings,
            &mut self.counters,
            arrival,
        )?;
        self.sums.note(self.batch.last().itinerary());
        Ok(())
    }

    /// Runs the jobs that wait by so many workers, and tells what they leave, in the order of arrival.
    /// None waits then. Without memory some of it may be told, and nothing is known of what waits.
    pub fn tell<R: Threads + Sync, G: Gate>(
        &mut self,
        rt: &R,
        workers: u32,
        gate: &G,
        domain: &Domain,
        readings: &Readings,
        outputs: &mut [Output],
    ) -> Result<(), NoMemory>
        requires staffed { (1 ≤ workers) × (workers ≤ 64) }
        requires of { IsOf domain.now self.old }
        requires few { taken self.old < 2 ^ 33 }
        requires width { length outputs.old ≡ outlet_count domain.now }
        ensures of { OnOk result (IsOf domain.now self.new) }
        ensures counted { OnOk result (taken self.new ≡ taken self.old) }
        ensures none { OnOk result (NoneWaits self.new) }
        ensures gathers { OnOk result ((added : List (List ℕ)) × Adds outputs.old outputs.new added
            × ((frames : List Frame) (so_far : List (List ℕ)) → Forwards G.opens domain.now readings.now frames so_far self.old
            → Forwards G.opens domain.now readings.now frames (said_more so_far added) self.new)) }
    {
        run_batch(rt, domain, readings, &mut self.batch, workers, gate);
        let jobs = self.batch.jobs();
        put_jobs(domain, &self.taps, self.told, jobs, outputs)?;
        self.told += jobs.len() as u64;
        self.batch.clear();
        Ok(())
    }

    /// Adds the sums to the report, behind the last arrival, where none waits. The texts are then whole,
    /// and every packet that left by a port has a whole chain of headers and no IOAM option on it: IOAM
    /// data stays inside its domain (RFC 9197 section 3). No record has more than 262,144 octets.
    pub fn put_sums(&self, domain: &Domain, outputs: &mut [Output]) -> Result<(), NoMemory>
        requires none { NoneWaits self.now }
        requires width { length outputs.old ≡ outlet_count domain.now }
        ensures adds { OnOk result (Adds outputs.old outputs.new (sums_by domain.now self.now.sums)) }
        ensures whole { OnOk result ((opens : Bool) (readings : List (List Sample)) (frames : List Frame) (so_far : List (List ℕ))
            → Forwards opens domain.now readings frames so_far self.now
            → Forwarded opens domain.now readings frames (said_more so_far (sums_by domain.now self.now.sums))) }
    {
        let report = place_of_report(outputs.len());
        put_sums(domain, &self.sums, &mut outputs[report].gathered)?;
        Ok(())
    }
}
