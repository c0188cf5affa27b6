//! Arrivals that are made into jobs.
ghost use Rattle.std.specs.Prelude.{◌≡◌, ◌<◌, ◌≤◌, ◌^◌, ◌∷◌, ◌++◌, [], All, IfErr, IsTrue, OnOk, length};
ghost use Rattle.ioam_batch.specs.Batches.{has_room};
ghost use Rattle.ioam_batch.specs.declared.job.Job.{Job};
ghost use Rattle.ioam_node.specs.Admission.{packet_of};
ghost use Rattle.ioam_pcap.specs.Entries.{most};
ghost use Rattle.ioam_topo.specs.Domain.{flows, ports};
ghost use Rattle.ioam_run_arrivals.specs.Adding.{IsAdded};

use ioam_base::memory::NoMemory;
use ioam_batch::Batch;
use ioam_clock::Readings;
use ioam_ip::Layer;
use ioam_node::{Admit, admit_in_layer};
use ioam_pcap::Packet;
use ioam_plan::{Counters, plan_in};
use ioam_topo::{Domain, PortId};
use std::alloc::Global;

/// A packet that was captured at a port, and the layer that its frame begins at.
#[derive(Clone, Copy)]
pub struct Arrival<'a> {
    /// The port by which it comes.
    pub port: PortId,
    /// The layer that the frame begins at.
    pub layer: Layer,
    /// What was captured of it, and when.
    pub captured: Packet<'a>,
}

// The packet that is taken in; no octets where the frame is dropped.
fn packet_of<'a>(admitted: &Admit<'a>) -> &'a [u8]
    ensures { result.now ≡ packet_of admitted.now }
{
    match admitted {
        Admit::Plain { packet } => packet,
        Admit::Enclose { packet, .. } => packet,
        Admit::Drop(_) => &[],
    }
}

/// Makes the job of an arrival, of which no visit is done, behind those of a batch, in the memory of a job
/// that was told where that has the room. Where it is enclosed it draws its number: the counters, which
/// stand for the arrivals before, then stand for this one too. After NoMemory the batch is as it was.
pub(crate) fn add_job(
    alloc: Global,
    batch: &mut Batch,
    domain: &Domain,
    readings: &Readings,
    counters: &mut Counters,
    arrival: &Arrival<'_>,
) -> Result<(), NoMemory>
    requires room { IsTrue (has_room batch.old.jobs) }
    requires port { arrival.now.port.0 < length (ports domain.now) }
    requires time { arrival.now.captured.time < 2 ^ 62 }
    requires short { length arrival.now.captured.octets.now ≤ most }
    requires counters { length counters.old ≡ length (flows domain.now) }
    requires few { All (λ number. number < 2 ^ 32) counters.old }
    ensures added { OnOk result ((job : Job) × IsAdded domain.now readings.now counters.old counters.new arrival.now job
        × (batch.new.jobs ≡ batch.old.jobs ++ job ∷ [])) }
    ensures as_before { IfErr result (λ _. batch.new.jobs ≡ batch.old.jobs) }
{
    let captured = &arrival.captured;
    let admitted = admit_in_layer(
        domain,
        arrival.port,
        arrival.layer,
        captured.is_cut(),
        captured.octets,
    );
    let itinerary = plan_in(
        alloc,
        batch.spare_visits(alloc),
        domain,
        readings,
        counters,
        arrival.port,
        captured.time,
        &admitted,
    )?;
    batch.make(alloc, domain, itinerary, packet_of(&admitted))?;
    Ok(())
}
