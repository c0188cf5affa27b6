//! A job of which no visit is done.
ghost use Rattle.std.specs.Prelude.{◌≡◌, ◌<◌, ◌^◌, All, IfOk, IfSome, IsTrue, length};
ghost use Rattle.ioam_batch.specs.Jobs.{IsFresh};
ghost use Rattle.ioam_node.specs.Admission.{packet_of};
ghost use Rattle.ioam_plan.specs.Rides.{Rides};
ghost use Rattle.ioam_topo.specs.Domain.{flows, ports};

use ioam_base::memory::NoMemory;
use ioam_batch::Job;
use ioam_clock::Readings;
use ioam_node::{Admit, admit};
use ioam_plan::{Counters, Itinerary, plan};
use ioam_topo::{Domain, PortId};
use std::alloc::Global;

// When the packet comes.
const TIME: u64 = 1_000_000_000;

// Whether a domain has a port.
fn has_port(domain: &Domain) -> bool
    ensures { IsTrue result → 0 < length (ports domain.now) }
{
    !domain.ports().is_empty()
}

// The packet that was taken in.
fn taken<'a>(admitted: &Admit<'a>) -> &'a [u8]
    ensures { result.now ≡ packet_of admitted.now }
{
    match admitted {
        Admit::Enclose { packet, .. } => packet,
        Admit::Plain { packet } => packet,
        Admit::Drop(_) => &[],
    }
}

// Counters of no arrivals.
fn start(alloc: Global, domain: &Domain) -> Result<Counters, NoMemory>
    ensures known { IfOk result (λ counters. length counters ≡ length (flows domain.now)) }
    ensures few { IfOk result (λ counters. All (λ number. number < 2 ^ 32) counters) }
{
    let counters = Counters::new(alloc, domain)?;
    Ok(counters)
}

// The job of a packet that arrives first, at the first port.
fn job_of(
    alloc: Global,
    domain: &Domain,
    readings: &Readings,
    frame: &[u8],
) -> Result<Job, NoMemory>
    requires { 0 < length (ports domain.now) }
    ensures { IfOk result (IsFresh domain.now) }
{
    let admitted = admit(domain, PortId(0), false, false, frame);
    let packet = taken(&admitted);
    let mut counters = start(alloc, domain)?;
    let itinerary = plan(
        alloc,
        domain,
        readings,
        &mut counters,
        PortId(0),
        TIME,
        &admitted,
    )?;
    let job = Job::new(alloc, domain, itinerary, packet)?;
    Ok(job)
}

/// The job of a packet that arrives first, at the first port, where there is one, and there is memory.
pub(crate) fn make_job(
    alloc: Global,
    domain: &Domain,
    readings: &Readings,
    frame: &[u8],
) -> Option<Job>
    ensures { IfSome result (IsFresh domain.now) }
{
    if !has_port(domain) {
        return None;
    }
    match job_of(alloc, domain, readings, frame) {
        Ok(job) => Some(job),
        Err(NoMemory) => None,
    }
}
