//! The visits of a job, done one after the other.
ghost use Rattle.ioam_batch.specs.Jobs.{HasRun, HasTaps, Holds, IsFresh, KeepsMemory};
ghost use Rattle.ioam_batch.specs.Sends.{SendsSo};

use crate::job::Job;
use crate::plainly::lower;
use crate::tunnel::{send, send_out};
use ioam_clock::Readings;
use ioam_topo::Domain;

// All visits of a job of which none is done.
fn do_visits(domain: &Domain, readings: &Readings, job: &mut Job)
    requires { IsFresh domain.now job.old }
    ensures { HasRun domain.now readings.now job.old job.new }
{
    let visits = job.itinerary.visits.list();
    if job.itinerary.carried.is_none() {
        lower(visits.len(), &mut job.packet, &mut job.crossings);
    } else if job.itinerary.exited {
        send_out(
            domain,
            readings,
            visits,
            &mut job.packet,
            &mut job.crossings,
            &mut job.room,
        );
    } else {
        send(
            domain,
            readings,
            visits,
            visits.len(),
            &mut job.packet,
            &mut job.crossings,
            &mut job.room,
        );
    }
}

/// Does all visits of a job of which none is done. It takes no memory and can't fail.
///
/// An enclosed packet is then as the last node sent it, or as its exit left it; one that isn't enclosed
/// has a hop limit that is lower by one for each visit. The octets sent on links with a tap, the notes
/// and the export records are those of the visits, in their order: a visit with a tap sent the packet as
/// that visit and those before it left it.
pub fn run_job(domain: &Domain, readings: &Readings, job: &mut Job)
    requires { IsFresh domain.now job.old }
    ensures runs { HasRun domain.now readings.now job.old job.new }
    ensures keeps { Holds domain.now job.old → Holds domain.now job.new }
    ensures sent { SendsSo domain.now readings.now job.old job.new }
    ensures taps { HasTaps domain.now job.new }
    ensures memory { KeepsMemory job.old job.new }
{
    do_visits(domain, readings, job);
}
