//! What one arrival tells the outputs of a run.
ghost use Rattle.std.specs.Prelude.{◌≡◌, List, ℕ, OnOk, length};
ghost use Rattle.ioam_batch.specs.Jobs.{Holds};
ghost use Rattle.ioam_pcap.specs.Text.{Sent};
ghost use Rattle.ioam_run_outputs.specs.Outlets.{outlet_count, tapped};
ghost use Rattle.ioam_desk_outputs.specs.Told.{Adds};
ghost use Rattle.ioam_topo.specs.Domain.{links};
ghost use Rattle.ioam_run_texts.specs.Standing.{LeavesAt, job_texts};
ghost use Rattle.ioam_run_texts.specs.Texts.{heads};
ghost use Rattle.ioam_run_texts.specs.Told.{AreTextsOf};

use crate::crossing::put_taps;
use crate::leaving::put_left;
use crate::reporting::{put_exports, put_report};
use ioam_base::memory::NoMemory;
use ioam_batch::Job;
use ioam_desk_outputs::Output;
use ioam_pcap::put_head;
use ioam_run_outputs::place_of_report;
use ioam_topo::{Domain, LinkId};

/// Appends the head of a capture to the output of each port and of each tap. Without memory a part of it may
/// be appended.
pub fn put_heads(domain: &Domain, outputs: &mut [Output]) -> Result<(), NoMemory>
    requires { length outputs.old ≡ outlet_count domain.now }
    ensures { OnOk result (Adds outputs.old outputs.new (heads domain.now)) }
{
    'captures: for at in 0..place_of_report(outputs.len()) {
        put_head(&mut outputs[at].gathered)?;
    }
    Ok(())
}

/// Appends what a job tells each output, as it stands: where its packet leaves by a port, the packet's
/// record to that port's capture; to each tap's capture what its visits sent on that link; to the
/// report the line of the arrival with this number, and the lines of the traces of a packet that
/// reached the exit of its tunnel; to the exports its records. `taps` are the links with a tap. Without
/// memory a part of it may be appended.
pub fn put_job(
    domain: &Domain,
    taps: &[LinkId],
    number: u64,
    job: &Job,
    outputs: &mut [Output],
) -> Result<(), NoMemory>
    requires taps { taps.now ≡ tapped (links domain.now) }
    requires holds { Holds domain.now job.now }
    requires width { length outputs.old ≡ outlet_count domain.now }
    ensures texts { OnOk result ((added : List (List ℕ)) × Adds outputs.old outputs.new added × AreTextsOf domain.now number job.now added) }
    // Whether it ran or not.
    ensures exact { OnOk result ((left : List Sent) × LeavesAt job.now.itinerary.end job.now left
        × Adds outputs.old outputs.new (job_texts domain.now number job.now left)) }
{
    put_left(domain, job, outputs)?;
    put_taps(domain, taps, job, outputs)?;
    put_report(domain, number, job, outputs)?;
    put_exports(domain, job, outputs)?;
    Ok(())
}
