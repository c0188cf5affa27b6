//! Jobs that are told.
ghost use Rattle.std.specs.Prelude.{◌≡◌, ◌<◌, ◌^◌, All, OnOk, length};
ghost use Rattle.ioam_batch.specs.Jobs.{Holds};
ghost use Rattle.ioam_run_outputs.specs.Outlets.{outlet_count, tapped};
ghost use Rattle.ioam_topo.specs.Domain.{links};
ghost use Rattle.ioam_run_arrivals.specs.Forwarding.{TellsJobs};

use ioam_base::memory::NoMemory;
use ioam_batch::Job;
use ioam_desk_outputs::Output;
use ioam_run_texts::put_job;
use ioam_topo::{Domain, LinkId};

/// Appends what these jobs tell the outputs, in their order, behind so many arrivals that were told.
/// Without memory a part of it may be appended.
pub(crate) fn put_jobs(
    domain: &Domain,
    taps: &[LinkId],
    told: u64,
    jobs: &[Job],
    outputs: &mut [Output],
) -> Result<(), NoMemory>
    requires taps { taps.now ≡ tapped (links domain.now) }
    requires few { told < 2 ^ 33 }
    requires holds { All (Holds domain.now) jobs.now }
    requires width { length outputs.old ≡ outlet_count domain.now }
    ensures { OnOk result (TellsJobs domain.now told jobs.now outputs.old outputs.new) }
{
    let mut number = told;
    'jobs: for job in jobs {
        number += 1;
        put_job(domain, taps, number, job, outputs)?;
    }
    Ok(())
}
