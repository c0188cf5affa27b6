//! The lines of an arrival, and what was exported of it.
ghost use Rattle.std.specs.Prelude.{◌≡◌, ◌++◌, [], OnOk, length};
ghost use Rattle.ioam_batch.specs.Jobs.{Holds};
ghost use Rattle.ioam_run_outputs.specs.Outlets.{of_outlets, outlet_count};
ghost use Rattle.ioam_desk_outputs.specs.Told.{Adds};
ghost use Rattle.ioam_run_texts.specs.Standing.{hop_lines, job_lines};

use ioam_base::memory::NoMemory;
use ioam_base::text::append;
use ioam_batch::Job;
use ioam_desk_outputs::Output;
use ioam_report::put_arrival;
use ioam_report_lines::put_hop_traces;
use ioam_run_outputs::{place_of_exports, place_of_report};
use ioam_topo::Domain;

// Appends the lines of the traces of a packet that reached the exit of its tunnel.
fn put_paths(domain: &Domain, job: &Job, out: &mut Vec<u8>) -> Result<(), NoMemory>
    requires { Holds domain.now job.now }
    ensures { OnOk result (out.new.items ≡ out.old.items
        ++ hop_lines job.now.itinerary.exited job.now.itinerary.carried job.now.packet.items) }
{
    let itinerary = job.itinerary();
    if !itinerary.exited {
        return Ok(());
    }
    match itinerary.carried {
        Some(_) => {
            put_hop_traces(job.packet(), out)?;
            Ok(())
        }
        None => Ok(()),
    }
}

// Appends the lines of an arrival.
fn put_lines(domain: &Domain, number: u64, job: &Job, out: &mut Vec<u8>) -> Result<(), NoMemory>
    requires { Holds domain.now job.now }
    ensures { OnOk result (out.new.items ≡ out.old.items ++ job_lines domain.now number job.now) }
{
    put_arrival(domain, number, job.itinerary(), out)?;
    put_paths(domain, job, out)?;
    Ok(())
}

/// Appends the lines of an arrival to the report.
pub(crate) fn put_report(
    domain: &Domain,
    number: u64,
    job: &Job,
    outputs: &mut [Output],
) -> Result<(), NoMemory>
    requires holds { Holds domain.now job.now }
    requires width { length outputs.old ≡ outlet_count domain.now }
    ensures { OnOk result (Adds outputs.old outputs.new
        (of_outlets domain.now (λ port. []) (λ link. []) (job_lines domain.now number job.now) [])) }
{
    let at = place_of_report(outputs.len());
    put_lines(domain, number, job, &mut outputs[at].gathered)?;
    Ok(())
}

/// Appends what the visits of a job exported to the exports.
pub(crate) fn put_exports(
    domain: &Domain,
    job: &Job,
    outputs: &mut [Output],
) -> Result<(), NoMemory>
    requires width { length outputs.old ≡ outlet_count domain.now }
    ensures { OnOk result (Adds outputs.old outputs.new
        (of_outlets domain.now (λ port. []) (λ link. []) [] job.now.room.exports)) }
{
    let at = place_of_exports(outputs.len());
    append(&mut outputs[at].gathered, job.room().exports())?;
    Ok(())
}
