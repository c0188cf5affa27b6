//! Packets that cross links with a tap.
ghost use Rattle.std.specs.Prelude.{◌≡◌, ◌≤◌, ◌++◌, [], OnOk, length, slice_get};
ghost use Rattle.ioam_batch.specs.Crossings.{crossings, joined};
ghost use Rattle.ioam_run_outputs.specs.Outlets.{of_outlets, outlet_count, tapped};
ghost use Rattle.ioam_desk_outputs.specs.Told.{Adds};
ghost use Rattle.ioam_pcap.specs.Text.{records_text};
ghost use Rattle.ioam_topo.specs.Domain.{links};
ghost use Rattle.ioam_run_texts.specs.Standing.{job_crossed, kept_at, kept_on};
ghost use Rattle.ioam_run_texts.specs.Texts.{goes_by};

use ioam_base::memory::NoMemory;
use ioam_batch::Job;
use ioam_desk_outputs::Output;
use ioam_pcap::put_record;
use ioam_plan::Visit;
use ioam_run_outputs::place_of_tap;
use ioam_topo::{Domain, LinkId, Way};

// Whether a visit sends its packet on a link.
fn goes_by(link: LinkId, visit: &Visit) -> bool
    ensures { result ≡ goes_by link.0 visit.now.way }
{
    match visit.way {
        Some(Way::Link(sent)) => link.0 == sent.0,
        Some(Way::Port(_)) => false,
        None => false,
    }
}

// Appends the record of what was kept of the visit with a number, if that was.
fn put_kept(job: &Job, number: usize, time: u64, out: &mut Vec<u8>) -> Result<(), NoMemory>
    ensures { OnOk result (out.new.items ≡ out.old.items
        ++ records_text (kept_at time (joined (slice_get (crossings job.now.crossings) number)))) }
{
    match job.crossing(number) {
        Some(octets) => {
            put_record(time, octets, out)?;
            Ok(())
        }
        None => Ok(()),
    }
}

// The same, where the visit goes by a link.
fn put_visit(
    job: &Job,
    number: usize,
    visit: &Visit,
    link: LinkId,
    out: &mut Vec<u8>,
) -> Result<(), NoMemory>
    ensures { OnOk result (out.new.items ≡ out.old.items
        ++ records_text (kept_on link.0 visit.now (joined (slice_get (crossings job.now.crossings) number)))) }
{
    if !goes_by(link, visit) {
        return Ok(());
    }
    put_kept(job, number, visit.time, out)?;
    Ok(())
}

// Appends the records of what the visits of a job sent on a link.
fn put_link(job: &Job, link: LinkId, out: &mut Vec<u8>) -> Result<(), NoMemory>
    ensures { OnOk result (out.new.items ≡ out.old.items ++ records_text (job_crossed job.now link.0)) }
{
    let visits = job.itinerary().visits.list();
    'visits: for number in 0..visits.len() {
        put_visit(job, number, &visits[number], link, out)?;
    }
    Ok(())
}

/// Appends what the visits of a job sent on each link with a tap to that tap's output.
pub(crate) fn put_taps(
    domain: &Domain,
    taps: &[LinkId],
    job: &Job,
    outputs: &mut [Output],
) -> Result<(), NoMemory>
    requires taps { taps.now ≡ tapped (links domain.now) }
    requires width { length outputs.old ≡ outlet_count domain.now }
    ensures { OnOk result (Adds outputs.old outputs.new
        (of_outlets domain.now (λ port. []) (λ link. records_text (job_crossed job.now link)) [] [])) }
{
    'taps: for k in 0..taps.len() {
        let at = place_of_tap(domain, k);
        put_link(job, taps[k], &mut outputs[at].gathered)?;
    }
    Ok(())
}
