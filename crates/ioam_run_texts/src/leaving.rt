//! Packets that leave a domain.
ghost use Rattle.std.specs.Prelude.{◌≡◌, ◌≤◌, ◌-◌, ◌++◌, [], List, ℕ, IfSome, IsSome, IsSomeAnd, MatchOption, None, Option, Some, OnOk, drop, false, length, slice_index, true};
ghost use Rattle.ioam_batch.specs.Jobs.{Holds};
ghost use Rattle.ioam_ip.specs.Lowered.{lowered};
ghost use Rattle.ioam_run_outputs.specs.Outlets.{of_outlets, outlet_count};
ghost use Rattle.ioam_desk_outputs.specs.Told.{Adds};
ghost use Rattle.ioam_pcap.specs.Entries.{most};
ghost use Rattle.ioam_pcap.specs.Text.{Sent, record_octets, records_text};
ghost use Rattle.ioam_run_texts.specs.Standing.{IsInside, LeavesAt, LeavesBy, lowered_at};
ghost use Rattle.ioam_run_texts.specs.Texts.{last_time, sent_by_end};
ghost use Rattle.ioam_run_texts.specs.Told.{AreLeaving, AreSent, GivesInside};

use ioam_base::memory::NoMemory;
use ioam_batch::Job;
use ioam_desk_outputs::Output;
use ioam_ip::{HEADER_OCTETS, HOP_LIMIT};
use ioam_node_visit::carried;
use ioam_pcap::put_record;
use ioam_plan::{End, Visit};
use ioam_run_outputs::place_of_port;
use ioam_topo::Domain;

// When the last visit was, in nanoseconds.
fn last_time(visits: &[Visit]) -> u64
    ensures { result ≡ last_time visits.now }
{
    match visits.last() {
        Some(visit) => visit.time,
        None => 0,
    }
}

// Appends the record of a packet whose hop limit is less by one.
fn put_lowered(time: u64, packet: &[u8], out: &mut Vec<u8>) -> Result<(), NoMemory>
    requires header { 40 ≤ length packet.now }
    requires short { length packet.now ≤ most }
    ensures { OnOk result (out.new.items ≡ out.old.items ++ record_octets time (lowered 1 packet.now)) }
{
    put_record(time, packet, out)?;
    let at = out.len() - packet.len() + HOP_LIMIT;
    out[at] = packet[HOP_LIMIT].saturating_sub(1);
    Ok(())
}

// The octets from a place on, if they are as many as a header has.
fn rest(packet: &[u8], start: usize) -> Option<&[u8]>
    ensures header { IfSome result (λ rest. 40 ≤ length rest.now) }
    ensures short { IfSome result (λ rest. length rest.now ≤ length packet.now) }
    ensures octets { 40 ≤ length (drop start packet.now) → IsSomeAnd result (λ rest. rest.now ≡ drop start packet.now) }
{
    if start > packet.len() {
        return None;
    }
    let rest = &packet[start..];
    if rest.len() < HEADER_OCTETS {
        return None;
    }
    Some(rest)
}

// What an enclosed packet carries at the exit of its tunnel.
fn inside(packet: &[u8]) -> Option<&[u8]>
    ensures header { IfSome result (λ inner. 40 ≤ length inner.now) }
    ensures short { IfSome result (λ inner. length inner.now ≤ length packet.now) }
    ensures inner { MatchOption result (GivesInside packet.now None) (λ inner. GivesInside packet.now (Some inner.now)) }
    ensures exact { MatchOption result (IsInside packet.now None) (λ inner. IsInside packet.now (Some inner.now)) }
{
    match carried(packet) {
        Some(range) => rest(packet, range.start),
        None => None,
    }
}

// Appends the record of the packet that an enclosed one carries at the exit of its tunnel, with its hop
// limit one less.
fn put_inside(time: u64, packet: &[u8], out: &mut Vec<u8>) -> Result<(), NoMemory>
    requires { length packet.now ≤ most }
    ensures { OnOk result ((inner : Option (List ℕ)) × (out.new.items ≡ out.old.items ++ records_text (lowered_at time inner)) × GivesInside packet.now inner
        × IsInside packet.now inner) }
{
    match inside(packet) {
        Some(inner) => {
            put_lowered(time, inner, out)?;
            Ok(())
        }
        None => Ok(()),
    }
}

// Appends the packet of a job as it leaves, at the time of its last visit: as it stands, or what it
// carries. One that didn't reach the exit of its tunnel doesn't leave.
fn put_leaving(job: &Job, out: &mut Vec<u8>) -> Result<(), NoMemory>
    requires { length job.now.packet.items ≤ most }
    ensures { OnOk result ((sent : List Sent) × (out.new.items ≡ out.old.items ++ records_text sent) × ((domain : Domain) → AreLeaving domain job.now sent)
        × LeavesBy job.now.itinerary.carried job.now.itinerary.exited job.now sent) }
{
    let itinerary = job.itinerary();
    let time = last_time(itinerary.visits.list());
    match itinerary.carried {
        None => {
            put_record(time, job.packet(), out)?;
            Ok(())
        }
        Some(_) => {
            if !itinerary.exited {
                return Ok(());
            }
            put_inside(time, job.packet(), out)?;
            Ok(())
        }
    }
}

/// Appends the packet of a job, where it leaves by a port, to that port's output.
pub(crate) fn put_left(domain: &Domain, job: &Job, outputs: &mut [Output]) -> Result<(), NoMemory>
    requires holds { Holds domain.now job.now }
    requires width { length outputs.old ≡ outlet_count domain.now }
    ensures { OnOk result ((left : List Sent)
        × Adds outputs.old outputs.new (of_outlets domain.now (λ port. records_text (sent_by_end port left job.now.itinerary.end)) (λ link. []) [] [])
        × AreSent domain.now job.now (λ port. sent_by_end port left job.now.itinerary.end)
        × LeavesAt job.now.itinerary.end job.now left) }
{
    match job.itinerary().end {
        End::Left { port } => {
            let at = place_of_port(port);
            put_leaving(job, &mut outputs[at].gathered)?;
            Ok(())
        }
        End::Drop { .. } => Ok(()),
    }
}
