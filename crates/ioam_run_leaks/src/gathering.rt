//! The texts of `leaks`, gathered record by record.
ghost use Rattle.std.specs.Prelude.{◌≡◌, ◌++◌, ◌∷◌, [], ◌<◌, ◌≤◌, ◌^◌, List, OnOk, length};
ghost use Rattle.ioam_desk_outputs.specs.Told.{Adds};
ghost use Rattle.ioam_leak_flows.specs.Tally.{IsTally};
ghost use Rattle.ioam_leak_flows.specs.declared.flow.Flow.{Flow};
ghost use Rattle.ioam_run_leaks.specs.Counting.{all_of};
ghost use Rattle.ioam_run_leaks.specs.Gathering.{found_flows, found_octets};
ghost use Rattle.ioam_run_leaks.specs.LeaksText.{flow_of, found_line, hidden_line, leak_line, totals_text};
ghost use Rattle.ioam_ip.specs.Packet.{IsPacket};
ghost use Rattle.ioam_leaks.specs.declared.finding.Leak.{Leak};
ghost use Rattle.ioam_pcap.specs.Entries.{most};
ghost use Rattle.ioam_pcap.specs.Text.{record_octets};
ghost use Rattle.ioam_run_leaks.specs.Observation.{IsSound, observation_of};

use crate::counts::Counts;
use crate::lines::{flow_of, put_hidden, put_leak, put_reasons, put_sums};
use crate::observe::{Observed, observe};
use ioam_base::memory::NoMemory;
use ioam_desk_outputs::Output;
use ioam_leak_flows::{Flows, put_flows};
use ioam_leaks::{Finding, Hidden, Leak};
use ioam_pcap::{Link, Packet, put_head, put_record};
use ioam_run_stream::Gather;
use std::alloc::Global;

// The places of the two outputs.
const OUT: usize = 0;

const REPORT: usize = 1;

/// How many packets leak, hide or are clean so far, and from whom to whom they leak. Its outputs are the capture of
/// the packets that leak and the report.
#[derive(Drop)]
pub struct Leaking {
    pub alloc: Global,
    pub counts: Counts,
    pub flows: Flows,
}

impl Gather for Leaking {
    ghost use Rattle.ioam_run_leaks.specs.LeaksText.{LeaksTexts};
    ghost use Rattle.ioam_run_leaks.specs.Gathering.{Gathers, heads, sums, taken, IsFresh, IsFresh-none, Gathers-begins, Gathers-ends, heads-sized, sums-sized};

    ghost width = { 2 };

    ghost gathers = { λ begun. Gathers };

    ghost count = { taken };

    ghost fresh = { IsFresh };

    ghost heads = { heads };

    ghost sums = { sums };

    ghost texts = { λ begun. LeaksTexts };

    fn begin(&self, outputs: &mut [Output]) -> Result<(), NoMemory> {
        put_head(&mut outputs[OUT].gathered)?;
        Ok(())
    }

    fn taken(&self) -> u64 {
        self.counts.all()
    }

    fn take(
        &mut self,
        link: Link,
        captured: &Packet<'_>,
        outputs: &mut [Output],
    ) -> Result<(), NoMemory> {
        let number = self.counts.all() + 1;
        let seen = observe(link, captured);
        put_found(self.alloc, number, captured.time, &seen, outputs)?;
        count_flow(&mut self.flows, &seen)?;
        self.counts.add(&seen);
        Ok(())
    }

    fn put_sums(&self, outputs: &mut [Output]) -> Result<(), NoMemory> {
        put_totals(
            self.alloc,
            &self.counts,
            &self.flows,
            &mut outputs[REPORT].gathered,
        )
    }

    ghost begins = { Gathers-begins };

    ghost none = { IsFresh-none };

    ghost ends = { λ begun. Gathers-ends };

    ghost heads_sized = { heads-sized };

    ghost sized = { sums-sized };
}

// Appends what a record adds to the outputs: a packet that leaks to OUT, and the line of one that leaks or hides.
fn put_found(
    alloc: Global,
    number: u64,
    time: u64,
    seen: &Observed<'_>,
    outputs: &mut [Output],
) -> Result<(), NoMemory>
    requires sound { IsSound (observation_of seen.now) }
    requires width { length outputs.old ≡ 2 }
    ensures { OnOk result (Adds outputs.old outputs.new (found_octets time (observation_of seen.now) ∷ found_line number (observation_of seen.now) ∷ [])) }
{
    match seen {
        Observed::Seen { packet, finding } => match finding {
            Finding::Clean => Ok(()),
            Finding::Leaks(leak) => put_leaking(alloc, number, time, packet, *leak, outputs),
            Finding::Hides(why) => put_hiding(alloc, number, packet, *why, outputs),
        },
        Observed::Missed(_) => Ok(()),
    }
}

// Appends a packet that leaks to OUT, and its line to REPORT.
fn put_leaking(
    alloc: Global,
    number: u64,
    time: u64,
    packet: &[u8],
    leak: Leak,
    outputs: &mut [Output],
) -> Result<(), NoMemory>
    requires packet { IsPacket packet.now }
    requires short { length packet.now ≤ most }
    requires width { length outputs.old ≡ 2 }
    ensures { OnOk result (Adds outputs.old outputs.new (record_octets time packet.now ∷ leak_line number (flow_of packet.now leak) ∷ [])) }
{
    put_record(time, packet, &mut outputs[OUT].gathered)?;
    put_leak(
        alloc,
        number,
        flow_of(packet, leak),
        &mut outputs[REPORT].gathered,
    )?;
    Ok(())
}

// Appends the line of a packet that hides something to REPORT.
fn put_hiding(
    alloc: Global,
    number: u64,
    packet: &[u8],
    why: Hidden,
    outputs: &mut [Output],
) -> Result<(), NoMemory>
    requires packet { IsPacket packet.now }
    requires width { length outputs.old ≡ 2 }
    ensures { OnOk result (Adds outputs.old outputs.new ([] ∷ hidden_line number why (flow_of packet.now Leak.Carries) ∷ [])) }
{
    put_hidden(
        alloc,
        number,
        why,
        flow_of(packet, Leak::Carries),
        &mut outputs[REPORT].gathered,
    )?;
    Ok(())
}

// Counts the flow of a packet that leaks.
fn count_flow(flows: &mut Flows, seen: &Observed<'_>) -> Result<(), NoMemory>
    requires { IsSound (observation_of seen.now) }
    ensures { OnOk result ((before : List Flow) → length before < 2 ^ 32 → IsTally before flows.old → IsTally (before ++ found_flows (observation_of seen.now)) flows.new) }
{
    match seen {
        Observed::Seen { packet, finding } => match finding {
            Finding::Leaks(leak) => flows.count(flow_of(packet, *leak)),
            Finding::Clean | Finding::Hides(_) => Ok(()),
        },
        Observed::Missed(_) => Ok(()),
    }
}

// Appends the lines of flows, reasons and sums.
fn put_totals(
    alloc: Global,
    counts: &Counts,
    flows: &Flows,
    out: &mut Vec<u8>,
) -> Result<(), NoMemory>
    requires { all_of counts.now < 2 ^ 32 }
    ensures { OnOk result (out.new.items ≡ out.old.items ++ totals_text counts.now flows.now.counts.entries) }
{
    put_flows(alloc, flows, counts.carries + counts.quotes, out)?;
    put_reasons(counts, out)?;
    put_sums(counts, out)
}
