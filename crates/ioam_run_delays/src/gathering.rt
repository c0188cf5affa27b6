//! The report of `delays`, gathered record by record.
ghost use Rattle.std.specs.Prelude.{◌≡◌, ◌≤◌, ◌^◌, ◌++◌, IfOk, OnOk, length};
ghost use Rattle.ioam_delay_traces.specs.Shown.{Grows};
ghost use Rattle.ioam_ip.specs.Packet.{IsPacket};
ghost use Rattle.ioam_run_delays.specs.DelaysText.{is_skipped, report_text, totals_text, traces_of};
ghost use Rattle.ioam_run_delays.specs.Observation.{Observation, PacketShows, Shows};
ghost use Rattle.ioam_run_stream.specs.Reader.{taken_of};

use crate::format::units_of;
use ioam_base::memory::NoMemory;
use ioam_delay_lines::{
    put_beyond_row, put_format_row, put_packets_row, put_spaces, put_traces_row,
};
use ioam_delay_traces::{Totals, count_packet};
use ioam_desk_outputs::Output;
use ioam_ip::{Framed, Walk, walk};
use ioam_pcap::{Link, Packet};
use ioam_run_stream::{Gather, framed};
use ioam_topo::Format;
use ioam_words::format_word;
use std::alloc::Global;

/// What is counted of the traces of a capture, in time stamps of a format. Its output is the report.
#[derive(Drop)]
pub struct Delaying {
    pub alloc: Global,
    pub format: Format,
    /// How many records.
    pub packets: u64,
    /// How many of them hold no packet whose header chain is whole.
    pub skipped: u64,
    pub totals: Totals,
}

impl Gather for Delaying {
    ghost use Rattle.ioam_run_delays.specs.DelaysText.{DelaysTexts};
    ghost use Rattle.ioam_run_delays.specs.Gathering.{Gathers, heads, sums, taken, IsFresh, IsFresh-none, Gathers-begins, Gathers-ends, heads-sized, sums-sized};

    ghost width = { 1 };

    ghost gathers = { Gathers };

    ghost count = { taken };

    ghost fresh = { IsFresh };

    ghost heads = { heads };

    ghost sums = { sums };

    ghost texts = { λ begun. DelaysTexts begun.format };

    fn begin(&self, _outputs: &mut [Output]) -> Result<(), NoMemory> {
        Ok(())
    }

    fn taken(&self) -> u64 {
        self.packets
    }

    fn take(
        &mut self,
        link: Link,
        captured: &Packet<'_>,
        _outputs: &mut [Output],
    ) -> Result<(), NoMemory> {
        let skipped = count_record(
            self.alloc,
            units_of(self.format),
            link,
            captured,
            &mut self.totals,
        )?;
        self.packets += 1;
        self.skipped = self.skipped.saturating_add(u64::from(skipped));
        Ok(())
    }

    fn put_sums(&self, outputs: &mut [Output]) -> Result<(), NoMemory> {
        put_report(self, &mut outputs[0].gathered)
    }

    ghost begins = { Gathers-begins };

    ghost none = { IsFresh-none };

    ghost ends = { Gathers-ends };

    ghost heads_sized = { heads-sized };

    ghost sized = { sums-sized };
}

// Counts the traces of a record, and says whether it is skipped.
fn count_record(
    alloc: Global,
    units: u64,
    link: Link,
    captured: &Packet<'_>,
    totals: &mut Totals,
) -> Result<bool, NoMemory>
    requires { units ≤ 2 ^ 32 }
    ensures { IfOk result (λ skipped. (seen : Observation) × Shows units (taken_of link captured.now) seen × (skipped ≡ is_skipped seen) × Grows (traces_of seen) totals.old totals.new) }
{
    match framed(link, captured) {
        Framed::Packet(packet) => count_sound(alloc, units, packet, totals),
        Framed::NotIpv6 | Framed::Cut | Framed::Length => Ok(true),
    }
}

// Counts those of a packet, if its header chain is whole, and says whether it isn't.
fn count_sound(
    alloc: Global,
    units: u64,
    packet: &[u8],
    totals: &mut Totals,
) -> Result<bool, NoMemory>
    requires units { units ≤ 2 ^ 32 }
    requires packet { IsPacket packet.now }
    ensures { IfOk result (λ skipped. (seen : Observation) × PacketShows units packet.now seen × (skipped ≡ is_skipped seen) × Grows (traces_of seen) totals.old totals.new) }
{
    match walk(packet) {
        Walk::Whole { .. } => {
            count_packet(alloc, units, packet, totals)?;
            Ok(false)
        }
        Walk::Bad { .. } => Ok(true),
    }
}

// Appends the report.
fn put_report(gathered: &Delaying, out: &mut Vec<u8>) -> Result<(), NoMemory>
    ensures { OnOk result (out.new.items ≡ out.old.items ++ report_text gathered.now.format gathered.now.packets gathered.now.skipped gathered.now.totals) }
{
    let fractions = gathered.totals.fractions;
    put_format_row(
        format_word(gathered.format),
        fractions.count,
        fractions.most,
        out,
    )?;
    put_totals(gathered.alloc, &gathered.totals, out)?;
    put_packets_row(gathered.packets, gathered.skipped, out)
}

// Appends the lines between the first and the last.
#[tactic(auto, unfolding(crate::specs::DelaysText::totals_text))]
fn put_totals(alloc: Global, totals: &Totals, out: &mut Vec<u8>) -> Result<(), NoMemory>
    ensures { OnOk result (out.new.items ≡ out.old.items ++ totals_text totals.now) }
{
    let sums = &totals.sums;
    put_spaces(alloc, sums, out)?;
    put_beyond_row(
        sums.spaces.others,
        sums.ways.others,
        sums.hops.others,
        sums.nodes.others,
        out,
    )?;
    put_traces_row(totals.traces, totals.overflow, totals.bad, out)
}
