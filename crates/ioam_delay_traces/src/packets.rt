//! The traces of a packet, counted.
ghost use Rattle.std.specs.Prelude.{◌≡◌, ◌≤◌, ◌^◌, ◌∷◌, [], OnOk, filter, length, map};
ghost use Rattle.ioam_delay_traces.specs.Listed.{ShowsListed};
ghost use Rattle.ioam_delay_traces.specs.Shown.{Grows, limit_of, option_course, shown_of};
ghost use Rattle.ioam_ip.specs.Chain.{IsSound};
ghost use Rattle.ioam_ip.specs.ChainOptions.{HeadFits};
ghost use Rattle.ioam_ip.specs.Options.{IsFilled};
ghost use Rattle.ioam_ip.specs.OptionsLeft.{item_of, options_from};
ghost use Rattle.ioam_ip.specs.Packet.{IsPacket};
ghost use Rattle.ioam_report_lines.specs.TracesText.{is_trace, traces_in};

use crate::totals::Totals;
use ioam_base::memory::NoMemory;
use ioam_data::option_type::{IN_FRONT, holds_trace};
use ioam_ip::next_header::IPV6;
use ioam_ip::option_type::is_ioam_type;
use ioam_ip::{HOP_LIMIT, Head, Opt, heads, options};
use std::alloc::Global;

/// Counts the pre-allocated traces of a packet that `paths` lists: those of its Hop-by-Hop and Destination Options
/// headers before any nested IPv6 header (RFC 9197 section 4.4, RFC 9486 section 3).
#[tactic(auto, using(crate::proofs::ListedLaws::shows_listed))]
pub fn count_packet(
    alloc: Global,
    units: u64,
    packet: &[u8],
    totals: &mut Totals,
) -> Result<(), NoMemory>
    requires units { units ≤ 2 ^ 32 }
    requires packet { IsPacket packet.now }
    requires sound { IsSound packet.now }
    ensures grows { OnOk result (Grows (shown_of units packet.now) totals.old totals.new) }
    // These are the traces whose lines `paths` writes.
    ensures listed { ShowsListed units packet.now }
{
    let limit = packet[HOP_LIMIT];
    for head in heads(packet) {
        if head.value == IPV6 {
            return Ok(());
        }
        count_in(alloc, units, limit, packet, &head, totals)?;
    }
    Ok(())
}

// Counts those of a header of the packet.
fn count_in(
    alloc: Global,
    units: u64,
    limit: u8,
    packet: &[u8],
    head: &Head,
    totals: &mut Totals,
) -> Result<(), NoMemory>
    requires units { units ≤ 2 ^ 32 }
    requires fits { HeadFits packet.now head.now }
    ensures { OnOk result (Grows (map (option_course units limit) (traces_in packet.now head.now)) totals.old totals.new) }
{
    if head.is_options() {
        count_options(
            alloc,
            units,
            limit,
            &packet[head.range.start..head.range.end],
            totals,
        )
    } else {
        Ok(())
    }
}

// Counts those of an options header.
fn count_options(
    alloc: Global,
    units: u64,
    limit: u8,
    head: &[u8],
    totals: &mut Totals,
) -> Result<(), NoMemory>
    requires units { units ≤ 2 ^ 32 }
    requires filled { IsFilled head.now }
    ensures { OnOk result (Grows (map (option_course units limit) (filter is_trace (options_from (length head.now) head.now 2))) totals.old totals.new) }
{
    for option in options(head) {
        count_option(alloc, units, limit, &option, totals)?;
    }
    Ok(())
}

// Counts an option, if it is a trace.
fn count_option(
    alloc: Global,
    units: u64,
    limit: u8,
    option: &Opt<'_>,
    totals: &mut Totals,
) -> Result<(), NoMemory>
    requires { units ≤ 2 ^ 32 }
    ensures { OnOk result (Grows (map (option_course units limit) (filter is_trace (item_of option.now ∷ []))) totals.old totals.new) }
{
    if is_trace(option) {
        totals.count(alloc, units, limit, &option.body[IN_FRONT..])?;
    }
    Ok(())
}

// Whether an option is a pre-allocated trace.
fn is_trace(option: &Opt<'_>) -> bool
    ensures { result ≡ is_trace (item_of option.now) }
{
    is_ioam_type(option.kind) && holds_trace(option.body)
}
