//! The traces of one header on the chain of a packet.
ghost use Rattle.std.specs.Prelude.{◌≡◌, ◌++◌, length, filter, is_ok, if◌then◌else◌};
ghost use Rattle.std.specs.List.{flat_map};
ghost use Rattle.ioam_ip.specs.ChainOptions.{HeadFits};
ghost use Rattle.ioam_ip.specs.Options.{IsFilled};
ghost use Rattle.ioam_ip.specs.OptionsLeft.{item_of, options_from};
ghost use Rattle.ioam_report_lines.specs.TracesText.{is_trace, option_lines, traces_in};

use crate::lines::put_trace;
use crate::room::ReportLine;
use ioam_base::memory::NoMemory;
use ioam_base::text::settle;
use ioam_data::option_type::{IN_FRONT, holds_trace};
use ioam_ip::option_type::is_ioam_type;
use ioam_ip::{Head, Opt, options};

// Whether an option is a pre-allocated trace.
fn is_trace(option: &Opt<'_>) -> bool
    ensures { result ≡ is_trace (item_of option.now) }
{
    is_ioam_type(option.kind) && holds_trace(option.body)
}

// How many traces an options header has.
fn count_options(head: &[u8]) -> usize
    requires { IsFilled head.now }
    ensures { result ≡ length (filter is_trace (options_from (length head.now) head.now 2)) }
{
    // An option has an octet or more, so the count is no greater than this.
    let _most = head.len();
    let mut count = 0;
    for option in options(head) {
        if is_trace(&option) {
            count += 1;
        }
    }
    count
}

// Appends the lines of the traces of an options header.
fn put_options(head: &[u8], line: &mut ReportLine, out: &mut Vec<u8>) -> Result<(), NoMemory>
    requires { IsFilled head.now }
    ensures { out.new.items ≡ (if is_ok result
        then out.old.items ++ flat_map option_lines (filter is_trace (options_from (length head.now) head.now 2))
        else out.old.items) }
{
    let before = out.len();
    for option in options(head) {
        if is_trace(&option) {
            let answer = put_trace(&option.body[IN_FRONT..], line, out);
            settle(out, before, answer)?;
        }
    }
    Ok(())
}

/// How many traces a header of the packet has.
pub(crate) fn count_in(packet: &[u8], head: &Head) -> usize
    requires { HeadFits packet.now head.now }
    ensures { result ≡ length (traces_in packet.now head.now) }
{
    if head.is_options() {
        count_options(&packet[head.range.start..head.range.end])
    } else {
        0
    }
}

/// Appends the lines of the traces of a header of the packet.
pub(crate) fn put_in(
    packet: &[u8],
    head: &Head,
    line: &mut ReportLine,
    out: &mut Vec<u8>,
) -> Result<(), NoMemory>
    requires { HeadFits packet.now head.now }
    ensures { out.new.items ≡ (if is_ok result
        then out.old.items ++ flat_map option_lines (traces_in packet.now head.now)
        else out.old.items) }
{
    if head.is_options() {
        put_options(&packet[head.range.start..head.range.end], line, out)
    } else {
        Ok(())
    }
}
