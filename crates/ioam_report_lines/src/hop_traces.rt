//! The traces that nodes on a packet's way fill.
ghost use Rattle.std.specs.Prelude.{◌≡◌, ◌++◌, ◌∷◌, ◌≤◌, IsTrue, [], ℕ, length, is_ok, if◌then◌else◌};
ghost use Rattle.ioam_ip.specs.Chain.{IsSound};
ghost use Rattle.ioam_ip.specs.Packet.{IsPacket};
ghost use Rattle.ioam_ip.specs.Rewriting.{options_in};
ghost use Rattle.ioam_ip.specs.Spot.{item_in, spot_end};
ghost use Rattle.ioam_report_lines.specs.HopText.{is_changing_trace, changing_lines, hop_traces_text};

use crate::lines::put_trace;
use crate::room::ReportLine;
use ioam_base::memory::NoMemory;
use ioam_base::text::settle;
use ioam_data::option_type::{IN_FRONT, holds_trace};
use ioam_ip::option_type::IOAM_CHANGING;
use ioam_ip::{OptionSpot, hop_header, next_option};
use ioam_line::LineBuffer;

// Whether an option is a trace that nodes on the way fill.
fn is_changing_trace(kind: u8, body: &[u8]) -> bool
    ensures value { (at : ℕ) → result ≡ is_changing_trace (record { kind = kind; at = at; body = body.now }) }
    ensures long { IsTrue result → 2 ≤ length body.now }
{
    kind == IOAM_CHANGING && holds_trace(body)
}

// Appends the lines of an option, where it is such a trace.
fn put_option(
    head: &[u8],
    spot: &OptionSpot,
    line: &mut ReportLine,
    out: &mut Vec<u8>,
) -> Result<(), NoMemory>
    requires { spot_end spot.now ≤ length head.now }
    ensures { out.new.items ≡ (if is_ok result
        then out.old.items ++ changing_lines (item_in head.now spot.now ∷ [])
        else out.old.items) }
{
    let body = &head[spot.at + 2..spot.at + 2 + spot.size];
    if is_changing_trace(spot.kind, body) {
        put_trace(&body[IN_FRONT..], line, out)
    } else {
        Ok(())
    }
}

// Appends those of all options of a header.
fn put_options(head: &[u8], out: &mut Vec<u8>) -> Result<(), NoMemory>
    requires { length head.now ≤ 2048 }
    ensures { out.new.items ≡ (if is_ok result
        then out.old.items ++ changing_lines (options_in head.now)
        else out.old.items) }
{
    let before = out.len();
    let mut line = LineBuffer::new();
    let mut at = 2;
    'options: while let Some(spot) = next_option(head, at) {
        let answer = put_option(head, &spot, &mut line, out);
        settle(out, before, answer)?;
        at = spot.at + 2 + spot.size;
    }
    Ok(())
}

/// Appends the lines of each pre-allocated trace that nodes on the way of a packet fill: those of option
/// type 0x31 in the Hop-by-Hop Options header behind its outer header, in order (RFC 9197 section 4.4,
/// RFC 9486 section 3). Without memory nothing is appended.
pub fn put_hop_traces(packet: &[u8], out: &mut Vec<u8>) -> Result<(), NoMemory>
    requires packet { IsPacket packet.now }
    requires sound { IsSound packet.now }
    ensures { out.new.items ≡ (if is_ok result then out.old.items ++ hop_traces_text packet.now else out.old.items) }
{
    match hop_header(packet) {
        Some(hop) => put_options(&packet[hop], out),
        None => Ok(()),
    }
}
