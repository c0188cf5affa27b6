//! The traces of a packet.
ghost use Rattle.std.specs.Prelude.{◌≡◌, ◌++◌, ◌+◌, length, decimal, codes, is_ok, if◌then◌else◌};
ghost use Rattle.std.specs.List.{flat_map};
ghost use Rattle.ioam_ip.specs.Packet.{IsPacket};
ghost use Rattle.ioam_ip.specs.Chain.{IsSound};
ghost use Rattle.ioam_report_lines.specs.TraceText.{line_feed};
ghost use Rattle.ioam_report_lines.specs.TracesText.{option_lines, traces_of, traces_text, TracesText};

use crate::listed::{count_in, put_in};
use crate::room::ReportLine;
use ioam_base::memory::NoMemory;
use ioam_base::text::settle;
use ioam_ip::heads;
use ioam_ip::next_header::IPV6;
use ioam_line::{LineBuffer, Piece, Value};

// How many traces of a packet are listed.
fn count_traces(packet: &[u8]) -> usize
    requires packet { IsPacket packet.now }
    requires sound { IsSound packet.now }
    ensures { result ≡ length (traces_of packet.now) }
{
    let mut count = 0;
    for head in heads(packet) {
        if head.value == IPV6 {
            return count;
        }
        count += count_in(packet, &head);
    }
    count
}

// Appends the lines of the traces of a packet.
fn put_listed(packet: &[u8], line: &mut ReportLine, out: &mut Vec<u8>) -> Result<(), NoMemory>
    requires packet { IsPacket packet.now }
    requires sound { IsSound packet.now }
    ensures { out.new.items ≡ (if is_ok result then out.old.items ++ flat_map option_lines (traces_of packet.now) else out.old.items) }
{
    let before = out.len();
    for head in heads(packet) {
        if head.value == IPV6 {
            return Ok(());
        }
        let answer = put_in(packet, &head, line, out);
        settle(out, before, answer)?;
    }
    Ok(())
}

// Appends ` traces COUNT` and a line feed.
fn put_count(count: u64, line: &mut ReportLine, out: &mut Vec<u8>) -> Result<(), NoMemory>
    ensures { out.new.items ≡ (if is_ok result
        then out.old.items ++ (codes " traces " ++ decimal count ++ line_feed)
        else out.old.items) }
{
    line.end::<false>();
    line.put::<false>(Piece::Fact(b" traces ", b"traces", Value::Number(count)));
    line.finish::<false>(b"packet", out)
}

/// Appends ` traces COUNT`, a line feed, and the lines of each pre-allocated trace of a packet: those
/// of its Hop-by-Hop and Destination Options headers that stand in front of any nested IPv6 header,
/// in order. An IOAM option (type 0x11 or 0x31) is one where its data has two octets or more and the
/// second, the IOAM-Option-Type, is 0 (RFC 9486 section 3). Without memory nothing is appended.
#[tactic(auto, unfolding(crate::specs::TracesText::traces_text))]
pub fn put_traces(packet: &[u8], out: &mut Vec<u8>) -> Result<(), NoMemory>
    requires packet { IsPacket packet.now }
    requires sound { IsSound packet.now }
    ensures text { out.new.items ≡ (if is_ok result then out.old.items ++ traces_text packet.now else out.old.items) }
    // The text is the one that the chain of the packet and its options give.
    ensures is_text { TracesText packet.now (traces_text packet.now) }
{
    let before = out.len();
    let mut line = LineBuffer::new();
    put_count(count_traces(packet) as u64, &mut line, out)?;
    let answer = put_listed(packet, &mut line, out);
    settle(out, before, answer)
}
