//! The lines of all IOAM options of a packet.
ghost use Rattle.std.specs.Prelude.{◌≡◌, ◌++◌, ◌+◌, ◌<◌, ◌≤◌, ◌^◌, List, ℕ, [], ◌∷◌, length, decimal, codes, is_ok, if◌then◌else◌};
ghost use Rattle.ioam_ip.specs.Chain.{IsSound};
ghost use Rattle.ioam_ip.specs.ChainOptions.{HeadFits};
ghost use Rattle.ioam_ip.specs.Options.{IsFilled};
ghost use Rattle.ioam_ip.specs.OptionsLeft.{item_of, options_from};
ghost use Rattle.ioam_ip.specs.Packet.{IsPacket};
ghost use Rattle.ioam_report_lines.specs.TraceText.{line_feed};
ghost use Rattle.ioam_report_options.specs.Appends.{Appends};
ghost use Rattle.ioam_report_options.specs.OptionsText.{ioam_among, ioam_in, ioam_of, OptionLines, OptionsText, CountedText};

use crate::counting::count_options;
use crate::line::put_line;
use ioam_base::memory::NoMemory;
use ioam_base::text::settle;
use ioam_ip::option_type::is_ioam_type;
use ioam_ip::{Head, Opt, heads, options};
use ioam_line::{LineBuffer, Piece, Value};
use ioam_report_lines::ReportLine;

// Appends the lines of an option of a header that starts at a place of the packet, if it is an IOAM
// option.
fn put_if_ioam(
    start: usize,
    option: &Opt<'_>,
    line: &mut ReportLine,
    out: &mut Vec<u8>,
) -> Result<(), NoMemory>
    requires within { start + option.now.at < 2 ^ 64 }
    requires short { length option.now.body.now ≤ 255 }
    ensures { Appends result (OptionLines (ioam_among start (item_of option.now ∷ []))) out.old.items out.new.items }
{
    if is_ioam_type(option.kind) {
        put_line(start, option, line, out)
    } else {
        Ok(())
    }
}

// Appends the lines of the IOAM options of an options header that starts at a place of the packet.
fn put_among(
    start: usize,
    head: &[u8],
    line: &mut ReportLine,
    out: &mut Vec<u8>,
) -> Result<(), NoMemory>
    requires filled { IsFilled head.now }
    requires within { start + length head.now < 2 ^ 64 }
    ensures { Appends result (OptionLines (ioam_among start (options_from (length head.now) head.now 2))) out.old.items out.new.items }
{
    let before = out.len();
    for option in options(head) {
        let answer = put_if_ioam(start, &option, line, out);
        settle(out, before, answer)?;
    }
    Ok(())
}

// Appends the lines of those of a header of the packet.
fn put_in(
    packet: &[u8],
    head: &Head,
    line: &mut ReportLine,
    out: &mut Vec<u8>,
) -> Result<(), NoMemory>
    requires { HeadFits packet.now head.now }
    ensures { Appends result (OptionLines (ioam_in packet.now head.now)) out.old.items out.new.items }
{
    // A header ends within the packet, whose length is a number of 64 bits.
    let _most = packet.len();
    if head.is_options() {
        put_among(
            head.range.start,
            &packet[head.range.start..head.range.end],
            line,
            out,
        )
    } else {
        Ok(())
    }
}

// Appends the lines of those of all headers on the chain.
fn put_all(packet: &[u8], line: &mut ReportLine, out: &mut Vec<u8>) -> Result<(), NoMemory>
    requires packet { IsPacket packet.now }
    requires sound { IsSound packet.now }
    ensures { Appends result (OptionLines (ioam_of packet.now)) out.old.items out.new.items }
{
    let before = out.len();
    for head in heads(packet) {
        let answer = put_in(packet, &head, line, out);
        settle(out, before, answer)?;
    }
    Ok(())
}

/// Appends the lines of the IOAM options (type 0x11 or 0x31, RFC 9486 section 3) in the Hop-by-Hop and
/// Destination Options headers on the chain of a packet whose walk is whole, nested IPv6 headers
/// included, in order.
///
/// A line has two spaces, the option's type in two hexadecimal digits, `at`, the place of its type octet
/// counted from the packet's first octet, and what its data says: `trace`, `incremental`, `proof`,
/// `edge`, `direct`, `other`, `short` or `bad`. The elements of a trace have lines of their own in visit
/// order. Without memory nothing is appended.
pub fn put_options(packet: &[u8], out: &mut Vec<u8>) -> Result<(), NoMemory>
    requires packet { IsPacket packet.now }
    requires sound { IsSound packet.now }
    ensures lines { Appends result (OptionsText packet.now) out.old.items out.new.items }
    // A packet has one such text.
    ensures only { (one other : List ℕ) → OptionsText packet.now one → OptionsText packet.now other → one ≡ other }
{
    put_all(packet, &mut LineBuffer::new(), out)
}

// Appends ` options COUNT` and a line feed.
fn put_count(count: u64, line: &mut ReportLine, out: &mut Vec<u8>) -> Result<(), NoMemory>
    ensures { out.new.items ≡ (if is_ok result
        then out.old.items ++ (codes " options " ++ (decimal count ++ line_feed))
        else out.old.items) }
{
    line.end::<false>();
    line.put::<false>(Piece::Fact(b" options ", b"options", Value::Number(count)));
    line.finish::<false>(b"packet", out)
}

/// Appends ` options COUNT`, a line feed, and the lines of [`put_options`].
pub fn put_counted_options(packet: &[u8], out: &mut Vec<u8>) -> Result<(), NoMemory>
    requires packet { IsPacket packet.now }
    requires sound { IsSound packet.now }
    ensures lines { Appends result (CountedText packet.now) out.old.items out.new.items }
    ensures only { (one other : List ℕ) → CountedText packet.now one → CountedText packet.now other → one ≡ other }
{
    let before = out.len();
    let mut line = LineBuffer::new();
    put_count(count_options(packet) as u64, &mut line, out)?;
    let answer = put_all(packet, &mut line, out);
    settle(out, before, answer)
}
