//! The lines of a trace.
ghost use Rattle.std.specs.Prelude.{◌≡◌, ◌++◌, ◌+◌, ◌*◌, ◌/◌, ◌<◌, ◌≤◌, IsTrue, length, drop, decimal, codes, is_ok, if◌then◌else◌};
ghost use Rattle.std.specs.Int.{w32, to_be_bytes};
ghost use Rattle.std.specs.List.{flat_map};
ghost use Rattle.ioam_data.specs.Elements.{IsElement};
ghost use Rattle.ioam_line.specs.Digits.{digits_of};
ghost use Rattle.ioam_trace.specs.Read.{elements_in};
ghost use Rattle.ioam_report_lines.specs.Early.{IsEarly};
ghost use Rattle.ioam_report_lines.specs.TraceText.{line_feed, element_line, first_line, whole_lines, fault_text, bad_line, trace_lines, IsTraceText};

use crate::early::{append_early, is_early};
use crate::elements::put_element_line;
use crate::room::ReportLine;
use ioam_base::memory::NoMemory;
use ioam_base::text::settle;
use ioam_data::TraceType;
use ioam_line::{LineBuffer, Piece, Value, Width};
use ioam_trace::{Trace, TraceFault, TraceHead};

// Puts the name of a fault, and a number of it.
fn put_named_fault<'a>(name: &'a [u8], key: &'a [u8], number: u64, line: &mut ReportLine)
    requires names { length name.now + length key.now ≤ 24 }
    requires room { 100 + length line.old ≤ 1536 }
    ensures value { line.new ≡ (codes "  trace bad " ++ name.now) ++ ((codes " " ++ decimal number) ++ line.old) }
    ensures size { length line.new ≤ 100 + length line.old }
{
    line.put::<false>(Piece::Fact(b" ", key, Value::Number(number)));
    line.put::<false>(Piece::Fact(b"  trace bad ", b"fault", Value::Word(name)));
}

// Puts the words of a fault.
fn put_fault(fault: TraceFault, line: &mut ReportLine)
    requires { length line.old ≤ 2 }
    ensures value { line.new ≡ (codes "  trace bad " ++ fault_text fault) ++ line.old }
    ensures size { length line.new ≤ 200 }
{
    match fault {
        TraceFault::Short { have } => put_named_fault(b"short", b"have", have as u64, line),
        TraceFault::Space { remaining } => {
            put_named_fault(b"space", b"remaining_len", u64::from(remaining), line);
        }
        TraceFault::NodeLen { found, wanted } => {
            let wanted = Value::Number(u64::from(wanted));
            line.put::<false>(Piece::Fact(b" ", b"wanted_words", wanted));
            put_named_fault(b"node-len", b"node_len", u64::from(found), line);
        }
        TraceFault::Element { at } => put_named_fault(b"element", b"offset", at as u64, line),
    }
}

// Appends the line of a fault.
fn put_bad_line(fault: TraceFault, line: &mut ReportLine, out: &mut Vec<u8>) -> Result<(), NoMemory>
    ensures { out.new.items ≡ (if is_ok result then out.old.items ++ bad_line fault else out.old.items) }
{
    line.end::<false>();
    put_fault(fault, line);
    line.finish::<false>(b"trace", out)
}

/// Puts the six digits of a type after a label.
#[inline]
pub fn put_trace_type(label: &[u8], kind: TraceType, line: &mut ReportLine)
    requires label { length label.now ≤ 10 }
    requires room { 40 + length line.old ≤ 1536 }
    ensures value { line.new ≡ (label.now ++ digits_of (drop 1 (to_be_bytes w32 kind))) ++ line.old }
    ensures size { length line.new ≤ 40 + length line.old }
{
    let digits = Value::Hex(u64::from(kind.bits()), Width::Three);
    line.put::<false>(Piece::Fact(label, b"trace_type", digits));
}

// Puts the words of a header that `count` elements follow.
fn put_first_line(head: &TraceHead, count: u64, line: &mut ReportLine)
    requires { line.old ≡ line_feed }
    ensures value { line.new ≡ first_line head.now.namespace.0 head.now.kind (head.now.flags / 8) count }
    ensures size { length line.new ≤ 200 }
{
    let label: &[u8] = if head.has_overflow() {
        b" overflow "
    } else {
        b" whole "
    };
    line.put::<false>(Piece::Fact(b"", b"elements", Value::Number(count)));
    line.put::<false>(Piece::Said(label));
    put_trace_type(b" ", head.kind, line);
    let namespace = Value::Number(u64::from(head.namespace.0));
    line.put::<false>(Piece::Fact(b"  trace ", b"namespace", namespace));
}

// Appends the line of an element, which may be known to be one of bits 0 to 3 alone.
fn put_line(
    kind: TraceType,
    node_len: u8,
    element: &[u8],
    early: bool,
    line: &mut ReportLine,
    out: &mut Vec<u8>,
) -> Result<(), NoMemory>
    requires element { IsElement kind node_len element.now }
    requires early { IsTrue early → IsEarly kind node_len }
    ensures { out.new.items ≡ (if is_ok result then out.old.items ++ element_line kind node_len element.now else out.old.items) }
{
    if early {
        append_early(kind, node_len, element, line, out)
    } else {
        put_element_line(kind, node_len, element, line, out)
    }
}

// How many elements a trace has.
fn count_elements(trace: &Trace<'_>) -> u64
    ensures { result ≡ length (elements_in trace.now) }
{
    // An element has an octet or more, so the count is no greater than this.
    let _most = trace.area.len();
    trace.elements().count() as u64
}

// The same where all have one size, since they are fields of bits 0 to 3 alone.
fn count_early(trace: &Trace<'_>) -> u64
    requires early { IsEarly trace.now.head.kind trace.now.head.node_len }
    requires filled { 0 < trace.now.head.node_len }
    ensures { result ≡ length (elements_in trace.now) }
{
    let free = 4 * usize::from(trace.head.remaining);
    let used = trace.area.len().saturating_sub(free);
    (used / (4 * usize::from(trace.head.node_len))) as u64
}

// The same where they may be known to be such fields alone.
fn count(trace: &Trace<'_>, early: bool) -> u64
    requires { IsTrue early → IsEarly trace.now.head.kind trace.now.head.node_len }
    ensures { result ≡ length (elements_in trace.now) }
{
    if early && trace.head.node_len > 0 {
        count_early(trace)
    } else {
        count_elements(trace)
    }
}

// Appends the lines of the elements of a trace, one put together after the other. They may be known to be fields
// of bits 0 to 3 alone.
fn put_lines(
    trace: &Trace<'_>,
    early: bool,
    line: &mut ReportLine,
    out: &mut Vec<u8>,
) -> Result<(), NoMemory>
    requires { IsTrue early → IsEarly trace.now.head.kind trace.now.head.node_len }
    ensures { out.new.items ≡ (if is_ok result
        then out.old.items ++ flat_map (element_line trace.now.head.kind trace.now.head.node_len) (elements_in trace.now)
        else out.old.items) }
{
    let (kind, node_len) = (trace.head.kind, trace.head.node_len);
    let before = out.len();
    for element in trace.elements() {
        let answer = put_line(kind, node_len, element, early, line, out);
        settle(out, before, answer)?;
    }
    Ok(())
}

/// Appends the lines of the elements of a trace, in visit order, the oldest first. Without memory nothing
/// is appended.
pub fn put_element_lines(
    trace: &Trace<'_>,
    line: &mut ReportLine,
    out: &mut Vec<u8>,
) -> Result<(), NoMemory>
    ensures { out.new.items ≡ (if is_ok result
        then out.old.items ++ flat_map (element_line trace.now.head.kind trace.now.head.node_len) (elements_in trace.now)
        else out.old.items) }
{
    let early = is_early(trace.head.kind, trace.head.node_len);
    put_lines(trace, early, line, out)
}

// Appends the lines of a trace that was read.
fn put_whole_lines(
    trace: &Trace<'_>,
    line: &mut ReportLine,
    out: &mut Vec<u8>,
) -> Result<(), NoMemory>
    ensures { out.new.items ≡ (if is_ok result
        then out.old.items ++ whole_lines trace.now.head.namespace.0 trace.now.head.kind (trace.now.head.flags / 8) trace.now.head.node_len (elements_in trace.now)
        else out.old.items) }
{
    let before = out.len();
    let early = is_early(trace.head.kind, trace.head.node_len);
    line.end::<false>();
    put_first_line(&trace.head, count(trace, early), line);
    line.finish::<false>(b"trace", out)?;
    let answer = put_lines(trace, early, line, out);
    settle(out, before, answer)
}

/// Appends the lines of [`put_trace_lines`], each put together in a buffer that holds anything before and after.
pub(crate) fn put_trace(
    octets: &[u8],
    line: &mut ReportLine,
    out: &mut Vec<u8>,
) -> Result<(), NoMemory>
    ensures { out.new.items ≡ (if is_ok result then out.old.items ++ trace_lines octets.now else out.old.items) }
{
    match Trace::read(octets) {
        Ok(trace) => put_whole_lines(&trace, line, out),
        Err(fault) => put_bad_line(fault, line, out),
    }
}

/// Appends the lines for the octets after the IOAM-Option-Type of a trace option (RFC 9197 section
/// 4.4.1). A trace has a line with its namespace, its type, `whole` or with Overflow set
/// `overflow`, and the count of its elements, and then a line for each element in visit order, the
/// oldest first. Octets that are no trace have one line with their first fault. Without memory
/// nothing is appended.
pub fn put_trace_lines(octets: &[u8], out: &mut Vec<u8>) -> Result<(), NoMemory>
    ensures text { out.new.items ≡ (if is_ok result then out.old.items ++ trace_lines octets.now else out.old.items) }
    // The text is that of the header and the elements, or of the fault, that the octets have.
    ensures is_text { IsTraceText octets.now (trace_lines octets.now) }
{
    put_trace(octets, &mut LineBuffer::new(), out)
}
