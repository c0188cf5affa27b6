//! What a trace says.
ghost use Rattle.std.specs.Prelude.{◌≡◌, ◌++◌, ◌≤◌, length, codes, is_ok, if◌then◌else◌};
ghost use Rattle.std.specs.List.{flat_map};
ghost use Rattle.ioam_trace.specs.Read.{elements_in, incremental_elements};
ghost use Rattle.ioam_report_lines.specs.TraceText.{line_feed, element_line};
ghost use Rattle.ioam_report_options.specs.Appends.{Appends};
ghost use Rattle.ioam_report_options.specs.OptionText.{front_text, head_text, trace_text, TraceSays, IncrementalSays, Fronted};

use crate::fields::put_bad;
use crate::front::{Front, finish_line};
use ioam_base::memory::NoMemory;
use ioam_base::text::settle;
use ioam_data::option_type::{INCREMENTAL_TRACE, PREALLOCATED_TRACE};
use ioam_line::{Piece, Value};
use ioam_report_lines::{ReportLine, put_element_line, put_element_lines, put_trace_type};
use ioam_trace::{Incremental, Trace, TraceHead};

// Puts the header of a trace.
fn put_head(label: &[u8], head: &TraceHead, line: &mut ReportLine)
    requires label { length label.now ≤ 12 }
    requires ends { line.old ≡ line_feed }
    ensures value { line.new ≡ label.now ++ head_text head.now }
    ensures size { length line.new ≤ 300 }
{
    let remaining = Value::Number(u64::from(head.remaining));
    line.put::<false>(Piece::Fact(b" remaining ", b"remaining_len", remaining));
    let flags = Value::Number(u64::from(head.flags));
    line.put::<false>(Piece::Fact(b" flags ", b"flags", flags));
    put_trace_type(b" ", head.kind, line);
    let namespace = Value::Number(u64::from(head.namespace.0));
    line.put::<false>(Piece::Fact(b"", b"namespace", namespace));
    line.put::<false>(Piece::Said(label));
}

// The header of a pre-allocated trace and its elements.
fn put_whole(
    trace: &Trace<'_>,
    front: Front,
    line: &mut ReportLine,
    out: &mut Vec<u8>,
) -> Result<(), NoMemory>
    ensures { out.new.items ≡ (if is_ok result
        then out.old.items ++ (front_text front.kind front.at ++ (codes "trace " ++ trace_text trace.now.head (elements_in trace.now)))
        else out.old.items) }
{
    let before = out.len();
    line.end::<false>();
    put_head(b"trace ", &trace.head, line);
    finish_line(front, line, out)?;
    let answer = put_element_lines(trace, line, out);
    settle(out, before, answer)
}

// A line for each element of an incremental trace, in visit order.
fn put_newer_lines(
    trace: &Incremental<'_>,
    line: &mut ReportLine,
    out: &mut Vec<u8>,
) -> Result<(), NoMemory>
    ensures { out.new.items ≡ (if is_ok result
        then out.old.items ++ flat_map (element_line trace.now.head.kind trace.now.head.node_len) (incremental_elements trace.now)
        else out.old.items) }
{
    let before = out.len();
    for element in trace.elements() {
        let answer = put_element_line(trace.head.kind, trace.head.node_len, element, line, out);
        settle(out, before, answer)?;
    }
    Ok(())
}

// The header of an incremental trace and its elements.
fn put_grown(
    trace: &Incremental<'_>,
    front: Front,
    line: &mut ReportLine,
    out: &mut Vec<u8>,
) -> Result<(), NoMemory>
    ensures { out.new.items ≡ (if is_ok result
        then out.old.items ++ (front_text front.kind front.at ++ (codes "incremental " ++ trace_text trace.now.head (incremental_elements trace.now)))
        else out.old.items) }
{
    let before = out.len();
    line.end::<false>();
    put_head(b"incremental ", &trace.head, line);
    finish_line(front, line, out)?;
    let answer = put_newer_lines(trace, line, out);
    settle(out, before, answer)
}

/// Appends the lines of a pre-allocated trace (RFC 9197 section 4.4).
pub(crate) fn put_trace(
    octets: &[u8],
    front: Front,
    line: &mut ReportLine,
    out: &mut Vec<u8>,
) -> Result<(), NoMemory>
    ensures { Appends result (Fronted front.kind front.at (TraceSays octets.now)) out.old.items out.new.items }
{
    match Trace::read(octets) {
        Ok(trace) => put_whole(&trace, front, line, out),
        Err(_) => put_bad(PREALLOCATED_TRACE, front, line, out),
    }
}

/// Appends the lines of an incremental trace (RFC 9197 section 4.4).
pub(crate) fn put_incremental(
    octets: &[u8],
    front: Front,
    line: &mut ReportLine,
    out: &mut Vec<u8>,
) -> Result<(), NoMemory>
    ensures { Appends result (Fronted front.kind front.at (IncrementalSays octets.now)) out.old.items out.new.items }
{
    match Incremental::decode(octets) {
        Ok(trace) => put_grown(&trace, front, line, out),
        Err(_) => put_bad(INCREMENTAL_TRACE, front, line, out),
    }
}
