//! The sums at the end of a run's report.
ghost use Rattle.std.specs.Prelude.{◌≡◌, ◌++◌, ◌≤◌, List, [], length, is_ok, if◌then◌else◌};
ghost use Rattle.ioam_edge.specs.Receiver.{tally_in};
ghost use Rattle.ioam_plan.specs.declared.itinerary.Itinerary.{Itinerary};
ghost use Rattle.ioam_report.specs.Sums.{StandFor};
ghost use Rattle.ioam_report.specs.SumsText.{packets_line, node_line, node_lines, next_text, tally_text, is_numbered, flow_sum_line, flow_lines, sums_text, arrivals_text};
ghost use Rattle.ioam_line.specs.Given.{value_of};
ghost use Rattle.ioam_line.specs.Line.{value_text, value_most};

use crate::arrivals::append_three;
use crate::flows::FlowSum;
use crate::sums::{NodeSum, Sums};
use ioam_base::memory::NoMemory;
use ioam_base::text::settle;
use ioam_edge::{Tally, asks};
use ioam_line::{LineBuffer, Piece, Value};
use ioam_topo::{Domain, Flow, Node};

// Appends the line for all arrivals.
fn put_packets_line(
    sums: &Sums,
    line: &mut LineBuffer<512>,
    out: &mut Vec<u8>,
) -> Result<(), NoMemory>
    ensures { out.new.items ≡ (if is_ok result
        then out.old.items ++ packets_line sums.now.packets sums.now.left sums.now.dropped
        else out.old.items) }
{
    line.end::<false>();
    line.put::<false>(Piece::Fact(b" dropped ", b"dropped", Value::Number(sums.dropped)));
    line.put::<false>(Piece::Fact(b" left ", b"left", Value::Number(sums.left)));
    line.put::<false>(Piece::Fact(b"packets ", b"packets", Value::Number(sums.packets)));
    line.finish::<false>(b"sums", out)
}

// Appends the line of a node. Its name has no bound here, so it is appended and not put.
fn put_node_line(
    name: &[u8],
    sum: NodeSum,
    line: &mut LineBuffer<512>,
    out: &mut Vec<u8>,
) -> Result<(), NoMemory>
    ensures { out.new.items ≡ (if is_ok result then out.old.items ++ node_line name.now sum else out.old.items) }
{
    line.end::<false>();
    line.put::<false>(Piece::Fact(b" dropped ", b"dropped", Value::Number(sum.dropped)));
    line.put::<false>(Piece::Fact(b" seen ", b"seen", Value::Number(sum.seen)));
    append_three(out, b"node ", name, line.octets())
}

// Appends the lines of the nodes.
fn put_node_lines(
    nodes: &[Node],
    sums: &[NodeSum],
    line: &mut LineBuffer<512>,
    out: &mut Vec<u8>,
) -> Result<(), NoMemory>
    ensures { out.new.items ≡ (if is_ok result then out.old.items ++ node_lines nodes.now sums.now else out.old.items) }
{
    let before = out.len();
    for (node, sum) in nodes.iter().zip(sums) {
        let answer = put_node_line(node.name.text().as_bytes(), *sum, line, out);
        settle(out, before, answer)?;
    }
    Ok(())
}

// The number due, or that it passes 64 bits.
fn next(number: Option<u64>) -> Value<'static>
    ensures value { value_text (value_of result) ≡ next_text number }
    ensures size { value_most (value_of result) ≤ 20 }
{
    match number {
        None => Value::Unknown,
        Some(number) => Value::Number(number),
    }
}

// Puts what the sequence numbers at the exit of a flow tell.
fn put_tally(tally: &Tally, line: &mut LineBuffer<512>)
    requires { length line.old ≤ 2 }
    ensures value { line.new ≡ tally_text tally.now ++ line.old }
    ensures size { length line.new ≤ 210 }
{
    line.put::<false>(Piece::Fact(b" repeats ", b"repeats", Value::Number(tally.repeats)));
    line.put::<false>(Piece::Fact(b" late ", b"late", Value::Number(tally.late)));
    line.put::<false>(Piece::Fact(b" missed ", b"missed", Value::Number(tally.missed)));
    line.put::<false>(Piece::Fact(b" gaps ", b"gaps", Value::Number(tally.gaps)));
    line.put::<false>(Piece::Fact(b" next ", b"next", next(tally.next)));
}

// Whether the packets of a flow have sequence numbers.
fn is_numbered(edge: Option<u16>) -> bool
    ensures { result ≡ is_numbered edge }
{
    match edge {
        None => false,
        Some(kind) => asks(kind, 0) || asks(kind, 1),
    }
}

// Puts what the sequence numbers tell, if the packets of the flow have some.
fn put_numbers(edge: Option<u16>, sum: &FlowSum, line: &mut LineBuffer<512>)
    requires { length line.old ≤ 2 }
    ensures value { line.new ≡ (if is_numbered edge then tally_text (tally_in sum.now.receiver) else []) ++ line.old }
    ensures size { length line.new ≤ 210 }
{
    if is_numbered(edge) {
        put_tally(&sum.receiver.tally(), line);
    }
}

// Appends the line of a flow. Its name has no bound here, so it is appended and not put.
fn put_flow_line(
    flow: &Flow,
    sum: &FlowSum,
    line: &mut LineBuffer<512>,
    out: &mut Vec<u8>,
) -> Result<(), NoMemory>
    ensures { out.new.items ≡ (if is_ok result then out.old.items ++ flow_sum_line flow.now sum.now else out.old.items) }
{
    line.end::<false>();
    put_numbers(flow.edge, sum, line);
    line.put::<false>(Piece::Fact(b" direct ", b"direct", Value::Number(sum.direct)));
    line.put::<false>(Piece::Fact(b" exited ", b"exited", Value::Number(sum.exited)));
    line.put::<false>(Piece::Fact(b" enclosed ", b"enclosed", Value::Number(sum.enclosed)));
    append_three(out, b"flow ", flow.name.text().as_bytes(), line.octets())
}

// Appends the lines of the flows.
fn put_flow_lines(
    flows: &[Flow],
    sums: &[FlowSum],
    line: &mut LineBuffer<512>,
    out: &mut Vec<u8>,
) -> Result<(), NoMemory>
    ensures { out.new.items ≡ (if is_ok result then out.old.items ++ flow_lines flows.now sums.now else out.old.items) }
{
    let before = out.len();
    for (flow, sum) in flows.iter().zip(sums) {
        let answer = put_flow_line(flow, sum, line, out);
        settle(out, before, answer)?;
    }
    Ok(())
}

/// Appends the sums of a run in this domain: a line with the counts of the arrivals, of those that
/// left and of those that were dropped; for each node in file order a line with its name, how often it
/// saw a packet and how many it dropped; and for each flow in file order a line with its name, how many
/// packets were enclosed, how many of them reached the exit and how many carry a direct export, and where
/// the flow has a sequence number (RFC 9197 section 4.6) what a receiver at the exit tells of the numbers.
/// Without memory nothing is appended.
pub fn put_sums(domain: &Domain, sums: &Sums, out: &mut Vec<u8>) -> Result<(), NoMemory>
    ensures text { out.new.items ≡ (if is_ok result then out.old.items ++ sums_text domain.now sums.now else out.old.items) }
    // Where the sums stand for arrivals, these are the lines that the arrivals give.
    ensures arrivals { (arrivals : List Itinerary) → StandFor domain.now sums.now arrivals
        → sums_text domain.now sums.now ≡ arrivals_text domain.now arrivals }
{
    let before = out.len();
    let mut line = LineBuffer::new();
    put_packets_line(sums, &mut line, out)?;
    let answer = put_node_lines(domain.nodes(), sums.nodes.list(), &mut line, out);
    settle(out, before, answer)?;
    let answer = put_flow_lines(domain.flows(), sums.flows.list(), &mut line, out);
    settle(out, before, answer)
}
