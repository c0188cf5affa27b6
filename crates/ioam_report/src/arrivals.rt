//! The lines of arrivals.
ghost use Rattle.std.specs.Prelude.{◌≡◌, ◌++◌, ◌+◌, ◌<◌, ◌≤◌, [], IfSome, length, is_ok, if◌then◌else◌, codes, decimal};
ghost use Rattle.ioam_topo.specs.Domain.{nodes, ports, flows};
ghost use Rattle.ioam_plan.specs.Inside.{EndsInside};
ghost use Rattle.ioam_report_lines.specs.TraceText.{line_feed};
ghost use Rattle.ioam_report.specs.RunText.{reason_name, node_name, port_name, flow_name, end_text, direct_text, carried_text, arrival_line};

use crate::reasons::reason_text;
use ioam_base::memory::NoMemory;
use ioam_base::text::{append, append_two, settle};
use ioam_line::{LineBuffer, Piece, Value};
use ioam_node::Reason;
use ioam_plan::{End, Itinerary};
use ioam_topo::{Domain, FlowId, NodeId, PortId};
use ioam_tunnel::Numbers;

// The octets of a node's name.
fn node_name(domain: &Domain, node: NodeId) -> &[u8]
    requires { node.0 < length (nodes domain.now) }
    ensures { result.now ≡ node_name domain.now node.0 }
{
    domain.nodes()[node.0 as usize].name.text().as_bytes()
}

// The octets of a port's name.
fn port_name(domain: &Domain, port: PortId) -> &[u8]
    requires { port.0 < length (ports domain.now) }
    ensures { result.now ≡ port_name domain.now port.0 }
{
    domain.ports()[port.0 as usize].name.text().as_bytes()
}

// The octets of a flow's name.
fn flow_name(domain: &Domain, flow: FlowId) -> &[u8]
    requires { flow.0 < length (flows domain.now) }
    ensures { result.now ≡ flow_name domain.now flow.0 }
{
    domain.flows()[flow.0 as usize].name.text().as_bytes()
}

/// Appends three texts, one after the other, or leaves what was there.
pub(crate) fn append_three(
    out: &mut Vec<u8>,
    first: &[u8],
    second: &[u8],
    third: &[u8],
) -> Result<(), NoMemory>
    ensures { out.new.items ≡ (if is_ok result then out.old.items ++ (first.now ++ second.now ++ third.now) else out.old.items) }
{
    let before = out.len();
    append_two(out, first, second)?;
    let answer = append(out, third);
    settle(out, before, answer)
}

// Appends the number of an arrival and its port. The names of a domain have no bound here, so they are appended and not put.
fn put_port(
    domain: &Domain,
    number: u64,
    port: PortId,
    line: &mut LineBuffer<128>,
    out: &mut Vec<u8>,
) -> Result<(), NoMemory>
    requires { port.0 < length (ports domain.now) }
    ensures { out.new.items ≡ (if is_ok result
        then out.old.items ++ (decimal number ++ codes " " ++ port_name domain.now port.0 ++ codes " ")
        else out.old.items) }
{
    line.clear();
    line.put::<false>(Piece::Said(b" "));
    line.put::<false>(Piece::Fact(b"", b"packet", Value::Number(number)));
    append_three(out, line.octets(), port_name(domain, port), b" ")
}

// Appends why a packet was dropped, and by which node.
fn put_drop(
    domain: &Domain,
    reason: Reason,
    node: NodeId,
    out: &mut Vec<u8>,
) -> Result<(), NoMemory>
    requires { node.0 < length (nodes domain.now) }
    ensures { out.new.items ≡ (if is_ok result
        then out.old.items ++ (codes "drop " ++ reason_name reason ++ codes " " ++ node_name domain.now node.0)
        else out.old.items) }
{
    let before = out.len();
    append_three(out, b"drop ", reason_text(reason).as_bytes(), b" ")?;
    let answer = append(out, node_name(domain, node));
    settle(out, before, answer)
}

// Appends how a journey ended.
fn put_end(domain: &Domain, end: End, out: &mut Vec<u8>) -> Result<(), NoMemory>
    requires { EndsInside domain.now end }
    ensures { out.new.items ≡ (if is_ok result then out.old.items ++ end_text domain.now end else out.old.items) }
{
    match end {
        End::Left { port } => append_two(out, b"left ", port_name(domain, port)),
        End::Drop { reason, node } => put_drop(domain, reason, node, out),
    }
}

// Puts the sequence number of a direct export, if there is one.
fn put_direct(number: Option<u32>, line: &mut LineBuffer<128>)
    requires { 40 + length line.old ≤ 128 }
    ensures value { line.new ≡ direct_text number ++ line.old }
    ensures size { length line.new ≤ 40 + length line.old }
{
    match number {
        None => {}
        Some(number) => {
            let number = Value::Number(u64::from(number));
            line.put::<false>(Piece::Fact(b" direct ", b"sequence", number));
        }
    }
}

// Puts the numbers of a packet in its flow together, and a line feed.
fn put_numbers(numbers: &Numbers, line: &mut LineBuffer<128>)
    ensures { line.new ≡ codes " " ++ decimal numbers.now.number ++ direct_text numbers.now.direct ++ line_feed }
{
    line.end::<false>();
    put_direct(numbers.direct, line);
    line.put::<false>(Piece::Fact(b" ", b"number", Value::Number(numbers.number)));
}

// Appends the flow in which a packet is enclosed, if it is, and its numbers there, and a line feed.
fn put_carried(
    domain: &Domain,
    carried: Option<(FlowId, Numbers)>,
    line: &mut LineBuffer<128>,
    out: &mut Vec<u8>,
) -> Result<(), NoMemory>
    requires { IfSome carried (λ carried. carried.0.0 < length (flows domain.now)) }
    ensures { out.new.items ≡ (if is_ok result
        then out.old.items ++ (carried_text domain.now carried ++ line_feed)
        else out.old.items) }
{
    match carried {
        None => append(out, b"\n"),
        Some((flow, numbers)) => {
            put_numbers(&numbers, line);
            append_three(out, b" flow ", flow_name(domain, flow), line.octets())
        }
    }
}

/// Appends the line of an arrival: its number, counted from 1, the port by which it came, and either
/// `left` and the port by which it left the domain, or `drop`, the reason, and the node that dropped
/// it. Where its packet is enclosed, `flow`, the flow's name and the packet's number in it follow, and
/// where that carries a direct export `direct` and its sequence number. The ports, the node and the
/// flow are those of the domain. Without memory nothing is appended.
pub fn put_arrival(
    domain: &Domain,
    number: u64,
    itinerary: &Itinerary,
    out: &mut Vec<u8>,
) -> Result<(), NoMemory>
    requires port { itinerary.now.port.0 < length (ports domain.now) }
    requires ends { EndsInside domain.now itinerary.now.end }
    requires flow { IfSome itinerary.now.carried (λ carried. carried.0.0 < length (flows domain.now)) }
    ensures { out.new.items ≡ (if is_ok result
        then out.old.items ++ arrival_line domain.now number itinerary.now
        else out.old.items) }
{
    let before = out.len();
    let mut line = LineBuffer::new();
    put_port(domain, number, itinerary.port, &mut line, out)?;
    let answer = put_end(domain, itinerary.end, out);
    settle(out, before, answer)?;
    let answer = put_carried(domain, itinerary.carried, &mut line, out);
    settle(out, before, answer)
}
