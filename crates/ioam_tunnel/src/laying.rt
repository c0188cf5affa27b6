//! The options headers of an outer packet, laid out behind what the packet has already.
ghost use Rattle.std.specs.Prelude.{◌≡◌, ◌^◌, ◌+◌, ◌<◌, ◌≤◌, ◌%◌, true, false, Some, IsTrue, is_some, [], ◌∷◌, ◌++◌, length, map};
ghost use Rattle.std.specs.List.{All};
ghost use Rattle.ioam_ip.specs.Laid.{header_if, header_of, laid_with};
ghost use Rattle.ioam_topo.specs.Sound.{IsFlow};
ghost use Rattle.ioam_topo.specs.Traces.{IsFlowTrace};
ghost use Rattle.ioam_tunnel.specs.Enclosed.{room_of, direct_parts, limit_parts, edge_parts, has_parts};
ghost use Rattle.ioam_tunnel.specs.Outer.{with_parts, behind};
ghost use Rattle.ioam_tunnel.specs.Wire.{IsRoom, trace_parts, no_elements};

use crate::bodies::{direct_of, edge_of};
use crate::numbers::Numbers;
use crate::outer::Outer;
use crate::sizes::{DIRECT_DATA_LEN, edge_data_len, trace_data_len};
use ioam_data::option_type::{DIRECT_EXPORT, EDGE_TO_EDGE, PREALLOCATED_TRACE};
use ioam_data::{Namespace, TraceType};
use ioam_ip::next_header::IPV6;
use ioam_ip::option_type::{ENCAPSULATION_LIMIT, IOAM, IOAM_CHANGING};
use ioam_topo::{Flow, FlowTrace};

// Adds the option of a trace without elements.
fn add_trace(outer: &mut Outer, trace: FlowTrace)
    requires sound { IsFlowTrace trace }
    requires room { length (laid_with outer.old.laid (trace_parts (room_of trace ∷ []) no_elements)) ≤ outer.old.most }
    ensures value { outer.new ≡ with_parts outer.old (trace_parts (room_of trace ∷ []) no_elements) }
    ensures sound { IsRoom (room_of trace) }
{
    outer.begin_option(
        IOAM_CHANGING,
        trace_data_len(trace.capacity),
        PREALLOCATED_TRACE,
    );
    outer.put_trace(trace);
}

// Adds the options of traces without elements.
fn add_traces(outer: &mut Outer, traces: &[FlowTrace])
    requires sound { All IsFlowTrace traces.now }
    requires room { length (laid_with outer.old.laid (trace_parts (map room_of traces.now) no_elements)) ≤ outer.old.most }
    ensures value { outer.new ≡ with_parts outer.old (trace_parts (map room_of traces.now) no_elements) }
    ensures sound { All IsRoom (map room_of traces.now) }
{
    for trace in traces {
        add_trace(outer, *trace);
    }
}

// Adds the option of direct export data of a type.
fn add_direct_of(outer: &mut Outer, flow: &Flow, kind: TraceType, seq: u32)
    requires id { is_some flow.now.flow_id ≡ true }
    requires room { length (laid_with outer.old.laid (direct_parts flow.now (Some kind) (Some seq))) ≤ outer.old.most }
    ensures { outer.new ≡ with_parts outer.old (direct_parts flow.now (Some kind) (Some seq)) }
{
    outer.begin_option(IOAM, DIRECT_DATA_LEN, DIRECT_EXPORT);
    outer.put_direct(&direct_of(flow, kind, seq));
}

// Adds the option of direct export, where the packet carries one.
fn add_direct(outer: &mut Outer, flow: &Flow, seq: Option<u32>)
    requires flow { IsFlow flow.now }
    requires room { length (laid_with outer.old.laid (direct_parts flow.now flow.now.direct seq)) ≤ outer.old.most }
    ensures { outer.new ≡ with_parts outer.old (direct_parts flow.now flow.now.direct seq) }
{
    if let (Some(kind), Some(seq)) = (flow.direct, seq) {
        add_direct_of(outer, flow, kind, seq);
    }
}

// Adds the option of an encapsulation limit, where there is one.
fn add_limit(outer: &mut Outer, limit: Option<u8>)
    requires { length (laid_with outer.old.laid (limit_parts limit)) ≤ outer.old.most }
    ensures { outer.new ≡ with_parts outer.old (limit_parts limit) }
{
    if let Some(limit) = limit {
        outer.append(&[ENCAPSULATION_LIMIT, 1, limit]);
    }
}

// Adds the option of edge-to-edge data of a type.
fn add_edge_of(outer: &mut Outer, namespace: Namespace, kind: u16, numbers: &Numbers)
    requires number { numbers.now.number < 2 ^ 32 }
    requires room { length (laid_with outer.old.laid (edge_parts namespace (Some kind) numbers.now)) ≤ outer.old.most }
    ensures { outer.new ≡ with_parts outer.old (edge_parts namespace (Some kind) numbers.now) }
{
    outer.begin_option(IOAM, edge_data_len(kind), EDGE_TO_EDGE);
    outer.put_edge(&edge_of(namespace, kind, numbers));
}

// Adds the option of edge-to-edge data, where the flow has them.
fn add_edge(outer: &mut Outer, flow: &Flow, numbers: &Numbers)
    requires number { numbers.now.number < 2 ^ 32 }
    requires room { length (laid_with outer.old.laid (edge_parts flow.now.namespace flow.now.edge numbers.now)) ≤ outer.old.most }
    ensures { outer.new ≡ with_parts outer.old (edge_parts flow.now.namespace flow.now.edge numbers.now) }
{
    if let Some(kind) = flow.edge {
        add_edge_of(outer, flow.namespace, kind, numbers);
    }
}

// Lays out the Hop-by-Hop Options header.
fn lay_hop_options(outer: &mut Outer, next: u8, flow: &Flow, seq: Option<u32>)
    requires flow { IsFlow flow.now }
    requires none { outer.old.laid ≡ [] }
    requires small { outer.old.most ≤ 2040 }
    requires room { length (header_of next (trace_parts (map room_of flow.now.traces) no_elements ++ direct_parts flow.now flow.now.direct seq)) ≤ outer.old.most }
    ensures sound { All IsRoom (map room_of flow.now.traces) }
    ensures value { outer.new ≡ behind outer.old
        (header_of next (trace_parts (map room_of flow.now.traces) no_elements ++ direct_parts flow.now flow.now.direct seq)) }
{
    outer.pair(next, 0);
    add_traces(outer, flow.traces());
    add_direct(outer, flow, seq);
    outer.finish();
}

// Whether the Hop-by-Hop Options header has an option.
fn has_hop(flow: &Flow, seq: Option<u32>) -> bool
    requires { IsTrue (is_some seq) → IsTrue (is_some flow.now.direct) }
    ensures value { result ≡ has_parts (trace_parts (map room_of flow.now.traces) no_elements ++ direct_parts flow.now flow.now.direct seq) }
    ensures none { result ≡ false → All IsRoom (map room_of flow.now.traces) }
{
    !flow.traces().is_empty() || seq.is_some()
}

/// Lays out the Hop-by-Hop Options header, or nothing where it would have no option.
#[tactic(auto, using(crate::proofs::LayLaws::behind_there, crate::proofs::LayLaws::room_there, crate::proofs::LayLaws::behind_none))]
pub(crate) fn lay_hop(outer: &mut Outer, next: u8, flow: &Flow, seq: Option<u32>)
    requires flow { IsFlow flow.now }
    requires direct { IsTrue (is_some seq) → IsTrue (is_some flow.now.direct) }
    requires none { outer.old.laid ≡ [] }
    requires small { outer.old.most ≤ 2040 }
    requires room { length (header_if next (trace_parts (map room_of flow.now.traces) no_elements ++ direct_parts flow.now flow.now.direct seq)) ≤ outer.old.most }
    ensures sound { All IsRoom (map room_of flow.now.traces) }
    ensures value { outer.new ≡ behind outer.old
        (header_if next (trace_parts (map room_of flow.now.traces) no_elements ++ direct_parts flow.now flow.now.direct seq)) }
{
    if has_hop(flow, seq) {
        lay_hop_options(outer, next, flow, seq);
    }
}

// Lays out the Destination Options header.
fn lay_target_options(outer: &mut Outer, flow: &Flow, numbers: &Numbers)
    requires number { numbers.now.number < 2 ^ 32 }
    requires none { outer.old.laid ≡ [] }
    requires small { outer.old.most ≤ 2040 }
    requires room { length (header_of 41 (limit_parts numbers.now.limit ++ edge_parts flow.now.namespace flow.now.edge numbers.now)) ≤ outer.old.most }
    ensures { outer.new ≡ behind outer.old
        (header_of 41 (limit_parts numbers.now.limit ++ edge_parts flow.now.namespace flow.now.edge numbers.now)) }
{
    outer.pair(IPV6, 0);
    add_limit(outer, numbers.limit);
    add_edge(outer, flow, numbers);
    outer.finish();
}

// Whether the Destination Options header has an option.
fn has_targets(flow: &Flow, numbers: &Numbers) -> bool
    ensures { result ≡ has_parts (limit_parts numbers.now.limit ++ edge_parts flow.now.namespace flow.now.edge numbers.now) }
{
    numbers.limit.is_some() || flow.edge.is_some()
}

/// Lays out the Destination Options header, or nothing where it would have no option.
#[tactic(auto, using(crate::proofs::LayLaws::behind_there, crate::proofs::LayLaws::room_there, crate::proofs::LayLaws::behind_none))]
pub(crate) fn lay_targets(outer: &mut Outer, flow: &Flow, numbers: &Numbers)
    requires number { numbers.now.number < 2 ^ 32 }
    requires none { outer.old.laid ≡ [] }
    requires small { outer.old.most ≤ 2040 }
    requires room { length (header_if 41 (limit_parts numbers.now.limit ++ edge_parts flow.now.namespace flow.now.edge numbers.now)) ≤ outer.old.most }
    ensures { outer.new ≡ behind outer.old
        (header_if 41 (limit_parts numbers.now.limit ++ edge_parts flow.now.namespace flow.now.edge numbers.now)) }
{
    if has_targets(flow, numbers) {
        lay_target_options(outer, flow, numbers);
    }
}
