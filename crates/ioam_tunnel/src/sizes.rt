//! How long an outer packet is.
ghost use Rattle.std.specs.Prelude.{◌≡◌, ◌≤◌, ◌+◌, ◌*◌, ◌∷◌, ◌++◌, List, [], length, map};
ghost use Rattle.std.specs.List.{All};
ghost use Rattle.ioam_edge.specs.Edge.{fields_size};
ghost use Rattle.ioam_ip.specs.Sizes.{Sized, options_end, header_size};
ghost use Rattle.ioam_topo.specs.Sound.{IsFlow};
ghost use Rattle.ioam_topo.specs.Traces.{IsFlowTrace};
ghost use Rattle.ioam_tunnel.specs.Size.{trace_size, direct_sizes, limit_sizes, edge_sizes, outer_size};

use ioam_data::option_type::IN_FRONT;
use ioam_edge::data_size;
use ioam_ip::option_type::{ENCAPSULATION_LIMIT, IOAM, IOAM_CHANGING};
use ioam_ip::{HEADER_OCTETS, padded, size_with};
use ioam_topo::{Flow, FlowTrace};
use ioam_trace::HEAD_OCTETS;

/// How many octets of data the option of direct export has: those two in front, 8 of the header, the flow's id and the sequence
/// number (RFC 9326 section 3.2).
pub(crate) const DIRECT_DATA_LEN: u8 = 18;

/// How many octets of data the option of a trace has: those two in front, the header and the free words (RFC 9197 section 4.4).
pub(crate) fn trace_data_len(capacity: u8) -> u8
    requires { capacity ≤ 61 }
    ensures { result ≡ 10 + 4 * capacity }
{
    (IN_FRONT + HEAD_OCTETS) as u8 + 4 * capacity
}

/// How many octets of data the option of edge-to-edge data of a type has: those two in front, the header and the fields (RFC 9197
/// section 4.6).
pub(crate) fn edge_data_len(kind: u16) -> u8
    ensures value { result ≡ 6 + fields_size kind }
    ensures small { result ≤ 26 }
{
    (IN_FRONT + data_size(kind)) as u8
}

// Where the options of traces end.
fn traces_end(traces: &[FlowTrace]) -> usize
    requires few { length traces.now ≤ 3 }
    requires sound { All IsFlowTrace traces.now }
    ensures value { result ≡ options_end 2 (map trace_size traces.now) }
    ensures small { result ≤ 779 }
{
    let mut end = 2;
    for trace in traces {
        end = trace_end(end, trace);
    }
    end
}

// Where the option of a trace ends behind so many octets.
fn trace_end(size: usize, trace: &FlowTrace) -> usize
    requires sound { IsFlowTrace trace.now }
    requires small { size ≤ 779 }
    ensures value { result ≡ options_end size (trace_size trace.now ∷ []) }
    ensures small { result ≤ size + 259 }
{
    size_with(
        size,
        IOAM_CHANGING,
        usize::from(trace_data_len(trace.capacity)),
    )
}

// Where the option of direct export ends behind so many octets, if there is one.
fn direct_end(size: usize, direct: bool) -> usize
    requires { size ≤ 779 }
    ensures value { result ≡ options_end size (direct_sizes direct) }
    ensures small { result ≤ size + 23 }
{
    if direct {
        size_with(size, IOAM, usize::from(DIRECT_DATA_LEN))
    } else {
        size
    }
}

// Where the encapsulation limit ends, if there is one.
fn limit_end(limit: bool) -> usize
    ensures value { result ≡ options_end 2 (limit_sizes limit) }
    ensures small { result ≤ 5 }
{
    if limit {
        size_with(2, ENCAPSULATION_LIMIT, 1)
    } else {
        2
    }
}

// Where the option of edge-to-edge data ends behind so many octets, if there is one.
fn edge_end(size: usize, edge: Option<u16>) -> usize
    requires { size ≤ 5 }
    ensures value { result ≡ options_end size (edge_sizes edge) }
    ensures small { result ≤ size + 31 }
{
    match edge {
        Some(kind) => size_with(size, IOAM, usize::from(edge_data_len(kind))),
        None => size,
    }
}

// The size of a header whose options end here: it stands only where it has an option.
#[tactic(auto, using(crate::proofs::SizeLaws::size_none, crate::proofs::SizeLaws::size_some))]
fn size_to(end: usize) -> usize
    requires { end ≤ 1000 }
    ensures value { (options : List Sized) → end ≡ options_end 2 options → result ≡ header_size options }
    ensures small { result ≤ end + 7 }
{
    if end == 2 { 0 } else { padded(end) }
}

/// The size of the Hop-by-Hop Options header.
pub(crate) fn hop_size(flow: &Flow, direct: bool) -> usize
    requires { IsFlow flow.now }
    ensures value { result ≡ header_size (map trace_size flow.now.traces ++ direct_sizes direct) }
    ensures small { result ≤ 809 }
{
    size_to(direct_end(traces_end(flow.traces()), direct))
}

/// The size of the Destination Options header.
pub(crate) fn target_size(edge: Option<u16>, limit: bool) -> usize
    ensures value { result ≡ header_size (limit_sizes limit ++ edge_sizes edge) }
    ensures small { result ≤ 43 }
{
    size_to(edge_end(limit_end(limit), edge))
}

/// The length of the outer packet around a packet of `inner` octets of a flow, with a direct export
/// option or without, and with an encapsulation limit or without: exactly that of what
/// [`crate::enclose`] gives.
pub fn outer_size(flow: &Flow, inner: usize, direct: bool, limit: bool) -> usize
    requires flow { IsFlow flow.now }
    requires short { inner ≤ 65575 }
    ensures value { result ≡ outer_size flow.now inner direct limit }
    ensures most { result ≤ inner + 892 }
{
    HEADER_OCTETS + hop_size(flow, direct) + target_size(flow.edge, limit) + inner
}
