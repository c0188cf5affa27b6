//! What the options of an outer packet hold (RFC 9486 section 3).
ghost use Rattle.std.specs.Prelude.{◌≡◌, ◌^◌, ◌<◌, ◌≤◌};
ghost use Rattle.ioam_data.specs.Written.{seconds_of, fraction_of};
ghost use Rattle.ioam_tunnel.specs.Enclosed.{direct_of, edge_of, if_asked};

use crate::numbers::Numbers;
use ioam_data::{Namespace, TraceType};
use ioam_dex::Direct;
use ioam_dex::extension::{FLOW_ID, SEQUENCE_NUMBER};
use ioam_edge::{Edge, asks};
use ioam_topo::Flow;

/// The direct export data of a packet with this sequence number.
pub(crate) fn direct_of(flow: &Flow, kind: TraceType, seq: u32) -> Direct
    ensures { result ≡ direct_of flow.now kind seq }
{
    Direct {
        namespace: flow.namespace,
        flags: 0,
        ext: FLOW_ID + SEQUENCE_NUMBER,
        kind,
        flow: flow.flow_id,
        seq: Some(seq),
    }
}

// A number of 64 bits where a type asks for it.
fn long_if(kind: u16, bit: u8, number: u64) -> Option<u64>
    requires { bit ≤ 15 }
    ensures { result ≡ if_asked kind bit number }
{
    if asks(kind, bit) { Some(number) } else { None }
}

// A number of 32 bits, likewise.
fn short_if(kind: u16, bit: u8, number: u32) -> Option<u32>
    requires { bit ≤ 15 }
    ensures { result ≡ if_asked kind bit number }
{
    if asks(kind, bit) { Some(number) } else { None }
}

// The seconds and the fraction of a stamp, all ones without one.
fn stamp_of(numbers: &Numbers) -> (u32, u32)
    ensures { result ≡ (seconds_of numbers.now.stamp, fraction_of numbers.now.stamp) }
{
    match numbers.stamp {
        Some((seconds, fraction)) => (seconds, fraction),
        None => (u32::MAX, u32::MAX),
    }
}

/// The edge-to-edge data of a type.
pub(crate) fn edge_of(namespace: Namespace, kind: u16, numbers: &Numbers) -> Edge
    requires { numbers.now.number < 2 ^ 32 }
    ensures { result ≡ edge_of namespace kind numbers.now }
{
    let (seconds, fraction) = stamp_of(numbers);
    Edge {
        namespace,
        kind,
        seq64: long_if(kind, 0, numbers.number),
        seq32: short_if(kind, 1, numbers.number as u32),
        seconds: short_if(kind, 2, seconds),
        fraction: short_if(kind, 3, fraction),
    }
}
