//! Whether a node may add an element to the octets of a trace (RFC 9197 section 4.4.1).
ghost use Rattle.std.specs.Prelude.{◌≡◌, ◌<◌, ◌≤◌, ◌↔◌, IsTrue, length};
ghost use Rattle.ioam_trace.specs.Filling.{IsOpen, IsSuitedBy};
ghost use Rattle.ioam_trace.specs.Head.{overflow_of};
ghost use Rattle.ioam_audit.specs.Becomes.{may_add};

use ioam_data::TraceType;
use ioam_trace::{HEAD_OCTETS, Lengths, TRACE_TYPE};

// Whether Overflow is clear.
fn is_clear(octets: &[u8]) -> bool
    requires { 8 ≤ length octets.now }
    ensures { IsTrue result ↔ (overflow_of octets.now ≡ 0) }
{
    !Lengths::read(octets).is_over()
}

// Whether a node may add an element under a type and NodeLen.
fn may_add(kind: TraceType, node_len: u8) -> bool
    ensures { result ≡ may_add kind node_len }
{
    let fits = if kind.undefined() == 0 {
        node_len == kind.words()
    } else {
        kind.words() <= node_len
    };
    fits && kind.bits() / 2 > 0
}

// Whether the octets are fit for an element.
fn is_fit(octets: &[u8]) -> bool
    requires { 8 ≤ length octets.now }
    ensures { IsTrue result ↔ IsSuitedBy may_add octets.now }
{
    let lengths = Lengths::read(octets);
    octets.len() % 4 == 0
        && lengths.used() <= octets.len()
        && may_add(TraceType::at(octets, TRACE_TYPE), lengths.node_len())
}

/// Whether a node may add an element to the octets: Overflow is clear, and they are fit.
pub(crate) fn is_open(octets: &[u8]) -> bool
    ensures { IsTrue result ↔ (IsOpen octets.now × IsSuitedBy may_add octets.now) }
{
    octets.len() >= HEAD_OCTETS && is_clear(octets) && is_fit(octets)
}
