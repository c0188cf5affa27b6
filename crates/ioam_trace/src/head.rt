//! The header of a trace.
ghost use Rattle.std.specs.Prelude.{◌≡◌, ◌+◌, ◌*◌, ◌<◌};

use crate::lengths::{Lengths, has_overflow};
use ioam_base::buffer::Buffer;
use ioam_base::octets::u16_at;
use ioam_data::{Namespace, TraceType};

/// The octets of a header.
pub const HEAD_OCTETS: usize = 8;

/// The place of the IOAM-Trace-Type in a header.
pub const TRACE_TYPE: usize = 4;

// The places of the namespace and of the reserved octet.
const NAMESPACE: usize = 0;

const RESERVED: usize = 7;

/// The header of a trace (RFC 9197 section 4.4.1), eight octets.
#[derive(Clone, Copy, Debug, PartialEq, Eq)]
pub struct TraceHead {
    /// The namespace of the data.
    pub namespace: Namespace,
    /// The 4-octet words that a node adds, the snapshot not counted, 0 to 31.
    pub node_len: u8,
    /// The four flags, 0 to 15; of Overflow [`TraceHead::has_overflow`] tells.
    pub flags: u8,
    /// RemainingLen, the free words, 0 to 127.
    pub remaining: u8,
    /// The IOAM-Trace-Type.
    pub kind: TraceType,
    /// The reserved octet.
    pub reserved: u8,
    pub ghost node_len_below: { node_len < 32 },
    pub ghost flags_below: { flags < 16 },
    pub ghost remaining_below: { remaining < 128 },
}

impl TraceHead {
    ghost use Rattle.std.specs.Prelude.{◌≡◌, ℕ, ◌/◌, ◌≤◌, ◌↔◌, IsTrue, length};
    ghost use Rattle.ioam_trace.specs.Read.{IsHead};
    ghost use Rattle.ioam_trace.specs.Data.{head_octets};

    // The header that the octets begin with.
    pub(crate) fn read(octets: &[u8]) -> TraceHead
        requires { 8 ≤ length octets.now }
        ensures { IsHead octets.now result }
    {
        let lengths = Lengths::read(octets);
        TraceHead {
            namespace: Namespace(u16_at(octets, NAMESPACE)),
            node_len: lengths.node_len(),
            flags: lengths.flags(),
            remaining: lengths.remaining(),
            kind: TraceType::at(octets, TRACE_TYPE),
            reserved: octets[RESERVED],
        }
    }

    /// Whether a node found no room for its data and set Overflow.
    pub fn has_overflow(&self) -> bool
        ensures { IsTrue result ↔ (self.now.flags / 8 ≡ 1) }
    {
        has_overflow(self.flags)
    }

    // The eight octets of the header.
    pub(crate) fn in_octets(&self) -> Buffer
        ensures { result ≡ head_octets self.now }
    {
        let mut buffer = Buffer::new();
        buffer.two(self.namespace.0);
        buffer.two(Lengths::new(self.node_len, self.flags, self.remaining).0);
        buffer.four(last_word(self.kind, self.reserved));
        buffer
    }
}

// The IOAM-Trace-Type and the reserved octet as a word.
fn last_word(kind: TraceType, reserved: u8) -> u32
    ensures { result ≡ kind * 256 + reserved }
{
    kind.bits() * 256 + u32::from(reserved)
}
