//! What becomes of a frame that arrives.
use crate::reason::Reason;
use ioam_topo::FlowId;

/// What becomes of a frame that arrives: its packet, enclosed or as it is, or why it is dropped.
#[derive(Clone, Copy, Debug, PartialEq, Eq)]
pub enum Admit<'a> {
    /// The packet is to be enclosed in a flow. `limit` is the Tunnel Encapsulation Limit that
    /// stands in it (RFC 2473 section 4.1.1).
    Enclose {
        flow: FlowId,
        packet: &'a [u8],
        limit: Option<u8>,
    },
    /// The packet is sent on as it is.
    Plain {
        packet: &'a [u8],
    },
    /// The packet is dropped.
    Drop(Reason),
}
