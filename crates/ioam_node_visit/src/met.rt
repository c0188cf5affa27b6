//! What an option is to a node that visits the packet.
ghost use Rattle.std.specs.Prelude.{◌≡◌, ◌≤◌, length};
ghost use Rattle.ioam_node_visit.specs.Met.{met_by, met_of};
ghost use Rattle.ioam_node_visit.specs.declared.met.Met.TheVariants as met;

use ioam_data::option_type::{DIRECT_EXPORT, IN_FRONT, PREALLOCATED_TRACE};
use ioam_ip::option_type::{IOAM_CHANGING, is_ioam_type};

/// What an option is to a node that visits the packet.
#[derive(Clone, Copy)]
pub(crate) enum Met {
    /// An IOAM option that is too short to name its IOAM-Option-Type.
    Cut,
    /// A pre-allocated trace that may change on the way.
    Trace,
    /// Direct export.
    Direct,
    /// Any other option.
    Other,
}

// What an IOAM option is, by its type and its IOAM-Option-Type.
fn met_by(kind: u8, option_type: u8) -> Met
    ensures { result ≡ met_by kind option_type }
{
    match option_type {
        PREALLOCATED_TRACE if kind == IOAM_CHANGING => Met::Trace,
        DIRECT_EXPORT => Met::Direct,
        _ => Met::Other,
    }
}

/// What an option is, by its type and its data.
#[tactic(auto, unfolding(crate::specs::Met::met_of))]
pub(crate) fn meet(kind: u8, body: &[u8]) -> Met
    ensures value { result ≡ met_of kind body.now }
    ensures long { result ≡ met.Direct → 2 ≤ length body.now }
{
    if !is_ioam_type(kind) {
        return Met::Other;
    }
    if body.len() < IN_FRONT {
        return Met::Cut;
    }
    met_by(kind, body[1])
}
