//! What became of a packet of BEFORE.

use ioam_node::Reason;

/// What became of a packet of BEFORE.
#[derive(Clone, Copy)]
pub(crate) enum Fate {
    /// It can be the packet of AFTER with this number, from 1.
    Sent(u32),
    /// The next packet of AFTER can't be this one.
    Gone,
    /// Why it isn't looked at.
    Skipped(Reason),
}
