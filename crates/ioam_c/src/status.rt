//! What the calls answer.
ghost use Rattle.std.specs.Prelude.{◌≡◌};
ghost use Rattle.ioam_c.specs.Status.{fault_status, filled_status};

use ioam_trace::{Filled, TraceFault};

/// What was asked for is there, or was done.
pub const OK: u32 = 0;

/// Nothing is left to give.
pub const END: u32 = 1;

/// The octets are empty, or don't begin with version 6.
pub const NOT_IPV6: u32 = 2;

/// The octets are fewer than an IPv6 header, or than it states.
pub const LENGTH: u32 = 3;

/// A header breaks the header chain.
pub const CHAIN: u32 = 4;

/// The octets are too few, or a trace's are not whole words.
pub const SHORT: u32 = 5;

/// RemainingLen exceeds the words after a trace's header.
pub const SPACE: u32 = 6;

/// NodeLen is not right for the trace type.
pub const NODE_LEN: u32 = 7;

/// The used words of a trace are not whole elements.
pub const ELEMENT: u32 = 8;

/// The octets are not one export record.
pub const RECORD: u32 = 9;

/// A number of a view exceeds its limit.
pub const VIEW: u32 = 10;

/// The element didn't fit, and Overflow is set now.
pub const OVERFLOWED: u32 = 11;

/// Overflow was set.
pub const ALREADY_OVER: u32 = 12;

/// The octets are no trace to which a node adds an element.
pub const UNSUITED: u32 = 13;

/// No node of which this is known may have made these octets of the others.
pub const ILLEGAL: u32 = 14;

// The status that names a trace's fault.
pub(crate) fn fault_status(fault: TraceFault) -> u32
    ensures { result ≡ fault_status fault }
{
    match fault {
        TraceFault::Short { .. } => SHORT,
        TraceFault::Space { .. } => SPACE,
        TraceFault::NodeLen { .. } => NODE_LEN,
        TraceFault::Element { .. } => ELEMENT,
    }
}

// The status that says what a node did to a trace.
pub(crate) fn filled_status(filled: Filled) -> u32
    ensures { result ≡ filled_status filled }
{
    match filled {
        Filled::Added { .. } => OK,
        Filled::Overflowed => OVERFLOWED,
        Filled::AlreadyOver => ALREADY_OVER,
        Filled::Unsuited => UNSUITED,
    }
}
