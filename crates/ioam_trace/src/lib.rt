//! The data of IOAM trace options (RFC 9197 section 4.4): the header and the elements behind it.
#![tactic(auto)]

mod addition;
mod area;
mod beginning;
mod elements;
mod fault;
mod head;
mod incremental;
mod lengths;
mod survey;
mod trace;

pub use addition::{Filled, fill};
pub use beginning::put_trace;
pub use elements::Elements;
pub use fault::TraceFault;
pub use head::{HEAD_OCTETS, TRACE_TYPE, TraceHead};
pub use incremental::Incremental;
pub use lengths::Lengths;
pub use trace::Trace;
