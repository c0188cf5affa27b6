//! The arrivals of a run: each is numbered and made into a job, jobs wait in a batch and are run by
//! workers, and what they leave is told every output of the run in the order of arrival.
#![tactic(auto)]

mod arriving;
mod forwarding;
mod skipping;
mod telling;

pub use arriving::Arrival;
pub use forwarding::Forwarding;
// What its caller hands it: whether workers may begin.
pub use ioam_batch::{Gate, OpenGate};
// What the outputs are told before the first arrival.
pub use ioam_run_texts::put_heads;
