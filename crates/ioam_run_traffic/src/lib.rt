//! The traffic of a domain: the captures of its ports merged by time, the arrivals sent through the
//! domain batch by batch, and what becomes of them written.
#![tactic(auto)]

mod halt;
mod progress;
mod stage;
mod terms;
mod traffic;

pub use halt::Halt;
// What its caller hands it: whether workers may begin.
pub use ioam_run_arrivals::{Gate, OpenGate};
pub use traffic::run_traffic;
