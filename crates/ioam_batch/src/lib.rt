//! Jobs, each all visits of one packet, in batches that workers run.
#![tactic(auto)]

mod batch;
mod crossings;
mod gate;
mod job;
mod making;
mod places;
mod plainly;
mod running;
mod taps;
mod tunnel;
mod workers;

pub use batch::Batch;
pub use gate::{Gate, OpenGate};
pub use job::Job;
pub use running::run_job;
pub use workers::run_batch;
