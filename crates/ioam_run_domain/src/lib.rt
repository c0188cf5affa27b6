//! The command `run`: a whole domain over the captures of its ports.
#![tactic(auto)]

mod domain_run;
mod names;

pub use domain_run::run_domain;
// What its caller hands it: whether workers may begin.
pub use ioam_run_traffic::{Gate, OpenGate};
pub use names::RunFiles;
