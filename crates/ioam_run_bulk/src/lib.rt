//! The command `bulk`: a generated load through a domain of its own, of which the sums are reported.
#![tactic(auto)]

mod bulk;
mod generator;
mod load;
mod stage;
mod terms;

pub use bulk::run_bulk;
