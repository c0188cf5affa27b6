//! `delays FORMAT IN REPORT`: where the packets of a capture lose time, by the traces that they carry.
#![tactic(auto)]

mod format;
mod gathering;
mod run;

pub use run::run_delays;
