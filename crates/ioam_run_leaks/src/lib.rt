//! `leaks IN OUT REPORT`: which packets of a capture show IOAM data outside a domain, and who sends them to whom.
#![tactic(auto)]

mod counts;
mod gathering;
mod lines;
mod observe;
mod run;

pub use run::run_leaks;
