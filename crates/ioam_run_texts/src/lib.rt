//! What becomes of each arrival of a domain, and what it tells every output of a run: the captures of
//! the ports and of the taps, the report, and the export records.
#![tactic(auto)]

mod crossing;
mod leaving;
mod reporting;
mod telling;

pub use telling::{put_heads, put_job};
