//! The command `audit`: whether the packets of one capture can be those of another that a node sent on.
//!
//! A record's way: `run_audit` reads the domain and checks the names, `run_files` runs the machine over the captures and REPORT,
//! `Cursor` takes the records of a capture one by one, `Comparison` says what became of each packet of BEFORE by the next packet
//! of AFTER, `put_line` adds the line that says so, and `put_behind` the sums and the verdict.
#![tactic(auto)]

mod audit;
mod comparison;
mod counts;
mod cursor;
mod ending;
mod fate;
mod files;
mod held;
mod lines;
mod names;
mod seat;

pub use audit::run_audit;
pub use names::AuditFiles;
