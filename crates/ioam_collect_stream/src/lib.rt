//! Export records that are read in pieces and regrouped, as what the machine converts.
#![tactic(auto)]

mod ahead;
mod regrouping;
mod report;
mod step;

pub use regrouping::{Cause, Regrouping, answer};
pub use report::Report;
pub use step::Limit;
