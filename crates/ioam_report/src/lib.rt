//! The texts of reports over a domain: what became of each arrival, and the sums of a run. Words are
//! separated by one space, and every line ends with a line feed.
#![tactic(auto)]

mod arrivals;
mod filled;
mod flows;
mod reasons;
mod sums;
mod totals;

pub use arrivals::put_arrival;
pub use flows::{FlowSum, FlowSums};
pub use reasons::reason_text;
pub use sums::{NodeSum, NodeSums, Sums};
pub use totals::put_sums;
