//! What is counted of the delays of traces: for each namespace, way, hop and node.
#![tactic(auto)]

mod course;
mod delays;
mod filled;
mod key;
mod keys;
mod passed;
mod seen;
mod sums;
mod table;
mod tally;

pub use course::{count_hops, count_nodes, put_way, whole_delay};
pub use filled::{Fill, Filled};
pub use key::Key;
pub use keys::{HopKey, NodeKey, SpaceKey, Step, WayKey};
pub use passed::Passed;
pub use seen::Seen;
pub use sums::{MOST_HOPS, MOST_WAYS, Sums};
pub use table::{Row, Table};
pub use tally::Tally;
