//! `part EXPORTS PART`, `merge ONE TWO PART` and `parts PART REPORT`: what a collector holds as a file, two of these
//! joined, and one printed.
#![tactic(auto)]

mod intakes;
mod joined;
mod kept;
mod merge;
mod names;
mod part;
mod parts;
mod records;
mod telling;
mod two;
mod unread;

pub use merge::run_merge;
pub use names::{MergeFiles, PartFiles, PartsFiles};
pub use part::run_part;
pub use parts::run_parts;
