//! The lines of export records that were regrouped. Words are separated by one space, and every line
//! ends with a line feed.
#![tactic(auto)]

mod ahead;
mod groups;
mod items;

pub use groups::{put_groups, put_lines};
