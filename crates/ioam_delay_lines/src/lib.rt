//! The lines of namespaces, ways, hops and nodes.
#![tactic(auto)]

mod closing;
mod delays;
mod hops;
mod picture;
mod rows;
mod share;
mod spaces;
mod units;
mod words;

pub use closing::{put_beyond_row, put_format_row, put_packets_row, put_traces_row};
pub use delays::{put_delays, put_ends};
pub use hops::{put_drawing, put_hop_row, whole_of};
pub use picture::put_picture;
pub use rows::{put_node_row, put_space_row, put_way_row};
pub use share::put_share;
pub use spaces::put_spaces;
pub use units::put_time;
pub use words::{put_gap, put_node, put_way};
