//! The lines of a packet's IOAM options: each option on the chain, nested IPv6 headers included, with
//! its place and what its data says (RFC 9197, RFC 9326, RFC 9486).
#![tactic(auto)]

mod counting;
mod directs;
mod edges;
mod fields;
mod front;
mod line;
mod listing;
mod traces;

pub use counting::count_options;
pub use listing::{put_counted_options, put_options};
