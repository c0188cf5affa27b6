//! From whom to whom packets leak: how many from one address to another, and the lines that say so.
#![tactic(auto)]

mod address;
mod counts;
mod flow;
mod lines;
mod ranking;

pub use address::put_address;
pub use counts::Flows;
pub use flow::{Flow, leak_word};
pub use lines::put_flows;
