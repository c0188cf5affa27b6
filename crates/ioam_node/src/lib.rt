//! What a node of a domain does with a packet: whether it takes in what arrives at a port, and where
//! it sends a packet, or the first reason why it drops it.
#![tactic(auto)]

mod admission;
mod answer;
mod choosing;
mod place;
mod reason;

pub use admission::{admit, admit_in_layer};
pub use answer::Admit;
pub use choosing::{begin, exit, transit};
pub use place::Place;
pub use reason::{Reason, packet_or_reason};
