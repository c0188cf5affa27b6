//! IOAM edge-to-edge data (RFC 9197 section 4.6), and what a receiver tells of its sequence numbers.
#![tactic(auto)]

mod counts;
mod cursor;
mod edge;
mod note;
mod putting;
mod reading;
mod receiver;
mod window;

pub use edge::{Edge, EdgeFault};
pub use note::{Note, Tally};
pub use putting::put;
pub use reading::{asks, data_size, read};
pub use receiver::Receiver;
