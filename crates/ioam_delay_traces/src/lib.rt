//! The delays of the traces of packets, counted from their octets.
#![tactic(auto)]

mod packets;
mod sights;
mod totals;

pub use packets::count_packet;
pub use sights::read_sights;
pub use totals::{Fractions, Totals};
