//! The tunnel of a flow: a packet is put into an outer packet with IOAM options, and found in it
//! again (RFC 2473 section 3, RFC 9486 section 3).
#![tactic(auto)]

mod bodies;
mod enclosing;
mod inside;
mod laying;
mod limit;
mod numbers;
mod outer;
mod sizes;

pub use enclosing::{enclose, enclose_in};
pub use inside::inner;
pub use limit::{Limit, limit_of};
pub use numbers::Numbers;
pub use sizes::outer_size;
