//! Whether what another node made of a packet is what the standards allow (RFC 9197 section 4.4), where all that is
//! known of that node is its id, its namespaces and the interface by which the packet came.
#![tactic(auto)]

mod added;
mod data;
mod fit;
mod lawful;
mod left;
mod options;
mod parts;
mod sent;
mod sight;

pub use data::may_become;
pub use sent::legal;
pub use sight::Sight;
