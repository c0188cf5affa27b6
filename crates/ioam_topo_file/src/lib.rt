//! The domain file: nodes, links, ports, routes, node data and flows with their traces in TOML, read
//! with each fault at its place.
#![tactic(auto)]

mod reading;
mod top;

pub use ioam_topo_entries::{DomainFault, DomainRefused, Field, Table, Why};
pub use reading::{MOST_OCTETS, long_file, read_domain};
