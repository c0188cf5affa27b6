//! The places of a domain in its file: the tables `node`, `link`, `port` and `route`.
#![tactic(auto)]

mod before;
mod link_table;
mod node_table;
mod port_table;
mod reading;
mod route_table;

pub use reading::{read_parts, read_routes};
