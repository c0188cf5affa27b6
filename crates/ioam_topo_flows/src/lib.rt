//! What a domain's nodes and flows record, in its file: the tables `data`, `flow` and `extra`.
#![tactic(auto)]

mod before;
mod data_table;
mod extra_table;
mod flow_parts;
mod flow_table;
mod reading;

pub use reading::{read_data, read_flows};
