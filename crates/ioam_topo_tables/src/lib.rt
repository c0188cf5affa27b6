//! The tables of which a domain is put together: its nodes, links, ports, routes, node data and flows,
//! with what no two of them may share.
#![tactic(auto)]

mod apart;
mod data_rows;
mod domain;
mod flows;
mod links;
mod names;
mod nodes;
mod ports;
mod routes;
mod telemetry;

pub use data_rows::{DataRows, MOST_DATA};
pub use domain::domain_of;
pub use flows::Flows;
pub use links::{Links, MOST_LINKS};
pub use names::Names;
pub use nodes::{MOST_NODES, Nodes};
pub use ports::{MOST_PORTS, Ports};
pub use routes::{MOST_ROUTES, Parts, Routes};
pub use telemetry::Telemetry;
