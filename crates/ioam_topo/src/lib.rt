//! A domain: its nodes, links, ports, routes, node data and flows, how it is put together, and the
//! look-ups in it.
#![tactic(auto)]

mod domain;
mod format;
mod forward;
mod ids;
mod index;
mod lookups;
mod lookups_data;
mod masks;
mod octets;
mod parts;
mod places;
mod prefix;
mod spaces;
mod traces;

pub use domain::{Domain, DomainParts};
pub use format::Format;
pub use ids::{FlowId, LinkId, NodeId, PortId, Way};
pub use masks::{masked, matches};
pub use octets::Octets;
pub use parts::{Flow, Link, Node, NodeData, Port, Route};
pub use prefix::Prefix;
pub use spaces::{MOST_SPACES, Spaces};
pub use traces::{FlowTrace, Traces};
