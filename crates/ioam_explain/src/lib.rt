//! Why a router may not have sent a packet on as another: the first rule of an ordered list that is broken
//! (RFC 8200, RFC 9197), at which octet, what is there and what the rule wants.
#![tactic(auto)]

mod common;
mod explain;
mod fields;
mod headers;
mod options;
mod reason;
mod rows;
mod trace;

pub use explain::why;
pub use reason::{Reason, Rule, Value};
