//! The outputs of a run over a domain, numbered once: each port's capture in file order, then the
//! tap's of each link that has one in file order, then the report, then the exports.
#![tactic(auto)]

mod outlets;
mod places;

pub use outlets::tapped_links;
pub use places::{place_of_exports, place_of_port, place_of_report, place_of_tap};
