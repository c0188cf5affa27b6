//! The domain of a generated run: five nodes in a row, and one flow from the first to the last.
#![tactic(auto)]

mod domain;
mod flow;
mod places;
mod routing;

pub use domain::bulk_domain;
