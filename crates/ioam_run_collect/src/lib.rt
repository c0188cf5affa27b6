//! `collect EXPORTS REPORT`: export records regrouped by the packets that they tell of.
#![tactic(auto)]

mod collect;
mod groups;
mod names;

pub use collect::run_collect;
pub use names::CollectFiles;
