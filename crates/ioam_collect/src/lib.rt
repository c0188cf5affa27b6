//! Export records regrouped by the packets that they tell of.
#![tactic(auto)]

mod adding;
mod ahead;
mod collector;
mod grouping;
mod growing;
mod joining;
mod key;
mod key_map;
mod keying;
mod laws;
mod order;
mod ranking;
mod slots;
mod store;

pub use ahead::{SIDE_BY_SIDE, read_next_groups};
pub use collector::{Collector, MOST_HELD};
pub use grouping::{Group, Groups};
pub use growing::Added;
pub use joining::Joined;
pub use key::Key;
pub use laws::{
    any_tree_joins, groups_join, groups_tell_what_is_kept, joining_is_a_union, neighbours_tell,
    side_by_side,
};
pub use order::meet;
pub use ranking::Ranking;
