//! Two parts joined: a walk of both side by side, which holds of each its octets alone.
#![tactic(auto)]

mod counting;
mod keeper;
mod side;
mod step;
mod turn;
mod walk;

pub use counting::count_both;
pub use keeper::{PartKeeper, PartOctets};
pub use walk::Walk;
// The most octets of a record that comes of a walk.
pub use ioam_dex::MOST_RECORD;
// The head of the part that a walk's records make.
pub use ioam_part::head_of;
