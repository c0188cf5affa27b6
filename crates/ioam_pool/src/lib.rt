//! Chains of items over one array of cells, linked by index: each cell is on exactly one chain, or free.
#![tactic(auto)]

mod cells;
mod freeing;
mod growing;
mod guides;
mod item;
mod octets;
mod parts;
mod pool;
mod seating;
mod walking;

pub use item::Item;
pub use parts::Parts;
pub use pool::{Chain, Inserted, Pool};
pub use walking::Items;
