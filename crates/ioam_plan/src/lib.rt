//! The journey of a packet through a domain, planned before the packet moves: which nodes it visits,
//! when, by which interfaces, where it leaves or is dropped, and what the entry node of a tunnel writes
//! of it.
#![tactic(auto)]

mod arrival;
mod arriving;
mod counters;
mod drawing;
mod itinerary;
mod laws;
mod planning;
mod stage;
mod stepping;

pub use arriving::{plan, plan_in};
pub use counters::Counters;
pub use itinerary::{End, Itinerary, Visit, Visits};
pub use laws::one_journey;
pub use stage::outward_of;
