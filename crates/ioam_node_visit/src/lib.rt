//! What a node does to a packet that it visits, in place: it adds its data to the traces of the outer
//! Hop-by-Hop Options header (RFC 9197 section 4.4, RFC 9486 section 3), and exports what its direct
//! export options ask for (RFC 9326 section 3).
#![tactic(auto)]

mod answer;
mod counting;
mod data;
mod exits;
mod inside;
mod laws;
mod met;
mod note;
mod options;
mod room;
mod seeing;
mod visit;
mod visits;

pub use answer::Leave;
pub use counting::option_count;
pub use exits::leave;
pub use inside::carried;
pub use laws::one_visit;
pub use note::{NodeNote, What};
pub use room::NodeRoom;
pub use visits::{begin, exit, transit};
