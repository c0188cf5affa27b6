//! Inputs that are opened in order, and outputs that are written in pieces: opening many, gathering octets for each, and
//! writing what was gathered.
#![tactic(auto)]

mod flush;
mod names;
mod open;
mod open_in;
mod output;

pub use flush::{GATHER, finish, flush_full};
pub use names::first_repeat;
pub use open::open_outputs;
pub use open_in::open_inputs;
pub use output::Output;
