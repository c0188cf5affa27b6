//! One streaming machine for all commands: it opens inputs and outputs in order, reads the inputs in pieces, hands these to
//! a [`Stage`], writes what the stage says, and answers how the run ended.
//!
//! [`run`] promises, whatever the stage, what was opened, read and kept (`Frame`), and what the outputs hold then (`Leaves`).
#![tactic(auto)]

mod conversion;
mod reading;
mod running;
mod stage;

pub use conversion::{Conversion, Converter, Tail, Took};
pub use reading::Stop;
pub use running::run;
pub use stage::{Stage, Step};
