//! Captures of either form, classic or pcapng, read in any pieces, and the order in which the records
//! of several captures are taken.
#![tactic(auto)]

mod blocks;
mod classic;
mod form;
mod reader;
mod turns;

pub use reader::{Reader, Step};
pub use turns::{Due, Turn, next_turn};
