//! What a command answers: the answers of all commands, each with its exit status and its line.
#![tactic(auto)]

mod answer;
mod outcome;
mod words;

pub use answer::{line, status};
pub use outcome::{Outcome, answered, capture_outcome, names_outcome};
