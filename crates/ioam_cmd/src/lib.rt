//! The commands as one: words of a command line, run over a desk.
//!
//! `ioam` runs the command that words ask for; all that the program does but to take the words, to print the
//! answer and to end stands behind its contract.
#![tactic(auto)]

mod program;

// What the program hands it, and what it does with the answer: its line and its status.
pub use ioam_run_answer::{Outcome, line, status};
pub use ioam_run_domain::{Gate, OpenGate};
pub use program::{ioam, ioam_surely};
