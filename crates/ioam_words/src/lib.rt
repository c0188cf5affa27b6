//! The words of a command line: the command that they ask for, and the forms that there are.
#![tactic(auto)]

mod command;
mod format;
mod usage;

pub use command::{Command, parse};
pub use format::format_word;
pub use usage::say_usage;
