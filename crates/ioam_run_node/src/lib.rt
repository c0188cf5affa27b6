//! The command `node`: one node of a domain over the packets of a capture.
//!
//! A record's way: `Post` judges what becomes of it and visits a packet that goes on, `Passing` adds what
//! it says of it to each output, and `run_node` reads the files that say which node it is.
#![tactic(auto)]

mod judging;
mod names;
mod node_run;
mod notes;
mod passing;
mod post;
mod sending;

pub use names::NodeFiles;
pub use node_run::run_node;
pub use notes::put_notes;
