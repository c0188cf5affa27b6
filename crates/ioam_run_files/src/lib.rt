//! What a run over a domain is set by: its domain file, its readings, and the names of its files.
#![tactic(auto)]

mod answer;
mod names;
mod setting;

pub use answer::refused;
// What a refusal is answered as, and what of two names that are equal.
pub use ioam_run_answer::{Outcome, names_outcome};
pub use names::{file_names, input_names, input_ports, output_names};
pub use setting::{Refusal, Setting, read_domain_file, read_setting};
