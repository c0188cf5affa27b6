//! The lines of reports, and what traces hold, as text. Words are separated by one space, and every line
//! ends with a line feed.
#![tactic(auto)]

mod early;
mod elements;
mod hop_traces;
mod lines;
mod listed;
mod room;
mod traces;
mod values;

pub use elements::{put_element, put_element_line, put_fields};
pub use hop_traces::put_hop_traces;
pub use lines::{put_element_lines, put_trace_lines, put_trace_type};
pub use room::ReportLine;
pub use traces::put_traces;
