//! Captures that are handed out in pieces and merged by time, whoever hands them out. What was taken is what the octets handed
//! out so far, and so the whole files, give.
#![tactic(auto)]

mod capture;
mod merge;

pub use capture::Capture;
pub use merge::Merge;
