//! Any command over one capture.
//!
//! A record's way: `run_over_capture` looks at the names, `run_capture` gives the machine of `ioam_stream` a `Captured`
//! capture, which takes record by record, and the command's `Gather` adds what it says of each to the outputs.
#![tactic(auto)]

mod captured;
mod files;
mod frame;
mod gather;
mod over_capture;

pub use captured::MOST_PACKETS;
pub use files::CaptureFiles;
pub use frame::framed;
pub use gather::Gather;
pub use over_capture::{run_capture, run_over_capture};
