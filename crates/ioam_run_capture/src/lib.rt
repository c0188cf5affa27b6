//! The commands over one capture, `filter`, `paths`, `show` and `save`: what each says of a record, for
//! `ioam_run_stream` to gather.
#![tactic(auto)]

mod filter;
mod filtering;
mod judge;
mod listing;
mod packet_text;
mod paths;
mod save;
mod saving;
mod show;

pub use filter::run_filter;
pub use ioam_run_stream::CaptureFiles;
pub use paths::run_paths;
pub use save::run_save;
pub use show::run_show;
