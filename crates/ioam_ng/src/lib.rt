//! Captures in the form pcapng: their blocks, read in any pieces, and written. Commands read them by
//! `ioam_capture`.
#![tactic(auto)]

mod block;
mod codes;
mod face;
mod front;
mod numbers;
mod option;
mod put;
mod reader;

pub use block::face_at;
pub use codes::SECTION;
pub use face::Face;
pub use put::{put_ng_head, put_ng_packet};
pub use reader::{NgLook, NgReader, NgStep};
