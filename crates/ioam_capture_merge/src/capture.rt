//! One of several captures that are merged by time.
use ioam_capture::Reader;

/// A capture that is handed out in pieces, and whether its end was found.
#[derive(Drop)]
pub struct Capture {
    /// What was handed out of it and not yet taken.
    pub reader: Reader,
    /// All of it was handed out.
    pub ended: bool,
}
