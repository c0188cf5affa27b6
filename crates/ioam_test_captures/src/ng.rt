//! Captures in the form pcapng (`ioam_ng`): what is written, octet by octet, and what a reader shows
//! in any pieces.
pub(crate) mod faults;
mod written;
