//! The codecs for programs in other languages: calls over octets that the caller keeps, by the C calling convention.
//! They take no memory, keep no state and call nothing back. `include/ioam.h` has each call for C.
#![tactic(auto)]

pub mod direct;
pub mod edge;
pub mod element;
pub mod fill;
pub mod judge;
pub mod next;
pub mod packet;
pub mod part;
pub mod record;
pub mod status;
pub mod trace;
pub mod view;
