//! What every other crate stands on: the one refusal for want of memory, numbers in octets,
//! numbers in decimal digits, room for the octets of one value, octets that are fed in pieces, vectors
//! in memory that is there already, names, and texts that are appended whole or not at all.
#![tactic(auto)]

pub mod buffer;
pub mod digits;
pub mod fed;
pub mod memory;
pub mod name;
pub mod octets;
pub mod spare;
pub mod text;
