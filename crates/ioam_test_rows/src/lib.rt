//! What tests share: octets by their hexadecimal digits, and words. It has no part in the program.
#![tactic(auto)]

pub mod digits;
