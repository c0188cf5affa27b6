//! Whether a packet shows IOAM data to those who receive it: on its own header chain, or in the packet that an
//! ICMPv6 error quotes (RFC 9486 section 4, RFC 4443 section 3).
#![tactic(auto)]

mod classify;
mod finding;
mod option;
mod spot;
mod walk;

pub use classify::find_leak;
pub use finding::{Finding, Hidden, Leak};
