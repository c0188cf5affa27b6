//! `ipfix EXPORTS OUT` and `records IN OUT`: export records as IPFIX messages (RFC 7011), and back.
#![tactic(auto)]

mod ipfix;
mod laws;
mod names;
mod packer;
mod packing;
mod records;
mod taker;

pub use ipfix::run_ipfix;
pub use laws::messages_bring_back;
pub use names::{IpfixFiles, RecordsFiles};
pub use records::run_records;
