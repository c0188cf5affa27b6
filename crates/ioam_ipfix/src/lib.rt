//! Export records as IPFIX messages (RFC 7011): messages of sets, templates and data records, both
//! ways.
#![tactic(auto)]

mod data;
mod fault;
mod kind;
mod laws;
mod message;
mod place;
mod reader;
mod set;
mod template;
mod writer;

pub use data::{put_record, template_of};
pub use fault::IpfixFault;
pub use laws::{reads_one_way, runs_are_one, written_is_read};
pub use reader::{IpfixReader, IpfixShown, IpfixStep};
pub use writer::{put_message, put_templates};
