//! How the tables of a domain file are read: the words for its tables, keys and faults, the keys of
//! an entry, and the entries of a table in turn, each behind those before it.
#![tactic(auto)]

mod collecting;
mod fault;
mod keys;
mod names;
mod numbers;
mod words;

pub use collecting::{Collects, collect, read_entries};
pub use fault::{DomainFault, DomainRefused};
pub use ioam_topo_values::Why;
pub use keys::Spot;
pub use names::{known, known_name};
pub use numbers::{maybe_number8, maybe_number32, number16};
pub use words::{Field, Table};
