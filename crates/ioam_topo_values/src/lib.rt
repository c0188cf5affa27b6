//! The kinds of value that the tables of a TOML file hold, each with one definition of what it
//! reads as: whole numbers, names, file names, addresses, prefixes, trace types, lists of numbers
//! and hexadecimal digits.
#![tactic(auto)]

mod addresses;
mod entries;
mod finding;
mod numbers;
mod octets;
mod pairs;
mod prefixes;
mod refused;
mod spaces;
mod texts;
mod types;
mod why;

pub use addresses::address;
pub use entries::rows;
pub use finding::find;
pub use numbers::{maybe_number, number, number_or};
pub use octets::maybe_octets;
pub use pairs::{beside, has};
pub use prefixes::prefix;
pub use refused::Refused;
pub use spaces::namespaces;
pub use texts::{file_name, maybe_file_name, maybe_name, name, text_of};
pub use types::{maybe_direct_type, maybe_edge_type, maybe_trace_type};
pub use why::Why;
