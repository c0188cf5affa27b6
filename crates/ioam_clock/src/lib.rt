//! The clocks of a domain's nodes: the file of readings, the sample in force at a time, and the
//! timestamp formats.
#![tactic(auto)]

mod adding;
mod fault;
mod guess;
mod line;
mod numbers;
mod reading;
mod readings;
mod refused;
mod sample;
mod timestamp;
mod track;

pub use fault::{ReadWhy, ReadingsFault, ReadingsRefused};
pub use reading::{MOST_OCTETS, read_readings};
pub use readings::Readings;
pub use sample::Sample;
pub use timestamp::stamp;
