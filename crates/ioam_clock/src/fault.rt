//! What is wrong in a file of readings.

/// What is wrong in a file of readings.
#[derive(Clone, Copy, Debug, PartialEq, Eq)]
pub enum ReadWhy {
    /// The file has more than 64 MiB.
    Long,
    /// A line isn't six words with one space between each two.
    Words,
    /// The first word names no node of the domain.
    Node,
    /// A number isn't of its form, or out of its range.
    Number,
    /// The time isn't after the time of the node's line before.
    Order,
}

/// Why a file of readings is refused, with the place.
#[derive(Clone, Copy, Debug, PartialEq, Eq)]
pub struct ReadingsFault {
    /// The line, counted from 1; 0 for the file as a whole.
    pub line: u32,
    /// What is wrong there.
    pub why: ReadWhy,
}

/// Why no readings were read.
#[derive(Clone, Copy, Debug, PartialEq, Eq)]
pub enum ReadingsRefused {
    /// The file has faults, and this is the first.
    Fault(ReadingsFault),
    /// No memory could be had.
    NoMemory,
}
