//! What a receiver notes of a number.
/// What a sequence number tells of those that were noted before it.
#[derive(Clone, Copy, Debug, PartialEq, Eq)]
pub enum Note {
    /// It is one above the greatest, or 0 where none was noted.
    Next,
    /// It is greater: so many numbers were passed over.
    Gap { missed: u64 },
    /// It is less than 64 below the greatest, and was noted before.
    Repeat,
    /// It is any other that is not above the greatest.
    Late,
}

/// What was noted in all. Counts stand still at the greatest u64.
#[derive(Clone, Copy, Debug, PartialEq, Eq)]
pub struct Tally {
    /// One above the greatest number, 0 where none was noted; None above the greatest u64.
    pub next: Option<u64>,
    /// How often numbers were passed over.
    pub gaps: u64,
    /// How many numbers were passed over in all, those that came late later on included.
    pub missed: u64,
    /// How many came late.
    pub late: u64,
    /// How many were repeats.
    pub repeats: u64,
}
