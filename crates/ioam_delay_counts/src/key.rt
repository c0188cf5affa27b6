//! What the rows of a table are ordered by.
ghost use Rattle.std.specs.Prelude.{◌≡◌, Bool, true};

use std::alloc::Global;

/// What the rows of a table are ordered by. Two keys of which neither comes before the other share a row.
pub trait Key: Drop {
    // whether a key comes before another
    ghost before: { Self → Self → Bool };

    // a key comes before all that those after it come before
    ghost onward: { (one other third : Self) → before one other ≡ true → before other third ≡ true → before one third ≡ true };

    /// Whether it comes before another.
    fn precedes(&self, other: &Self) -> bool
        ensures { result ≡ before self.now other.now };

    /// Moves it out for a row, where its memory is needed no longer.
    fn take(&mut self, alloc: Global) -> Self
        ensures { result ≡ self.old };
}
