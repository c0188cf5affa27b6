//! What is counted of the items of a key.
ghost use Rattle.std.specs.Prelude.{◌≡◌, ◌<◌, ◌^◌, ◌++◌, ◌∷◌, [], List, IfOk, OnOk, length};

use ioam_base::memory::NoMemory;
use std::alloc::Global;

/// What is counted of the items of a key.
pub trait Tally: Drop {
    /// What is counted one by one.
    type Item: Drop;

    // what it says of these items
    ghost counts: { List Self.Item → Self → Type 0 };

    /// Counts the first item.
    fn first(alloc: Global, item: Self::Item) -> Result<Self, NoMemory>
        ensures { IfOk result (λ tally. counts (item ∷ []) tally) };

    /// Counts another.
    fn add(&mut self, alloc: Global, item: Self::Item) -> Result<(), NoMemory>
        ensures { OnOk result ((items : List Self.Item) → length items < 2 ^ 48 → counts items self.old → counts (items ++ item ∷ []) self.new) };
}
