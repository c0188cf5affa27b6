//! How full traces are.
ghost use Rattle.std.specs.Prelude.{◌≡◌};

use crate::tally::Tally;
use ioam_base::memory::NoMemory;
use std::alloc::Global;

/// How full a trace is.
#[derive(Clone, Copy, Debug)]
pub struct Fill {
    /// A node found no room.
    pub overflow: bool,
    /// No node wrote.
    pub empty: bool,
}

/// How many traces there are, and how full.
#[derive(Clone, Copy, Debug, Drop)]
pub struct Filled {
    /// How many.
    pub count: u64,
    /// How many with Overflow.
    pub overflow: u64,
    /// How many without elements.
    pub empty: u64,
}

impl Tally for Filled {
    ghost use Rattle.ioam_delay_counts.specs.Tallies.{CountsFilled};

    type Item = Fill;

    ghost counts = { CountsFilled };

    fn first(_alloc: Global, item: Fill) -> Result<Filled, NoMemory> {
        Ok(Filled {
            count: 1,
            overflow: u64::from(item.overflow),
            empty: u64::from(item.empty),
        })
    }

    fn add(&mut self, _alloc: Global, item: Fill) -> Result<(), NoMemory> {
        self.count = self.count.saturating_add(1);
        self.overflow = self.overflow.saturating_add(u64::from(item.overflow));
        self.empty = self.empty.saturating_add(u64::from(item.empty));
        Ok(())
    }
}
