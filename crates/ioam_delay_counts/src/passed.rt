//! How many passed, and their delays.
ghost use Rattle.std.specs.Prelude.{◌≡◌};

use crate::delays::{first_delay, put_some};
use crate::tally::Tally;
use ioam_base::memory::NoMemory;
use ioam_delays::Counter;
use std::alloc::Global;

/// How many passed, and the delays of those for which there is one.
#[derive(Drop)]
pub struct Passed {
    /// How many.
    pub count: u64,
    /// Their delays.
    pub delays: Option<Counter>,
}

impl Tally for Passed {
    ghost use Rattle.ioam_delay_counts.specs.Tallies.{CountsPassed};

    type Item = Option<i64>;

    ghost counts = { CountsPassed };

    fn first(alloc: Global, item: Option<i64>) -> Result<Passed, NoMemory> {
        Ok(Passed {
            count: 1,
            delays: first_delay(alloc, item)?,
        })
    }

    fn add(&mut self, alloc: Global, item: Option<i64>) -> Result<(), NoMemory> {
        put_some(alloc, item, &mut self.delays)?;
        self.count = self.count.saturating_add(1);
        Ok(())
    }
}
