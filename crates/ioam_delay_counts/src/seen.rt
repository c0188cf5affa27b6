//! What a node wrote.
ghost use Rattle.std.specs.Prelude.{◌≡◌};
ghost use Rattle.ioam_delay_counts.specs.Tallies.{is_bad, is_long, is_time, taken_of};

use crate::delays::{first_delay, put_some};
use crate::tally::Tally;
use ioam_base::memory::NoMemory;
use ioam_delays::{Counter, Sight, Stamp, Transit};
use std::alloc::Global;

/// How many elements a node wrote, how many of them say what, and the transit delays that they say.
#[derive(Drop)]
pub struct Seen {
    /// How many elements.
    pub count: u64,
    /// How many with a time stamp.
    pub stamped: u64,
    /// How many with one of another format.
    pub bad: u64,
    /// How many with a transit delay that doesn't fit.
    pub long: u64,
    /// The transit delays.
    pub delays: Option<Counter>,
}

// Whether a time stamp is a time.
fn is_time(stamp: Stamp) -> bool
    ensures { result ≡ is_time stamp }
{
    match stamp {
        Stamp::Second(_) | Stamp::Time(_) => true,
        Stamp::Absent | Stamp::Bad => false,
    }
}

// Whether it is of another format.
fn is_bad(stamp: Stamp) -> bool
    ensures { result ≡ is_bad stamp }
{
    match stamp {
        Stamp::Bad => true,
        Stamp::Absent | Stamp::Second(_) | Stamp::Time(_) => false,
    }
}

// Whether a transit delay doesn't fit.
fn is_long(transit: Transit) -> bool
    ensures { result ≡ is_long transit }
{
    match transit {
        Transit::Long => true,
        Transit::Absent | Transit::Takes(_) => false,
    }
}

// The transit delay, if it is known.
fn taken_of(transit: Transit) -> Option<i64>
    ensures { result ≡ taken_of transit }
{
    match transit {
        Transit::Takes(delay) => Some(i64::from(delay)),
        Transit::Absent | Transit::Long => None,
    }
}

impl Tally for Seen {
    ghost use Rattle.ioam_delay_counts.specs.Tallies.{CountsSeen};

    type Item = Sight;

    ghost counts = { CountsSeen };

    fn first(alloc: Global, item: Sight) -> Result<Seen, NoMemory> {
        Ok(Seen {
            count: 1,
            stamped: u64::from(is_time(item.stamp)),
            bad: u64::from(is_bad(item.stamp)),
            long: u64::from(is_long(item.transit)),
            delays: first_delay(alloc, taken_of(item.transit))?,
        })
    }

    fn add(&mut self, alloc: Global, item: Sight) -> Result<(), NoMemory> {
        put_some(alloc, taken_of(item.transit), &mut self.delays)?;
        self.count = self.count.saturating_add(1);
        self.stamped = self.stamped.saturating_add(u64::from(is_time(item.stamp)));
        self.bad = self.bad.saturating_add(u64::from(is_bad(item.stamp)));
        self.long = self.long.saturating_add(u64::from(is_long(item.transit)));
        Ok(())
    }
}
