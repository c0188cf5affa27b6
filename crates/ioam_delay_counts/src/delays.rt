//! Delays that are counted, if there are any.
ghost use Rattle.std.specs.Prelude.{◌≡◌, ◌<◌, ◌^◌, ◌++◌, [], List, ℤ, IfOk, OnOk, length, option_to_list};
ghost use Rattle.ioam_delay_counts.specs.Tallies.{CountsAll};

use ioam_base::memory::NoMemory;
use ioam_delays::Counter;
use std::alloc::Global;

/// Counts a first delay, if it is there.
pub(crate) fn first_delay(alloc: Global, delay: Option<i64>) -> Result<Option<Counter>, NoMemory>
    ensures { IfOk result (CountsAll (option_to_list delay)) }
{
    match delay {
        Some(delay) => Ok(Some(Counter::new(alloc, delay)?)),
        None => Ok(None),
    }
}

/// Counts another, if it is there.
pub(crate) fn put_some(
    alloc: Global,
    delay: Option<i64>,
    delays: &mut Option<Counter>,
) -> Result<(), NoMemory>
    ensures { OnOk result ((before : List ℤ) → length before < 2 ^ 48 → CountsAll before delays.old → CountsAll (before ++ option_to_list delay) delays.new) }
{
    let Some(delay) = delay else {
        return Ok(());
    };
    match delays {
        Some(counter) => counter.add(delay),
        None => *delays = Some(Counter::new(alloc, delay)?),
    }
    Ok(())
}
