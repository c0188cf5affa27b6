//! Which record comes next of two parts.
ghost use Rattle.std.specs.Prelude.{◌≡◌, None, Some};
ghost use Rattle.ioam_part_merge.specs.Walk.{turn_by, turn_of};

use crate::side::Side;
use ioam_collect::meet;
use ioam_dex::RecordRef;
use std::cmp::Ordering;

/// What is done with the records that are next.
#[derive(Clone, Copy, PartialEq, Eq)]
pub(crate) enum Turn {
    /// There are none.
    Done,
    /// That of the first is taken.
    First,
    /// That of the second is taken.
    Second,
    /// They are equal, and one is taken.
    Both,
    /// That of the first is the version 1 record of that of the second, and is left out.
    WithoutFirst,
    /// That of the second is the version 1 record of that of the first, and is left out.
    WithoutSecond,
}

// The turn by where two records stand to each other, and which of them tell a visit.
fn turn_by(order: Ordering, first: bool, second: bool) -> Turn
    ensures { result ≡ turn_by order first second }
{
    match order {
        Ordering::Less => Turn::First,
        Ordering::Greater => Turn::Second,
        Ordering::Equal => {
            if first == second {
                return Turn::Both;
            }
            if second {
                Turn::WithoutFirst
            } else {
                Turn::WithoutSecond
            }
        }
    }
}

// The turn of a record and a side.
fn turn_beside(one: &RecordRef<'_>, second: &Side<'_>) -> Turn
    ensures { result ≡ turn_of (Some one.now) second.now.next }
{
    match second.next {
        None => Turn::First,
        Some(other) => turn_by(meet(one, &other), one.has_visit(), other.has_visit()),
    }
}

// The turn of a side where the other has ended.
fn turn_alone(second: &Side<'_>) -> Turn
    ensures { result ≡ turn_of None second.now.next }
{
    match second.next {
        None => Turn::Done,
        Some(_) => Turn::Second,
    }
}

/// The turn of two sides.
pub(crate) fn next_turn(first: &Side<'_>, second: &Side<'_>) -> Turn
    ensures { result ≡ turn_of first.now.next second.now.next }
{
    match first.next {
        None => turn_alone(second),
        Some(one) => turn_beside(&one, second),
    }
}
