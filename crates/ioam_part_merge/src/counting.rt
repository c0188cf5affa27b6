//! How many records two parts hold together.
ghost use Rattle.std.specs.Prelude.{◌≡◌, ◌<◌, ◌≤◌, List, MatchOption, length};
ghost use Rattle.ioam_collect.specs.Entry.{Entry};
ghost use Rattle.ioam_collect.specs.declared.key.Key.{Key};
ghost use Rattle.ioam_part_merge.specs.Walk.{Comes};

use crate::walk::Walk;
use ioam_collect::MOST_HELD;

/// How many records come of a walk. None where they are more than a part may have.
pub fn count_both(walk: &mut Walk<'_>) -> Option<u32>
    ensures { (ps : List (Key × Entry)) → Comes walk.old ps → MatchOption result (1048576 < length ps) (λ count. (count ≡ length ps) × (count ≤ 1048576)) }
{
    let mut count: u32 = 0;
    'records: loop {
        match walk.next() {
            None => return Some(count),
            Some(_) => {
                if count >= MOST_HELD {
                    return None;
                }
                count += 1;
            }
        }
    }
}
