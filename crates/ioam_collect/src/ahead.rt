//! Items that are read before they are needed, those of several chains side by side.
ghost use Rattle.std.specs.Prelude.{◌≤◌, ◌*◌, length};

use crate::grouping::Groups;
use ioam_pool::Items;

/// Of so many groups the items are read side by side.
pub const SIDE_BY_SIDE: usize = 16;

// Reads one item of each group that has one left, and says how many these are.
fn read_one_of_each(groups: &mut [Option<Items<'_>>]) -> usize
    ensures { result ≤ length groups.old }
{
    let mut found: usize = 0;
    'groups: for items in groups.iter_mut() {
        if let Some(items) = items {
            if items.next().is_some() {
                found = found.saturating_add(1);
            }
        }
    }
    found
}

/// Reads at most `most` items of each of these groups, and says how many it read. The cells of one chain, which lie anywhere
/// in memory, are found one behind the other, but those of several chains at the same time: so items that were read here
/// are at hand when they are wanted.
pub(crate) fn read_ahead(groups: &mut [Option<Items<'_>>], most: u32) -> usize
    ensures { result ≤ most * length groups.old }
{
    let mut count: usize = 0;
    'steps: for _ in 0..most {
        let found = read_one_of_each(groups);
        if found == 0 {
            break;
        }
        count = count.saturating_add(found);
    }
    count
}

// The items of each of the next groups.
fn next_items<'a>(groups: &mut Groups<'a>) -> [Option<Items<'a>>; SIDE_BY_SIDE] {
    [(); SIDE_BY_SIDE].map(|()| groups.next().map(|group| group.items))
}

/// Goes along the next groups, of which it reads at most `most` items each, and says how many it read. So groups that are lent
/// twice are at hand in the one loan when the other has gone ahead.
pub fn read_next_groups(groups: &mut Groups<'_>, most: u32) -> usize
    ensures { result ≤ most * 16 }
{
    let mut items = next_items(groups);
    read_ahead(&mut items, most)
}
