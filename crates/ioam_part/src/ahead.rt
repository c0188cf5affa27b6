//! Groups that come next, of which the items are read ahead.
use ioam_collect::{Groups, SIDE_BY_SIDE, read_next_groups};

// Of one group at most so many items are read ahead.
const MOST_AHEAD: u32 = 32;

/// To be called before each group, with what the last call said: of how many groups that come next the items are at hand. Where
/// there are none, the next ones are read ahead.
pub(crate) fn go_ahead(groups: &mut Groups<'_>, due: usize) -> usize {
    if due > 0 {
        return due - 1;
    }
    // No group is empty, so no more groups than items were read.
    let read = read_next_groups(groups, MOST_AHEAD);
    read.min(SIDE_BY_SIDE).saturating_sub(1)
}
