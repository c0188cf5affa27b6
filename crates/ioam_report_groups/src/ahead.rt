//! Groups that come next: room is made for their lines, and their items are read ahead.
ghost use Rattle.std.specs.Prelude.{◌≡◌};

use ioam_collect::{Groups, read_next_groups};

// Of one group at most so many items are read ahead.
const MOST_AHEAD: u32 = 32;

// Room for the line of an item, where it has few fields.
const LINE_ROOM: usize = 64;

/// Makes room for the lines of the next groups, where there is memory for it. Their cells, which lie anywhere, are read
/// side by side here, and not one after the other as the lines are put together: then they are at hand.
pub(crate) fn make_room(groups: &mut Groups<'_>, out: &mut Vec<u8>)
    ensures { out.new.items ≡ out.old.items }
{
    let octets = read_next_groups(groups, MOST_AHEAD).saturating_mul(LINE_ROOM);
    let Ok(()) = out.try_reserve(octets) else {
        return;
    };
}
