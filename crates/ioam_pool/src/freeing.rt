//! The end of a chain that is emptied.
ghost use Rattle.std.specs.Prelude.{MatchOption, ◌≡◌, ◌^◌, ◌<◌, None, length};
ghost use Rattle.ioam_pool.specs.Cells.{Ends, EndsWith};

use crate::cells::Cell;

// The last cell of the chain that begins at `head`, and how many it has.
pub(crate) fn last_of(cells: &[Cell], head: Option<u32>) -> Option<(u32, u32)>
    requires ends { Ends cells.now head }
    requires few { length cells.now < 2 ^ 31 }
    ensures { MatchOption result (head ≡ None) (λ found. EndsWith cells.now head found.0 found.1) }
{
    let mut last = head?;
    let mut count = 1;
    'passing: while let Some(next) = cells[last as usize].next {
        last = next;
        count += 1;
    }
    Some((last, count))
}
