//! Cells more for the free list.
ghost use Rattle.std.specs.Prelude.{◌≡◌, ◌+◌, ◌*◌, ◌^◌, ◌<◌, ◌≤◌, ◌∷◌, ◌++◌, [], None, is_ok, if◌then◌else◌, vec_len, vec_capacity};
ghost use Rattle.ioam_pool.specs.Kept.{Grows};

use crate::cells::Cell;
use crate::item::Item;
use ioam_base::memory::NoMemory;

// Adds so many cells, each to the front of the free list. Returns what that begins with then.
pub(crate) fn add_cells(cells: &mut Vec<Cell>, free: Option<u32>, more: u32) -> Option<u32>
    requires room { vec_len cells.old + more ≤ vec_capacity cells.old }
    requires few { vec_len cells.old + more < 2 ^ 31 }
    ensures grows { Grows cells.old.items free cells.new.items result }
    ensures len { vec_len cells.new ≡ vec_len cells.old + more }
    ensures room { vec_capacity cells.new ≡ vec_capacity cells.old }
{
    let free_from = cells.len() as u32;
    let mut first = free;
    'adding: for added in 0..more {
        let at = free_from + added;
        cells.push_reserved(Cell {
            item: Item::blank(),
            next: first,
        });
        first = Some(at);
    }
    first
}

// Adds the head of an empty chain. Where there is no room for it there is then for as many more, for four at least.
pub(crate) fn add_head(heads: &mut Vec<Option<u32>>) -> Result<(), NoMemory>
    requires { vec_capacity heads.old ≤ 2 * vec_len heads.old + 4 }
    ensures items { heads.new.items ≡ (if is_ok result then heads.old.items ++ None ∷ [] else heads.old.items) }
    ensures room { vec_capacity heads.new ≤ 2 * vec_len heads.new + 4 }
{
    if heads.len() >= heads.capacity() {
        heads.try_reserve_exact(heads.len().max(4))?;
    }
    heads.push_reserved(None);
    Ok(())
}
