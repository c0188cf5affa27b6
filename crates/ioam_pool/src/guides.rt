//! Cells at which searches of long chains begin.
ghost use Rattle.std.specs.Prelude.{◌≡◌, ◌+◌, ◌/◌, ◌≤◌, ◌==◌, not, filter, length, vec_capacity};
ghost use Rattle.ioam_pool.specs.Cells.{Ends, entries_from};
ghost use Rattle.ioam_pool.specs.Guides.{GuidesOn, IsStart, IsOn, KeepsGuides, StaysGuided};
ghost use Rattle.ioam_pool.specs.Order.{IsChain};
ghost use Rattle.ioam_pool.specs.Seats.{Seated};

use crate::cells::Cell;
use crate::item::Item;
use crate::parts::Parts;
use crate::seating::{Search, Seat, find_seat};
use std::cmp::Ordering;

// A cell of a chain at which a search may begin. Guides stand in the order of their chains and items.
#[derive(Clone, Copy)]
pub(crate) struct Guide {
    chain: u32,
    cell: u32,
}

// Whether a guide stands in front of an item of a chain.
fn is_in_front(guide: Guide, cells: &[Cell], chain: u32, item: &Parts<'_>) -> bool {
    match guide.chain.cmp(&chain) {
        Ordering::Less => true,
        Ordering::Equal => match cells.get(guide.cell as usize) {
            Some(cell) => matches!(cell.item.meet(item), Ordering::Less),
            None => false,
        },
        Ordering::Greater => false,
    }
}

// How many guides stand in front of an item of a chain, found by halves.
fn count_in_front(guides: &[Guide], cells: &[Cell], chain: u32, item: &Parts<'_>) -> usize
    ensures { result ≤ length guides.now }
{
    let mut low = 0;
    let mut high = guides.len();
    'halving: while low < high {
        let middle = low + (high - low) / 2;
        if is_in_front(guides[middle], cells, chain, item) {
            low = middle + 1;
        } else {
            high = middle;
        }
    }
    low
}

// The cell of the last of the first so many guides, where it stands on this chain in front of the item.
fn start_from(
    guides: &[Guide],
    count: usize,
    cells: &[Cell],
    head: Option<u32>,
    chain: u32,
    item: &Parts<'_>,
) -> Option<u32>
    requires count { count ≤ length guides.now }
    requires guided { GuidesOn cells.now head chain guides.now }
    ensures { IsStart cells.now head item.now result }
{
    if count == 0 {
        return None;
    }
    let guide = guides[count - 1];
    if guide.chain != chain {
        return None;
    }
    match cells[guide.cell as usize].item.meet(item) {
        Ordering::Less => Some(guide.cell),
        Ordering::Equal | Ordering::Greater => None,
    }
}

// Looks for the place of an item on a chain, which begins at `head`, behind the last of the first so many
// guides.
fn find_guided(
    guides: &[Guide],
    count: usize,
    cells: &[Cell],
    head: Option<u32>,
    chain: u32,
    item: &Parts<'_>,
) -> Search
    requires ends { Ends cells.now head }
    requires in_order { IsChain (entries_from cells.now head) }
    requires count { count ≤ length guides.now }
    requires guided { GuidesOn cells.now head chain guides.now }
    ensures seat { Seated cells.now head item.now result.seat }
    ensures passed { IsOn cells.now head result.passed }
{
    let start = start_from(guides, count, cells, head, chain, item);
    find_seat(cells, head, start, item)
}

// Adds a cell of a chain that a long search passed to the guides, behind the first so many, where there is
// room for it.
fn add_guide(guides: &mut Vec<Guide>, count: usize, chain: u32, passed: Option<u32>)
    requires { count ≤ length guides.old.items }
    ensures guides { KeepsGuides chain passed guides.old.items guides.new.items }
    ensures room { vec_capacity guides.new ≡ vec_capacity guides.old }
{
    let Some(cell) = passed else {
        return;
    };
    if guides.len() >= guides.capacity() {
        return;
    }
    let Ok(()) = guides.insert(count, Guide { chain, cell }) else {
        return;
    };
}

// Looks for the place of an item on a chain, which begins at `head`.
pub(crate) fn seat_of(
    guides: &[Guide],
    cells: &[Cell],
    head: Option<u32>,
    chain: u32,
    item: &Parts<'_>,
) -> Seat
    requires ends { Ends cells.now head }
    requires in_order { IsChain (entries_from cells.now head) }
    requires guided { GuidesOn cells.now head chain guides.now }
    ensures { Seated cells.now head item.now result }
{
    let count = count_in_front(guides, cells, chain, item);
    let found = find_guided(guides, count, cells, head, chain, item);
    found.seat
}

// The same. Where the search was long, it adds a guide.
pub(crate) fn seat_with_guide(
    guides: &mut Vec<Guide>,
    cells: &[Cell],
    head: Option<u32>,
    chain: u32,
    item: &Item,
) -> Seat
    requires ends { Ends cells.now head }
    requires in_order { IsChain (entries_from cells.now head) }
    requires guided { GuidesOn cells.now head chain guides.old.items }
    ensures seat { Seated cells.now head item.now result }
    ensures guides { StaysGuided cells.now head chain guides.old.items guides.new.items }
    ensures room { vec_capacity guides.new ≡ vec_capacity guides.old }
{
    let parts = item.parts();
    let count = count_in_front(guides, cells, chain, &parts);
    let found = find_guided(guides, count, cells, head, chain, &parts);
    add_guide(guides, count, chain, found.passed);
    found.seat
}

// Takes memory for a guide of every 32 of so many cells, and one: each has 32 cells of its chain in front and behind. Guides
// only make searches shorter: where memory is wanting there is room for as many as before.
pub(crate) fn make_guide_room(guides: &mut Vec<Guide>, cells: usize)
    ensures items { guides.new.items ≡ guides.old.items }
    ensures room { vec_capacity guides.old ≤ cells / 32 + 1 → vec_capacity guides.new ≤ cells / 32 + 1 }
{
    let most = cells / 32 + 1;
    if guides.len() < most {
        let _taken = guides.try_reserve_exact(most - guides.len());
    }
}

// Drops the guides of a chain.
pub(crate) fn drop_guides(guides: &mut Vec<Guide>, chain: u32)
    ensures items { guides.new.items ≡ filter (λ guide. not (guide.chain == chain)) guides.old.items }
    ensures room { vec_capacity guides.new ≡ vec_capacity guides.old }
{
    guides.retain(|guide| guide.chain != chain);
}
