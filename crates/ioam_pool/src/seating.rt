//! Where an item goes on a chain.
ghost use Rattle.std.specs.Prelude.{◌≡◌, ◌<◌, ◌&&◌, not, length, vec_len, vec_capacity};
ghost use Rattle.std.specs.Option.{ForSome};
ghost use Rattle.ioam_pool.specs.Cells.{Ends, entries_from, entry_at, linked_in, head_then, next_or, with_item};
ghost use Rattle.ioam_pool.specs.Entry.{is_full};
ghost use Rattle.ioam_pool.specs.Guides.{Goes, IsOn, IsStart};
ghost use Rattle.ioam_pool.specs.Order.{IsChain};
ghost use Rattle.ioam_pool.specs.Seats.{Seated};

use crate::cells::Cell;
use crate::item::Item;
use crate::parts::Parts;
use std::cmp::Ordering;
use std::mem;

// Where an item goes on a chain.
#[derive(Clone, Copy)]
pub(crate) enum Seat {
    // This cell's item is the same, or either is the other without its extra part.
    Tied(u32),
    // Behind this cell, or to the front.
    Behind(Option<u32>),
}

// What a search found, and, where it passed many cells, one of these with many in front and behind.
#[derive(Clone, Copy)]
pub(crate) struct Search {
    pub(crate) seat: Seat,
    pub(crate) passed: Option<u32>,
}

// How many cells are passed in front of the first that is remembered.
const FEW: u32 = 32;

// What a search remembers: how many cells it passed, and of these the last two whose number is a power of
// two, from the 32nd on.
#[derive(Clone, Copy)]
struct Trail {
    count: u32,
    older: Option<u32>,
    newer: Option<u32>,
}

// The search passes a cell.
fn pass(trail: Trail, place: u32) -> Trail
    ensures { Goes place trail result }
{
    let count = trail.count.wrapping_add(1);
    if count < FEW || !count.is_power_of_two() {
        return Trail { count, ..trail };
    }
    Trail {
        count,
        older: trail.newer,
        newer: Some(place),
    }
}

// The cell behind this one, or the first of the chain.
fn next_of(cells: &[Cell], head: Option<u32>, start: Option<u32>) -> Option<u32>
    requires { ForSome start (λ place. place < length cells.now) }
    ensures { result ≡ next_or cells.now head start }
{
    match start {
        Some(place) => cells[place as usize].next,
        None => head,
    }
}

// Looks for the place of an item on the chain that begins at `head`, from its front on, or behind a cell
// that stands in front of the item.
pub(crate) fn find_seat(
    cells: &[Cell],
    head: Option<u32>,
    start: Option<u32>,
    item: &Parts<'_>,
) -> Search
    requires ends { Ends cells.now head }
    requires in_order { IsChain (entries_from cells.now head) }
    requires start { IsStart cells.now head item.now start }
    ensures seat { Seated cells.now head item.now result.seat }
    ensures passed { IsOn cells.now head result.passed }
{
    let mut before = start;
    let mut at = next_of(cells, head, start);
    let mut trail = Trail {
        count: 0,
        older: None,
        newer: None,
    };
    'passing: while let Some(place) = at {
        let cell = &cells[place as usize];
        match cell.item.meet(item) {
            Ordering::Less => {
                trail = pass(trail, place);
                before = at;
                at = cell.next;
            }
            Ordering::Equal => {
                return Search {
                    seat: Seat::Tied(place),
                    passed: trail.older,
                };
            }
            Ordering::Greater => {
                return Search {
                    seat: Seat::Behind(before),
                    passed: trail.older,
                };
            }
        }
    }
    Search {
        seat: Seat::Behind(before),
        passed: trail.older,
    }
}

// Writes an item into the cell `at`, and links it behind another cell, or to the front. Returns
// what the chain begins with then.
pub(crate) fn link_in(
    cells: &mut Vec<Cell>,
    head: Option<u32>,
    before: Option<u32>,
    at: u32,
    item: Item,
) -> Option<u32>
    requires inside { at < vec_len cells.old }
    requires chained { ForSome before (λ place. place < vec_len cells.old) }
    ensures cells { cells.new.items ≡ linked_in cells.old.items head before at item }
    ensures head { result ≡ head_then head before at }
    ensures len { vec_len cells.new ≡ vec_len cells.old }
    ensures room { vec_capacity cells.new ≡ vec_capacity cells.old }
{
    match before {
        None => {
            cells[at as usize] = Cell { item, next: head };
            Some(at)
        }
        Some(before) => {
            let next = cells[before as usize].next;
            cells[at as usize] = Cell { item, next };
            let cell = &mut cells[before as usize];
            cell.next = Some(at);
            head
        }
    }
}

// Whether the item in the cell `at` gives way to this one, with which it ties.
pub(crate) fn gives_way(cells: &[Cell], at: u32, item: &Item) -> bool
    requires { at < length cells.now }
    ensures { result ≡ (is_full item.now && not (is_full (entry_at cells.now at))) }
{
    item.is_full() && !cells[at as usize].item.is_full()
}

// Puts an item into the cell `at`, which stays where it is linked, and hands out what was there.
pub(crate) fn swap_item(cells: &mut Vec<Cell>, at: u32, item: Item) -> Item
    requires { at < vec_len cells.old }
    ensures cells { cells.new.items ≡ with_item cells.old.items at item }
    ensures item { result ≡ entry_at cells.old.items at }
    ensures len { vec_len cells.new ≡ vec_len cells.old }
    ensures room { vec_capacity cells.new ≡ vec_capacity cells.old }
{
    let cell = &mut cells[at as usize];
    mem::replace(&mut cell.item, item)
}
