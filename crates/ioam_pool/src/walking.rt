//! The items of a chain, one after the other.
use crate::cells::Cell;
use crate::item::Item;
use std::marker::Model;

/// The items of one chain in order. Made by [`crate::Pool::walk`].
#[derive(Drop)]
pub struct Items<'a> {
    pub(crate) cells: &'a [Cell],
    pub(crate) at: Option<u32>,
}

impl<'a> Model for Items<'a> {
    ghost use Rattle.std.specs.Prelude.{List};
    ghost use Rattle.ioam_pool.specs.Entry.{Entry};

    ghost Value = { List Entry };

    ghost use Rattle.ioam_pool.specs.Cells.{Ends, entries_from};

    ghost view = { λ items. entries_from items.cells.now items.at };

    ghost invariant = { λ items. Ends items.cells.now items.at };
}

impl Items<'_> {
    ghost use Rattle.std.specs.Prelude.{◌≡◌, length};

    /// How many items are left. It walks over them.
    pub fn left(&self) -> usize
        ensures { result ≡ length self.now }
    {
        let rest = Items {
            cells: self.cells,
            at: self.at,
        };
        rest.count()
    }
}

impl<'a> Iterator for Items<'a> {
    ghost use Rattle.std.specs.Iterator.{YieldsFirstBy, item_count};

    type Item = &'a Item;

    ghost next_gives = { YieldsFirstBy (λ item. item.now) (λ items. items) };

    ghost remaining = { item_count (λ items. items) };

    fn next(&mut self) -> Option<&'a Item> {
        let place = self.at?;
        let cell = &self.cells[place as usize];
        self.at = cell.next;
        Some(&cell.item)
    }
}
