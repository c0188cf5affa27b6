//! A table: a row for each key, in the order of the keys.
ghost use Rattle.std.specs.Prelude.{◌≡◌, ◌<◌, ◌^◌, ◌+◌, ◌≤◌, ◌++◌, ◌∷◌, [], List, ℕ, OnOk, true, false, length, slice_index_or};

use crate::key::Key;
use crate::tally::Tally;
use ioam_base::memory::NoMemory;
use std::alloc::Global;

/// A row of a table.
#[derive(Drop)]
pub struct Row<K, T> {
    /// Its key.
    pub key: K,
    /// What is counted of the items of this key.
    pub tally: T,
}

/// Rows in the order of their keys, no more than a limit, and how many items found no row.
#[derive(Drop)]
pub struct Table<K, T> {
    /// The rows.
    pub rows: Vec<Row<K, T>>,
    /// How many rows there may be.
    pub limit: usize,
    /// How many items have a key that came when there were as many.
    pub others: u64,
}

impl<K: Key, T: Tally> Table<K, T> {
    ghost use Rattle.ioam_delay_counts.specs.Tables.{InOrder, IsTable, rows_before};
    ghost use Rattle.ioam_delay_counts.specs.declared.table.Row.{Row};

    /// Before the first item.
    pub fn new(alloc: Global, limit: usize) -> Table<K, T>
        ensures empty { IsTable K.before T.counts [] result }
        ensures limit { result.limit ≡ limit }
    {
        Table {
            rows: Vec::new(alloc),
            limit,
            others: 0,
        }
    }

    /// Counts an item of a key, which is moved out where its row is its first.
    pub fn count(&mut self, alloc: Global, key: &mut K, item: T::Item) -> Result<(), NoMemory>
        ensures counted { OnOk result ((seen : List (K × T.Item)) → length seen < 2 ^ 48 → IsTable K.before T.counts seen self.old
            → IsTable K.before T.counts (seen ++ (key.old, item) ∷ []) self.new) }
        ensures limit { self.new.limit ≡ self.old.limit }
    {
        let at = self.index_of(key);
        if self.has(at, key) {
            self.rows[at].tally.add(alloc, item)?;
        } else if self.rows.len() < self.limit {
            let tally = T::first(alloc, item)?;
            let key = key.take(alloc);
            self.rows.insert(at, Row { key, tally })?;
        } else {
            self.others = self.others.saturating_add(1);
        }
        Ok(())
    }

    // Whether the row at an index is that of a key, of which all rows before it come before the key.
    fn has(&self, at: usize, key: &K) -> bool
        ensures yes { result ≡ true → (at < length self.now.rows.items) × ((row : Row K T) → row ≡ slice_index_or self.now.rows.items at row → K.before key.now row.key ≡ false) }
        ensures no { result ≡ false → at < length self.now.rows.items → (row : Row K T) → row ≡ slice_index_or self.now.rows.items at row → K.before key.now row.key ≡ true }
    {
        at < self.rows.len() && !key.precedes(&self.rows[at].key)
    }

    // How many rows come before a key: the index of its row, if it has one.
    fn index_of(&self, key: &K) -> usize
        ensures is { InOrder K.before self.now.rows.items → result ≡ rows_before K.before self.now.rows.items key.now }
        ensures within { result ≤ length self.now.rows.items }
    {
        self.rows.partition_point(|row| row.key.precedes(key))
    }
}
