//! Chains of items over one array of cells.
ghost use Rattle.std.specs.Prelude.{◌≡◌, ◌↔◌, ◌+◌, ◌^◌, ◌<◌, ◌≤◌, ◌++◌, ◌∷◌, [], length, is_ok, if◌then◌else◌, IfOk, IsTrue, OnErr};
ghost use Rattle.ioam_pool.specs.Order.{IsApart, IsChain, IsInOrder, order};
ghost use Rattle.ioam_pool.specs.Chains.{Chains, chain_of, total, with_chain, with_one_more};

use crate::cells::Cell;
use crate::freeing::last_of;
use crate::growing::{add_cells, add_head};
use crate::guides::{Guide, drop_guides, make_guide_room, seat_of, seat_with_guide};
use crate::item::Item;
use crate::parts::Parts;
use crate::seating::{Seat, gives_way, link_in, swap_item};
use crate::walking::Items;
use ioam_base::memory::NoMemory;
use std::alloc::Global;
use std::marker::Model;

/// A chain of a pool, by its number.
#[derive(Clone, Copy, Debug, PartialEq, Eq)]
pub struct Chain {
    number: u32,
}

impl Model for Chain {
    ghost use Rattle.std.specs.Prelude.{ℕ};

    ghost Value = { ℕ };

    ghost view = { λ chain. chain.number };

    ghost inverse = { λ number. record { number = number } };
}

/// What became of an item.
#[derive(Drop)]
pub enum Inserted {
    /// It was added.
    Kept,
    /// It was added in place of the one without its extra part, which is handed back.
    Replaced(Item),
    /// It is handed back: the chain has it already, or, where it has no extra part, one of equal hop
    /// value and core.
    Repeat(Item),
    /// It is handed back, since no cell is free.
    Full(Item),
}

/// Chains of items over one array of cells. It has memory for its cells, for a guide of every 32 of them
/// and one, and for at most twice its chains and four; only `grow` and `add_chain` take any.
#[derive(Drop)]
pub struct Pool {
    cells: Vec<Cell>,
    heads: Vec<Option<u32>>,
    free: Option<u32>,
    held: u32,
    guides: Vec<Guide>,
}

impl Model for Pool {
    ghost use Rattle.ioam_pool.specs.Chains.{Chains};

    ghost Value = { Chains };

    ghost use Rattle.ioam_pool.specs.Guides.{Guided};
    ghost use Rattle.ioam_pool.specs.Kept.{IsPool, IsRoomFor, seen};
    ghost use Rattle.std.specs.Prelude.{vec_len, vec_capacity};

    ghost view = { λ pool. seen pool.cells.items pool.heads.items };

    ghost invariant = { λ pool. IsPool pool.cells.items pool.heads.items pool.free pool.held × Guided pool.cells.items pool.heads.items pool.guides.items
        × IsRoomFor (vec_len pool.cells) (vec_len pool.heads) (vec_capacity pool.cells) (vec_capacity pool.guides) (vec_capacity pool.heads) };
}

impl Pool {
    ghost use Rattle.ioam_pool.specs.Inserting.{Inserts, gained};

    /// A pool of so many cells, below 2^31, without chains.
    pub fn new(alloc: Global, capacity: u32) -> Result<Pool, NoMemory>
        requires { capacity < 2 ^ 31 }
        ensures { IfOk result (λ pool. pool ≡ record { chains = []; capacity = capacity }) }
    {
        let mut pool = Pool {
            cells: Vec::new(alloc),
            heads: Vec::new(alloc),
            free: None,
            held: 0,
            guides: Vec::new(alloc),
        };
        pool.grow(capacity)?;
        Ok(pool)
    }

    /// Adds so many cells, below 2^31 in all. Without memory it adds none.
    pub fn grow(&mut self, more: u32) -> Result<(), NoMemory>
        requires { self.old.capacity + more < 2 ^ 31 }
        ensures { self.new ≡ (if is_ok result then record { chains = self.old.chains; capacity = self.old.capacity + more } else self.old) }
    {
        self.cells.try_reserve_exact(more as usize)?;
        make_guide_room(&mut self.guides, self.cells.len() + more as usize);
        self.free = add_cells(&mut self.cells, self.free, more);
        Ok(())
    }

    /// Adds an empty chain, where fewer than 2^31 were added. Without memory it adds none.
    pub fn add_chain(&mut self) -> Result<Chain, NoMemory>
        requires { length self.old.chains < 2 ^ 31 }
        ensures chain { IfOk result (λ chain. chain ≡ length self.old.chains) }
        ensures chains { self.new ≡ (if is_ok result then with_one_more self.old else self.old) }
    {
        let number = self.heads.len() as u32;
        add_head(&mut self.heads)?;
        Ok(Chain { number })
    }

    /// Empties a chain. Its cells are free then.
    pub fn free(&mut self, chain: Chain)
        requires { chain < length self.old.chains }
        ensures { self.new ≡ with_chain self.old chain [] }
    {
        let number = chain.number as usize;
        let head = self.heads[number];
        if let Some((last, count)) = last_of(&self.cells, head) {
            let cell = &mut self.cells[last as usize];
            cell.next = self.free;
            self.free = head;
            self.heads[number] = None;
            self.held -= count;
            drop_guides(&mut self.guides, chain.number);
        }
    }

    /// How many items the chains have in all.
    pub fn held(&self) -> u32
        ensures held { result ≡ total self.now }
        ensures within { result ≤ self.now.capacity }
    {
        self.held
    }

    /// How many items there is room for.
    pub fn capacity(&self) -> u32
        ensures { result ≡ self.now.capacity }
    {
        self.cells.len() as u32
    }

    /// The items of a chain, in order.
    pub fn walk(&self, chain: Chain) -> Items<'_>
        requires { chain < length self.now.chains }
        ensures items { result ≡ chain_of self.now chain }
        ensures in_order { IsInOrder order result }
        // None without an extra part stands with another of equal hop value and core.
        ensures apart { IsChain result }
    {
        Items {
            cells: &self.cells,
            at: self.heads[chain.number as usize],
        }
    }

    /// Whether an item of these parts would be one more on a chain: the chain doesn't have it, with or without an extra
    /// part.
    pub fn is_apart(&self, chain: Chain, item: &Parts<'_>) -> bool
        requires { chain < length self.now.chains }
        ensures { IsTrue result ↔ IsApart (chain_of self.now chain) item.now }
    {
        let head = self.heads[chain.number as usize];
        match seat_of(&self.guides, &self.cells, head, chain.number, item) {
            Seat::Tied(_) => false,
            Seat::Behind(_) => true,
        }
    }

    /// Adds an item to a chain, in its place. It takes no memory, and no other item moves. The first of
    /// these holds that can: `Repeat`, `Replaced`, `Full`, `Kept`.
    pub fn insert(&mut self, chain: Chain, item: Item) -> Inserted
        requires { chain < length self.old.chains }
        ensures inserts { Inserts self.old chain item result self.new }
        ensures held { total self.new ≡ total self.old + gained result }
    {
        let number = chain.number as usize;
        let head = self.heads[number];
        match seat_with_guide(&mut self.guides, &self.cells, head, chain.number, &item) {
            Seat::Tied(at) => {
                if gives_way(&self.cells, at, &item) {
                    Inserted::Replaced(swap_item(&mut self.cells, at, item))
                } else {
                    Inserted::Repeat(item)
                }
            }
            Seat::Behind(before) => {
                let Some(at) = self.free else {
                    return Inserted::Full(item);
                };
                self.free = self.cells[at as usize].next;
                let first = link_in(&mut self.cells, head, before, at, item);
                self.heads[number] = first;
                self.held += 1;
                Inserted::Kept
            }
        }
    }
}
