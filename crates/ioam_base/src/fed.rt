//! Octets that are fed in pieces, and taken from the front.
ghost use Rattle.std.specs.Prelude.{◌≡◌, ◌+◌, ◌-◌, ◌≤◌, ◌<◌, ◌^◌, [], drop, length, IfOk, OnErr, OnOk};
ghost use Rattle.ioam_base.specs.Fed.{fresh, fed, passed, with_piece};

use crate::memory::NoMemory;
use crate::octets::drop_front;
use std::alloc::Global;
use std::marker::Model;

/// How many octets a piece has, as files are read in: there is room for as many from the start.
pub const PIECE: usize = 65_536;

/// Octets that are fed in any pieces, and taken from the front. Those not yet taken are pending.
///
/// Octets that were taken go when others are fed. So what is kept doesn't grow with what was fed, and
/// of a piece only what is pending when the next one is fed is moved within the buffer.
#[derive(Drop)]
pub struct Fed {
    buffer: Vec<u8>,
    // octets at the front of the buffer that were taken
    taken: usize,
    // the place, among all that were fed, of the first octet behind these
    start: u64,
}

impl Model for Fed {
    ghost use Rattle.std.specs.Prelude.{◌+◌, ◌-◌, ◌<◌, ◌≤◌, ◌^◌, take, drop, length};
    ghost use Rattle.ioam_base.specs.Fed.{Kept};

    ghost Value = { Kept };

    ghost view = { λ f. record { given = take f.taken f.buffer.items; start = f.start; pending = drop f.taken f.buffer.items } };

    ghost invariant = { λ f. (f.taken ≤ length f.buffer.items) × (f.start + (length f.buffer.items - f.taken) < 2 ^ 63) };
}

impl Fed {
    /// Nothing was fed.
    pub fn new(alloc: Global) -> Result<Fed, NoMemory>
        ensures { IfOk result (λ octets. octets ≡ fresh) }
    {
        Ok(Fed {
            buffer: Vec::with_capacity(alloc, PIECE)?,
            taken: 0,
            start: 0,
        })
    }

    /// The place, among all octets that were fed, of the first that was not yet taken.
    pub fn start(&self) -> u64
        ensures { result ≡ self.now.start }
    {
        self.start
    }

    /// How many octets were fed in all.
    pub fn fed(&self) -> u64
        ensures { result ≡ fed self.now }
    {
        self.start + (self.buffer.len() - self.taken) as u64
    }

    /// The octets that were not yet taken.
    pub fn pending(&self) -> &[u8]
        ensures { result.now ≡ self.now.pending }
    {
        &self.buffer[self.taken..]
    }

    /// Feeds the next octets, of which there are below 2^63 in all, and lets go of those that were taken.
    /// Where no memory can be had nothing changes.
    pub fn feed(&mut self, piece: &[u8]) -> Result<(), NoMemory>
        requires { fed self.old + length piece.now < 2 ^ 63 }
        ensures ok { OnOk result (self.new ≡ with_piece piece.now self.old) }
        ensures err { OnErr result (self.new ≡ self.old) }
    {
        let more = piece.len().saturating_sub(self.taken);
        self.buffer.reserve(more)?;
        drop_front(&mut self.buffer, self.taken);
        self.taken = 0;
        // never refused: there is room for as many more
        self.buffer.extend_from_slice(piece).unwrap();
        Ok(())
    }

    /// Takes so many of the pending octets.
    pub fn take(&mut self, count: usize)
        requires { count ≤ length self.old.pending }
        ensures { self.new ≡ passed count self.old }
    {
        self.taken += count;
        self.start += count as u64;
    }

    /// The octets that were taken last, so many of them.
    pub fn taken(&self, count: usize) -> &[u8]
        requires { count ≤ length self.now.given }
        ensures { result.now ≡ drop (length self.now.given - count) self.now.given }
    {
        &self.buffer[self.taken - count..self.taken]
    }
}
