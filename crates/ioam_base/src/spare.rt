//! Vectors in memory that is there already, and copies.
ghost use Rattle.std.specs.Prelude.{◌≡◌, ◌<◌, ◌≤◌, [], IfOk, OnErr, vec_capacity};

use crate::memory::NoMemory;
use crate::text::append;
use std::alloc::Global;

/// An empty vector with room for so many elements, in the memory of a spare one, whose elements are
/// dropped. It takes memory only where the spare one has too little, which is then handed back.
pub fn emptied<T: Drop>(alloc: Global, spare: Vec<T>, count: usize) -> Result<Vec<T>, NoMemory>
    ensures items { IfOk result (λ made. made.items ≡ []) }
    ensures room { IfOk result (λ made. count ≤ vec_capacity made) }
    ensures same { count ≤ vec_capacity spare → IfOk result (λ made. vec_capacity made ≡ vec_capacity spare) }
    ensures few { OnErr result (vec_capacity spare < count) }
{
    if spare.capacity() < count {
        let made = Vec::with_capacity(alloc, count)?;
        return Ok(made);
    }
    let mut made = spare;
    made.clear();
    Ok(made)
}

/// A copy of octets, in the memory of a spare vector where that has the room.
pub fn copied_in(alloc: Global, spare: Vec<u8>, octets: &[u8]) -> Result<Vec<u8>, NoMemory>
    ensures { IfOk result (λ copy. copy.items ≡ octets.now) }
{
    let mut copy = emptied(alloc, spare, octets.len())?;
    append(&mut copy, octets)?;
    Ok(copy)
}

/// A copy of octets.
pub fn copied(alloc: Global, octets: &[u8]) -> Result<Vec<u8>, NoMemory>
    ensures { IfOk result (λ copy. copy.items ≡ octets.now) }
{
    copied_in(alloc, Vec::new(alloc), octets)
}
