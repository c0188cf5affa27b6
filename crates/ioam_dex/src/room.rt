//! Room for export records.
ghost use Rattle.std.specs.Prelude.{◌≡◌, ◌+◌, ◌<◌, ◌≤◌, ◌^◌, [], IfOk, OnErr, length, vec_capacity, vec_len};
ghost use Rattle.ioam_base.specs.Words.{two_octets, three_octets, four_octets, eight_octets, four_octets_if};
ghost use Rattle.ioam_dex.specs.Visit.{visit_octets};

use ioam_base::memory::NoMemory;
use ioam_base::octets::{put_at, put_u16_at, put_u24_at, put_u32_at, put_u64_at};
use ioam_base::spare::emptied;
use std::alloc::Global;
use std::marker::Model;

/// Room for export records, all of it taken when it is made. What it holds stands in front of octets
/// that are there already, so no call that appends takes memory.
#[derive(Drop)]
pub struct ExportRoom {
    octets: Vec<u8>,
    // how many of them the records have, and may have
    used: usize,
    given: usize,
}

impl Model for ExportRoom {
    ghost use Rattle.std.specs.Prelude.{◌-◌, ◌≤◌, length, take, vec_capacity};
    ghost use Rattle.ioam_dex.specs.Room.{Room};

    ghost Value = { Room };

    ghost view = { λ room. record { octets = take room.used room.octets.items; spare = room.given - room.used; capacity = vec_capacity room.octets } };

    ghost invariant = { λ room. (room.used ≤ room.given) × (room.given ≤ length room.octets.items) };
}

// At least so many octets, those of a spare vector where that has as many. What they are is not said.
fn filled(alloc: Global, spare: Vec<u8>, count: usize) -> Result<Vec<u8>, NoMemory>
    ensures many { IfOk result (λ octets. count ≤ vec_len octets) }
    ensures kept { count ≤ vec_len spare → IfOk result (λ octets. vec_capacity octets ≡ vec_capacity spare) }
    ensures few { OnErr result (vec_capacity spare < count) }
{
    if count <= spare.len() {
        return Ok(spare);
    }
    let mut octets = emptied(alloc, spare, count)?;
    octets.resize(count, 0)?;
    Ok(octets)
}

impl ExportRoom {
    ghost use Rattle.ioam_dex.specs.Room.{appended};

    /// Room for so many octets.
    pub fn new(alloc: Global, octets: usize) -> Result<ExportRoom, NoMemory>
        ensures octets { IfOk result (λ room. room.octets ≡ []) }
        ensures spare { IfOk result (λ room. room.spare ≡ octets) }
    {
        ExportRoom::none(alloc).renewed(alloc, octets)
    }

    /// No room. It takes no memory.
    pub fn none(alloc: Global) -> ExportRoom
        ensures octets { result.octets ≡ [] }
        ensures spare { result.spare ≡ 0 }
        ensures capacity { result.capacity ≡ 0 }
    {
        ExportRoom {
            octets: Vec::new(alloc),
            used: 0,
            given: 0,
        }
    }

    /// Room for so many octets in place of this one, in its memory where that has places for them; else
    /// that is handed back. Where it had room for as many, nothing is written.
    pub fn renewed(self, alloc: Global, octets: usize) -> Result<ExportRoom, NoMemory>
        ensures octets { IfOk result (λ room. room.octets ≡ []) }
        ensures spare { IfOk result (λ room. room.spare ≡ octets) }
        // It takes memory only where that of this one is too small.
        ensures few { OnErr result (self.capacity < octets) }
        ensures kept { octets ≤ self.spare + length self.octets → IfOk result (λ room. room.capacity ≡ self.capacity) }
    {
        let ExportRoom { octets: held, .. } = self;
        Ok(ExportRoom {
            octets: filled(alloc, held, octets)?,
            used: 0,
            given: octets,
        })
    }

    /// The records that it holds, one behind the other.
    pub fn octets(&self) -> &[u8]
        ensures { result.now ≡ self.now.octets }
    {
        &self.octets[..self.used]
    }

    /// How many more octets it has room for.
    pub fn spare(&self) -> usize
        ensures { result ≡ self.now.spare }
    {
        self.given - self.used
    }

    /// Takes the records away. All that it was made with is spare again, in the same memory.
    pub fn clear(&mut self)
        ensures { self.new ≡ record self.old { octets = []; spare = self.old.spare + length self.old.octets } }
    {
        self.used = 0;
    }

    /// Appends octets, for which there is room.
    pub fn append(&mut self, part: &[u8])
        requires { length part.now ≤ self.old.spare }
        ensures { self.new ≡ appended self.old part.now }
    {
        put_at(&mut self.octets, self.used, part);
        self.used += part.len();
    }

    // Appends a number as two octets.
    pub(crate) fn two(&mut self, number: u16)
        requires { 2 ≤ self.old.spare }
        ensures { self.new ≡ appended self.old (two_octets number) }
    {
        put_u16_at(&mut self.octets, self.used, number);
        self.used += 2;
    }

    // Appends a number of 24 bits as three octets.
    pub(crate) fn three(&mut self, number: u32)
        requires room { 3 ≤ self.old.spare }
        requires fits { number < 2 ^ 24 }
        ensures { self.new ≡ appended self.old (three_octets number) }
    {
        put_u24_at(&mut self.octets, self.used, number);
        self.used += 3;
    }

    // Appends a number as four octets.
    fn four(&mut self, number: u32)
        requires { 4 ≤ self.old.spare }
        ensures { self.new ≡ appended self.old (four_octets number) }
    {
        put_u32_at(&mut self.octets, self.used, number);
        self.used += 4;
    }

    // Appends a number as eight octets.
    fn eight(&mut self, number: u64)
        requires { 8 ≤ self.old.spare }
        ensures { self.new ≡ appended self.old (eight_octets number) }
    {
        put_u64_at(&mut self.octets, self.used, number);
        self.used += 8;
    }

    // Appends a number, where it is there.
    pub(crate) fn four_if(&mut self, number: Option<u32>)
        requires { 4 ≤ self.old.spare }
        ensures { self.new ≡ appended self.old (four_octets_if number) }
    {
        if let Some(number) = number {
            self.four(number);
        }
    }

    // Appends a visit, where it is there.
    pub(crate) fn visit_if(&mut self, visit: Option<(u64, u32)>)
        requires { 12 ≤ self.old.spare }
        ensures { self.new ≡ appended self.old (visit_octets visit) }
    {
        if let Some((time, inward)) = visit {
            self.eight(time);
            self.four(inward);
        }
    }
}
