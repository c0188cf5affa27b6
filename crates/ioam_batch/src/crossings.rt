//! The octets of a packet as its visits sent it on links with a tap.
ghost use Rattle.std.specs.Prelude.{◌≡◌, ◌<◌, ◌≤◌, ◌+◌, ◌++◌, ◌∷◌, [], ℕ, false, true, if◌then◌else◌, IfErr, IfSome, OnOk, MatchOption, None, Some, drop, get_or, length, map, slice_get, take};
ghost use Rattle.ioam_batch.specs.Crossings.{crossings, filled, joined, sent_if, taps_of};
ghost use Rattle.ioam_batch.specs.Taps.{is_tapped};

use crate::taps::taps_of;
use ioam_base::memory::NoMemory;
use ioam_base::octets::put_at;
use ioam_plan::Visit;
use ioam_topo::Domain;
use std::alloc::Global;
use std::marker::Model;
use std::mem;

// So many octets for each visit that sends on a link with a tap.
fn filled(size: usize, taps: &[bool]) -> usize
    requires size { size ≤ 131072 }
    requires few { length taps.now ≤ 256 }
    ensures value { result ≡ filled size taps.now }
    ensures small { result ≤ 33554432 }
{
    let mut octets = 0;
    for tap in taps {
        octets += octets_for(size, *tap);
    }
    octets
}

// So many octets, if there is a tap.
fn octets_for(size: usize, tap: bool) -> usize
    requires size { size ≤ 131072 }
    ensures value { result ≡ (if tap then size else 0) }
    ensures small { result ≤ 131072 }
{
    if tap { size } else { 0 }
}

// So many octets from a place on.
fn part(octets: &[u8], start: usize, size: usize) -> &[u8]
    requires within { start + size ≤ length octets.now }
    requires small { start ≤ 33554432 }
    requires size { size ≤ 131072 }
    ensures octets { result.now ≡ take size (drop start octets.now) }
    ensures short { length result.now ≤ 131072 }
{
    &octets[start..start + size]
}

// Makes so many octets or more of these. What they are is of no account: zeros are written only where
// there are too few.
fn grow(alloc: Global, octets: &mut Vec<u8>, count: usize) -> Result<(), NoMemory>
    ensures { OnOk result (count ≤ length octets.new.items) }
{
    if count <= octets.len() {
        return Ok(());
    }
    let mut made = Vec::with_capacity(alloc, count)?;
    made.resize(count, 0)?;
    *octets = made;
    Ok(())
}

/// The octets of a packet after each of its visits that are done and sent it on a link with a tap. Those
/// of the visits ahead have their places, in which anything stands until then: no visit takes memory.
#[derive(Drop)]
pub(crate) struct Crossings {
    // For each visit, whether it sends on a link with a tap.
    taps: Vec<bool>,
    // How long the packet is.
    size: usize,
    // How many visits are done.
    done: usize,
    // Where the octets of the next visit with a tap begin.
    next: usize,
    // So many for each visit with a tap, one behind the other, and perhaps more.
    octets: Vec<u8>,
}

impl Model for Crossings {
    ghost use Rattle.std.specs.Prelude.{◌≡◌, ◌≤◌, length, take, drop, vec_capacity};
    ghost use Rattle.ioam_batch.specs.Crossings.{Crossed, filled, parted};

    ghost Value = { Crossed };

    ghost view = { λ crossings. record {
      past = parted crossings.size (take crossings.done crossings.taps.items) crossings.octets.items;
      ahead = drop crossings.done crossings.taps.items;
      size = crossings.size;
      capacities = (vec_capacity crossings.taps, vec_capacity crossings.octets);
    } };

    ghost invariant = { λ crossings. (crossings.size ≤ 131072) × (length crossings.taps.items ≤ 256) × (crossings.done ≤ length crossings.taps.items)
        × (filled crossings.size crossings.taps.items ≤ length crossings.octets.items)
        × (crossings.next ≡ filled crossings.size (take crossings.done crossings.taps.items)) };
}

impl Crossings {
    /// Those of no visit. It takes no memory.
    pub(crate) fn none(alloc: Global) -> Crossings
        ensures past { result.past ≡ [] }
        ensures ahead { result.ahead ≡ [] }
        ensures size { result.size ≡ 0 }
        ensures capacities { result.capacities ≡ (0, 0) }
    {
        Crossings {
            taps: Vec::new(alloc),
            size: 0,
            done: 0,
            next: 0,
            octets: Vec::new(alloc),
        }
    }

    /// Becomes room for a packet of so many octets that goes by these visits, in the memory that it has
    /// where that suffices. Nothing of what it held stays. After NoMemory it is room for no visit.
    pub(crate) fn renew(
        &mut self,
        alloc: Global,
        domain: &Domain,
        visits: &[Visit],
        size: usize,
    ) -> Result<(), NoMemory>
        requires size { size ≤ 131072 }
        requires few { length visits.now ≤ 256 }
        ensures past { OnOk result (self.new.past ≡ []) }
        ensures ahead { OnOk result (self.new.ahead ≡ map (is_tapped domain.now) visits.now) }
        ensures size { OnOk result (self.new.size ≡ size) }
        ensures lost { IfErr result (λ _. taps_of self.new ≡ []) }
    {
        self.done = 0;
        self.next = 0;
        let spare = mem::replace(&mut self.taps, Vec::new(alloc));
        let taps = taps_of(alloc, spare, domain, visits)?;
        grow(alloc, &mut self.octets, filled(size, &taps))?;
        self.taps = taps;
        self.size = size;
        Ok(())
    }

    // The next visit sent the packet as these octets on a link with a tap.
    fn push(&mut self, octets: &[u8])
        requires left { 0 < length self.old.ahead }
        requires tap { get_or self.old.ahead 0 false ≡ true }
        requires size { length octets.now ≡ self.old.size }
        ensures past { self.new.past ≡ self.old.past ++ Some octets.now ∷ [] }
        ensures ahead { self.new.ahead ≡ drop 1 self.old.ahead }
        ensures size { self.new.size ≡ self.old.size }
        ensures capacities { self.new.capacities ≡ self.old.capacities }
        ensures taps { taps_of self.new ≡ taps_of self.old }
    {
        put_at(&mut self.octets, self.next, octets);
        self.next += self.size;
        self.done += 1;
    }

    // The next visit sent the packet on no such link.
    fn skip(&mut self)
        requires left { 0 < length self.old.ahead }
        requires none { get_or self.old.ahead 0 false ≡ false }
        ensures past { self.new.past ≡ self.old.past ++ None ∷ [] }
        ensures ahead { self.new.ahead ≡ drop 1 self.old.ahead }
        ensures size { self.new.size ≡ self.old.size }
        ensures capacities { self.new.capacities ≡ self.old.capacities }
        ensures taps { taps_of self.new ≡ taps_of self.old }
    {
        self.done += 1;
    }

    // Whether the next visit sends the packet on a link with a tap.
    fn is_next(&self) -> bool
        requires { 0 < length self.now.ahead }
        ensures { result ≡ get_or self.now.ahead 0 false }
    {
        self.taps[self.done]
    }

    /// The next visit is done, and left the packet as these octets.
    pub(crate) fn cross(&mut self, octets: &[u8])
        requires left { 0 < length self.old.ahead }
        requires size { length octets.now ≡ self.old.size }
        ensures past { self.new.past ≡ self.old.past ++ sent_if (get_or self.old.ahead 0 false) octets.now ∷ [] }
        ensures ahead { self.new.ahead ≡ drop 1 self.old.ahead }
        ensures size { self.new.size ≡ self.old.size }
        ensures capacities { self.new.capacities ≡ self.old.capacities }
        ensures taps { taps_of self.new ≡ taps_of self.old }
    {
        if self.is_next() {
            self.push(octets);
        } else {
            self.skip();
        }
    }

    /// What a visit sent on a link with a tap, by its place; nothing yet where it is ahead.
    pub(crate) fn at(&self, visit: usize) -> Option<&[u8]>
        ensures small { IfSome result (λ octets. length octets.now ≤ 131072) }
        ensures sent { MatchOption result (joined (slice_get (crossings self.now) visit) ≡ None)
            (λ octets. joined (slice_get (crossings self.now) visit) ≡ Some octets.now) }
    {
        if visit >= self.taps.len() {
            return None;
        }
        if !self.taps[visit] {
            return None;
        }
        if visit >= self.done {
            return Some(&self.octets[..0]);
        }
        let start = filled(self.size, &self.taps[..visit]);
        Some(part(&self.octets, start, self.size))
    }

    /// For how many octets it has room in all.
    pub(crate) fn kept(&self) -> usize
        ensures value { result ≡ filled self.now.size (taps_of self.now) }
        ensures small { result ≤ 33554432 }
    {
        filled(self.size, &self.taps)
    }
}
