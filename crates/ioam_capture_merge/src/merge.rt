//! Several captures that are merged by time.
ghost use Rattle.std.specs.Prelude.{◌≡◌, ◌<◌, ◌≤◌, ◌+◌, ◌++◌, [], ℕ, Bool, List, false, IfOk, OnOk, length, vec_len};
ghost use Rattle.ioam_capture.specs.Merge.{Arrival};
ghost use Rattle.ioam_capture_merge.specs.Merge.{AreKnown, IsEnded, IsFed, IsMerging, IsShortOf, Merging, ShowsOne, Shows, Turns, room_of};

use crate::capture::Capture;
use ioam_base::memory::NoMemory;
use ioam_capture::{Due, Reader, Turn, next_turn};
use std::alloc::Global;

/// Several captures, merged by time.
#[derive(Drop)]
pub struct Merge {
    /// The captures, in the order of their names.
    pub captures: Vec<Capture>,
    /// What is due of each, as far as it is known: `More` if the capture has to be asked.
    pub dues: Vec<Due>,
}

impl Merge {
    /// `count` captures, of which nothing was handed out.
    pub fn new(alloc: Global, count: usize) -> Result<Merge, NoMemory>
        ensures { IfOk result (Merging count (λ k. []) (λ k. false) []) }
    {
        let mut merge = Merge {
            captures: Vec::with_capacity(alloc, count)?,
            dues: Vec::with_capacity(alloc, count)?,
        };
        'captures: for _index in 0..count {
            let reader = Reader::new(alloc)?;
            merge.captures.push(Capture {
                reader,
                ended: false,
            })?;
            merge.dues.push(Due::More)?;
        }
        Ok(merge)
    }

    // Asks one capture what is due of it, if that isn't known. The answer is false if more of it is needed.
    fn show_one(&mut self, place: usize) -> Result<bool, NoMemory>
        requires inside { place < vec_len self.old.captures }
        requires merging { IsMerging self.old }
        ensures shown { IfOk result (λ known. (n : ℕ) (fed : ℕ → List ℕ) (ended : ℕ → Bool) (taken : List Arrival) → Merging n fed ended taken self.old
            → AreKnown place self.old → ShowsOne n fed ended taken self.new place known) }
        ensures count { vec_len self.new.captures ≡ vec_len self.old.captures }
        ensures room { room_of self.new.captures.items ≡ room_of self.old.captures.items }
    {
        match self.dues[place] {
            Due::More => {}
            _ => return Ok(true),
        }
        let capture = &mut self.captures[place];
        match capture.reader.due(capture.ended)? {
            Due::More => Ok(false),
            due => {
                self.dues[place] = due;
                Ok(true)
            }
        }
    }

    /// Asks the captures in their order what is due of them. The answer is the index of the first of which more is needed, or
    /// none: then it is known what is due of all.
    pub fn show(&mut self) -> Result<Option<usize>, NoMemory>
        requires { IsMerging self.old }
        ensures shows { IfOk result (λ short. (n : ℕ) (fed : ℕ → List ℕ) (ended : ℕ → Bool) (taken : List Arrival) → Merging n fed ended taken self.old
            → Shows n fed ended taken self.new short) }
        ensures room { room_of self.new.captures.items ≡ room_of self.old.captures.items }
    {
        'captures: for place in 0..self.captures.len() {
            match self.show_one(place) {
                Ok(true) => {}
                Ok(false) => return Ok(Some(place)),
                Err(NoMemory) => return Err(NoMemory),
            }
        }
        Ok(None)
    }

    /// What comes next, once it is known what is due of all.
    pub fn turn(&self) -> Turn
        ensures { (n : ℕ) (fed : ℕ → List ℕ) (ended : ℕ → Bool) (taken : List Arrival) → Merging n fed ended taken self.now → AreKnown n self.now
            → Turns n fed ended taken self.now result }
    {
        next_turn(&self.dues)
    }

    /// Hands out a piece, of at most 65,536 octets, of a capture of which more is needed.
    pub fn feed(&mut self, place: usize, piece: &[u8]) -> Result<(), NoMemory>
        requires short { IsShortOf self.old place }
        requires some { 0 < length piece.now }
        requires few { length piece.now ≤ 65536 }
        ensures fed { OnOk result ((n : ℕ) (fed : ℕ → List ℕ) (ended : ℕ → Bool) (after_fed : ℕ → List ℕ) (after_ended : ℕ → Bool) (taken : List Arrival)
            → IsFed place piece.now fed ended after_fed after_ended → Merging n fed ended taken self.old → ended place ≡ false → Merging n after_fed after_ended taken self.new) }
        ensures room { OnOk result (room_of self.new.captures.items < room_of self.old.captures.items) }
    {
        self.captures[place].reader.feed(piece)
    }

    /// Notes the end of a capture of which more is needed.
    pub fn end(&mut self, place: usize)
        requires { IsShortOf self.old place }
        ensures ended { (n : ℕ) (fed : ℕ → List ℕ) (ended : ℕ → Bool) (after_fed : ℕ → List ℕ) (after_ended : ℕ → Bool) (taken : List Arrival)
            → IsEnded place fed ended after_fed after_ended → Merging n fed ended taken self.old → ended place ≡ false → Merging n after_fed after_ended taken self.new }
        ensures room { room_of self.new.captures.items < room_of self.old.captures.items }
    {
        self.captures[place].ended = true;
    }
}
