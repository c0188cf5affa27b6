//! A receiver of sequence numbers.
ghost use Rattle.std.specs.Prelude.{◌≡◌, ◌==◌, [], ◌∷◌, ◌++◌, List, ℕ, if◌then◌else◌};
ghost use Rattle.ioam_edge.specs.declared.note.Note.TheVariants.{Next, Gap};

use crate::counts::Counts;
use crate::note::{Note, Tally};
use crate::window::{holds, moved, set};

/// Sorts sequence numbers as they are received: in order, late, repeated, or behind a gap. Of the
/// numbers up to the greatest it remembers the last 64: the greatest and those less than 64 below it.
#[derive(Clone, Copy, Debug)]
pub struct Receiver {
    greatest: Option<u64>,
    // bit k tells whether the number k below the greatest was noted
    window: u64,
    counts: Counts,
}

impl Receiver {
    ghost use Rattle.ioam_edge.specs.Noted.{due, note_of, tally_of};
    ghost use Rattle.ioam_edge.specs.Receiver.{Marks, Stands, above, tally_in};

    /// A receiver that noted nothing.
    pub fn new() -> Receiver
        ensures { Stands result [] }
    {
        Receiver {
            greatest: None,
            window: 0,
            counts: Counts::none(),
        }
    }

    // What a number tells of those noted before it.
    fn answer(&self, seq: u64) -> Note
        ensures { (noted : List ℕ) → Stands self.now noted → result ≡ note_of noted seq }
    {
        match self.greatest {
            None => passed(seq),
            Some(greatest) if greatest < seq => passed(seq - greatest - 1),
            Some(greatest) => {
                if holds(self.window, greatest - seq) {
                    Note::Repeat
                } else {
                    Note::Late
                }
            }
        }
    }

    // Marks a number in the window.
    fn mark(&mut self, seq: u64)
        ensures counts { self.new.counts ≡ self.old.counts }
        ensures greatest { (noted : List ℕ) → Stands self.old noted
            → above self.new.greatest ≡ due (noted ++ seq ∷ []) }
        ensures window { (noted : List ℕ) → Stands self.old noted → Marks self.new.window (noted ++ seq ∷ []) }
    {
        match self.greatest {
            None => {
                self.window = 1;
                self.greatest = Some(seq);
            }
            Some(greatest) if greatest < seq => {
                self.window = moved(self.window, seq - greatest);
                self.greatest = Some(seq);
            }
            Some(greatest) => self.window = set(self.window, greatest - seq),
        }
    }

    /// Notes a number, and tells what it is.
    pub fn note(&mut self, seq: u64) -> Note
        ensures note { (noted : List ℕ) → Stands self.old noted → result ≡ note_of noted seq }
        ensures stands { (noted : List ℕ) → Stands self.old noted → Stands self.new (noted ++ seq ∷ []) }
    {
        let note = self.answer(seq);
        self.mark(seq);
        self.counts.count(note);
        note
    }

    /// What was noted in all.
    pub fn tally(&self) -> Tally
        ensures held { result ≡ tally_in self.now }
        ensures noted { (noted : List ℕ) → Stands self.now noted → result ≡ tally_of noted }
    {
        let next = match self.greatest {
            None => Some(0),
            Some(greatest) => greatest.checked_add(1),
        };
        Tally {
            next,
            gaps: self.counts.gaps,
            missed: self.counts.missed,
            late: self.counts.late,
            repeats: self.counts.repeats,
        }
    }
}

// What a number tells behind which none so great was noted, so many being passed over.
fn passed(missed: u64) -> Note
    ensures { result ≡ (if missed == 0 then Next else Gap missed) }
{
    if missed == 0 {
        Note::Next
    } else {
        Note::Gap { missed }
    }
}
