//! How many notes of each kind there were.
ghost use Rattle.std.specs.Prelude.{◌≡◌};
ghost use Rattle.ioam_edge.specs.Noted.{no_counts, counted};

use crate::note::Note;

/// How many of each kind were noted.
#[derive(Clone, Copy, Debug, PartialEq, Eq)]
pub(crate) struct Counts {
    pub gaps: u64,
    pub missed: u64,
    pub late: u64,
    pub repeats: u64,
}

impl Counts {
    /// None of any kind.
    pub(crate) fn none() -> Counts
        ensures { result ≡ no_counts }
    {
        Counts {
            gaps: 0,
            missed: 0,
            late: 0,
            repeats: 0,
        }
    }

    /// One note more.
    pub(crate) fn count(&mut self, note: Note)
        ensures { self.new ≡ counted self.old note }
    {
        match note {
            Note::Next => {}
            Note::Gap { missed } => {
                self.gaps = self.gaps.saturating_add(1);
                self.missed = self.missed.saturating_add(missed);
            }
            Note::Late => self.late = self.late.saturating_add(1),
            Note::Repeat => self.repeats = self.repeats.saturating_add(1),
        }
    }
}
