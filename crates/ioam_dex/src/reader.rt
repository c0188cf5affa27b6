//! A reader of export records that is fed in pieces.
ghost use Rattle.std.specs.Prelude.{◌≡◌, ◌+◌, ◌≤◌, ◌<◌, ◌^◌, ◌++◌, [], List, ℕ, length, drop, IfOk, MatchOption, OnErr, OnOk, vec_len};
ghost use Rattle.std.specs.Borrow.{sem};

use crate::export::{Export, ExportFault};
use crate::head::RecordStep;
use crate::step::record_step;
use ioam_base::fed::Fed;
use ioam_base::memory::NoMemory;
use std::alloc::Global;
use std::marker::Model;

/// What a reader shows next of its input.
#[derive(Clone, Copy, Debug)]
pub enum Step<'a> {
    /// A record was read.
    Export(Export<'a>),
    /// More octets are needed, or the input's end.
    More,
    /// At this place of the input begins a record that is faulty.
    Bad { at: u64, fault: ExportFault },
}

/// What a reader shows next of its input, where a record is shown by its octets.
#[derive(Clone, Copy, Debug)]
pub enum Shown<'a> {
    /// These octets are a record.
    Record(&'a [u8]),
    /// More octets are needed, or the input's end.
    More,
    /// At this place of the input begins a record that is faulty.
    Bad { at: u64, fault: ExportFault },
}

/// Reads export records out of any pieces of them.
///
/// It keeps the octets that were fed and not yet taken, and those that it gave until it is fed again: no
/// more than one record and one piece, where each piece is fed after `next` answered `More`.
#[derive(Drop)]
pub struct ExportReader {
    octets: Fed,
}

impl Model for ExportReader {
    ghost use Rattle.std.specs.Prelude.{length};
    ghost use Rattle.ioam_dex.specs.Reading.{Reading};

    ghost Value = { Reading };

    ghost view = { λ r. record { start = r.octets.start; pending = r.octets.pending; given = length r.octets.given } };
}

impl ExportReader {
    ghost use Rattle.ioam_dex.specs.declared.export.ExportFault.TheVariants.{Short};
    ghost use Rattle.ioam_dex.specs.Record.{Record};
    ghost use Rattle.ioam_dex.specs.Reads.{Reads, ReadsOnly};
    ghost use Rattle.ioam_dex.specs.Reader.{Stands, Waits, KeepsFault, RestsSo, fresh, fed, held, ending_of};
    ghost use Rattle.ioam_dex.specs.Showing.{ShowsSo};

    /// A reader that was fed nothing.
    pub fn new(alloc: Global) -> Result<ExportReader, NoMemory>
        ensures exact { IfOk result (λ reader. reader ≡ fresh) }
        ensures stands { IfOk result (λ reader. Stands reader [] []) }
    {
        let octets = Fed::new(alloc)?;
        Ok(ExportReader { octets })
    }

    /// How many octets were fed in all.
    pub fn fed(&self) -> u64
        ensures { result ≡ fed self.now }
    {
        self.octets.fed()
    }

    /// Feeds the next octets of the input, of which there are below 2^63 in all. It keeps none of the
    /// octets that it gave.
    pub fn feed(&mut self, piece: &[u8]) -> Result<(), NoMemory>
        requires { fed self.old + length piece.now < 2 ^ 63 }
        ensures ok { OnOk result (self.new
            ≡ record self.old { pending = self.old.pending ++ piece.now; given = 0 }) }
        ensures stands { OnOk result ((octets : List ℕ) (records : List Record)
            → Stands self.old octets records
            → Stands self.new (octets ++ piece.now) records) }
        // A fault of what is due stays, whatever is fed.
        ensures faulty { OnOk result (KeepsFault self.old self.new) }
        ensures err { OnErr result (self.new ≡ self.old) }
        // It keeps what was pending and the piece.
        ensures held { OnOk result (held self.new ≡ length self.old.pending + length piece.now) }
    {
        self.octets.feed(piece)
    }

    /// The next record of the input. After `Bad` every call answers the same.
    pub fn next(&mut self) -> Step<'_>
        ensures* { sem 𝓛 (RestsSo self.entry result) }
    {
        match record_step(self.octets.pending()) {
            RecordStep::Whole(head) => {
                self.octets.take(head.size);
                let element = self.octets.taken(head.size - head.front);
                Step::Export(head.with_element(element))
            }
            RecordStep::Cut => Step::More,
            RecordStep::Bad(fault) => Step::Bad {
                at: self.octets.start(),
                fault,
            },
        }
    }

    /// The octets of the next record of the input. After `Bad` every call answers the same.
    pub fn show(&mut self) -> Shown<'_>
        ensures* { sem 𝓛 (ShowsSo self.entry result) }
    {
        match record_step(self.octets.pending()) {
            RecordStep::Whole(head) => {
                self.octets.take(head.size);
                Shown::Record(self.octets.taken(head.size))
            }
            RecordStep::Cut => Shown::More,
            RecordStep::Bad(fault) => Shown::Bad {
                at: self.octets.start(),
                fault,
            },
        }
    }

    /// What an ended input leaves over, once `next` answered `More`: nothing where its last record is
    /// whole, else the place of the record that is cut, and how many octets of it are there.
    pub fn finish(&self) -> Option<(u64, ExportFault)>
        requires { Waits self.now }
        ensures left { MatchOption result (self.now.pending ≡ [])
            (λ cut. (cut ≡ (self.now.start, Short (length self.now.pending))) × (0 < length self.now.pending)) }
        ensures reads { (octets : List ℕ) (records : List Record) → Stands self.now octets records
            → Reads octets records (ending_of result) }
        // The records don't depend on the pieces in which the octets were fed: these alone are read of them.
        ensures only { (octets : List ℕ) (records : List Record) → Stands self.now octets records
            → ReadsOnly octets records (ending_of result) }
    {
        self.left_over()
    }

    // What an ended input leaves over, by the rules alone.
    fn left_over(&self) -> Option<(u64, ExportFault)>
        requires { Waits self.now }
        ensures left { MatchOption result (self.now.pending ≡ [])
            (λ cut. (cut ≡ (self.now.start, Short (length self.now.pending))) × (0 < length self.now.pending)) }
        ensures reads { (octets : List ℕ) (records : List Record) → Stands self.now octets records
            → Reads octets records (ending_of result) }
    {
        let have = self.octets.pending().len();
        if have == 0 {
            return None;
        }
        Some((
            self.octets.start(),
            ExportFault::Short { have: have as u32 },
        ))
    }
}
