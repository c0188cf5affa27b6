//! A part that is read in pieces.
ghost use Rattle.std.specs.Prelude.{◌≡◌, ◌+◌, ◌<◌, ◌^◌, ◌++◌, [], List, ℕ, IfOk, MatchOption, MatchResult, OnOk, length};

use crate::fault::PartFault;
use crate::head::{HEAD_SIZE, MARK_SIZE, count_of, cut_of};
use crate::progress::Progress;
use crate::taking::{place_of, take_shown};
use ioam_base::buffer::Buffer;
use ioam_base::memory::NoMemory;
use ioam_base::octets::u32_at;
use ioam_collect::{Collector, Ranking};
use ioam_dex::ExportReader;
use std::alloc::Global;
use std::marker::Model;

/// Why no collector was read.
#[derive(Clone, Copy, Debug, PartialEq, Eq)]
pub enum PartRefused {
    /// The octets are no part: the place of their first fault, and the fault.
    Fault(u64, PartFault),
    /// They are a part, of more records than may be held.
    Full,
    /// No memory could be had.
    NoMemory,
}

/// Reads a part out of any pieces of it. It keeps the collector that it reads, less than a record of the octets that are not
/// yet read, and those of the last piece.
#[derive(Drop)]
pub struct PartReader {
    head: Buffer,
    reader: ExportReader,
    progress: Progress,
}

impl Model for PartReader {
    ghost use Rattle.std.specs.Prelude.{◌≤◌, length};
    ghost use Rattle.ioam_part.specs.Reading.{PartReading};

    ghost Value = { PartReading };

    ghost view = { λ r. record { head = r.head; reading = r.reader; progress = r.progress } };

    ghost invariant = { λ r. length r.head ≤ 12 };
}

impl PartReader {
    ghost use Rattle.ioam_dex.specs.Reader as dex;
    ghost use Rattle.ioam_part.specs.Reading.{HoldsFew, IsReadAs, KeepsFew, RefusedBy, Stands, fault_of, fed, held};

    /// A reader that was fed nothing, of a part of at most so many records, below 2^31.
    pub fn new(alloc: Global, limit: u32) -> Result<PartReader, NoMemory>
        requires { limit < 2 ^ 31 }
        ensures stands { IfOk result (λ reader. Stands limit [] reader) }
        ensures fed { IfOk result (λ reader. fed reader ≡ 0) }
        ensures held { IfOk result (λ reader. held reader ≡ 0) }
    {
        Ok(PartReader {
            head: Buffer::new(),
            reader: ExportReader::new(alloc)?,
            progress: Progress {
                order: Ranking::new(alloc)?,
                collector: Collector::new(alloc, limit)?,
                given: 0,
                end: 0,
                full: false,
                fault: None,
            },
        })
    }

    /// The fault that was found so far and its place. The octets have it whatever follows them.
    pub fn fault(&self) -> Option<(u64, PartFault)>
        ensures { result ≡ fault_of self.now }
    {
        self.progress.fault
    }

    /// Feeds the next octets of the part, of which there are below 2^63 in all. Once a fault was found the reader
    /// stays as it is.
    pub fn feed(self, piece: &[u8]) -> Result<PartReader, NoMemory>
        requires { fed self + length piece.now < 2 ^ 63 }
        ensures stands { IfOk result (λ reader. (limit : ℕ) (octets : List ℕ) → Stands limit octets self
            → Stands limit (octets ++ piece.now) reader) }
        ensures few { IfOk result (λ reader. (limit : ℕ) (octets : List ℕ) → Stands limit octets self → HoldsFew reader) }
        ensures kept { IfOk result (λ reader. KeepsFew self (length piece.now) reader) }
    {
        let mut reader = self;
        reader.take_in(piece)?;
        Ok(reader)
    }

    // Takes in the next octets.
    fn take_in(&mut self, piece: &[u8]) -> Result<(), NoMemory>
        requires { fed self.old + length piece.now < 2 ^ 63 }
        ensures stands { OnOk result ((limit : ℕ) (octets : List ℕ) → Stands limit octets self.old
            → Stands limit (octets ++ piece.now) self.new) }
        ensures kept { OnOk result (KeepsFew self.old (length piece.now) self.new) }
    {
        if self.progress.fault.is_some() {
            return Ok(());
        }
        let free = HEAD_SIZE - self.head.octets().len();
        let filled = free.min(piece.len());
        self.head.append(&piece[..filled]);
        if self.head.octets().len() < HEAD_SIZE {
            return Ok(());
        }
        match count_of(self.head.octets()) {
            Ok(count) => {
                self.reader.feed(&piece[filled..])?;
                take_shown(&mut self.reader, &mut self.progress, count)
            }
            Err(bad) => {
                self.progress.fault = Some(bad);
                Ok(())
            }
        }
    }

    /// The collector of the part that was fed. A fault comes before `Full`.
    pub fn finish(self) -> Result<Collector, PartRefused>
        ensures { (limit : ℕ) (octets : List ℕ) → Stands limit octets self
            → MatchResult result (IsReadAs limit octets) (RefusedBy limit octets) }
    {
        match self.refusal() {
            Some(refused) => Err(refused),
            None => {
                let PartReader { progress, .. } = self;
                let Progress { collector, .. } = progress;
                Ok(collector)
            }
        }
    }

    // Why there is no collector, where there is none.
    fn refusal(&self) -> Option<PartRefused>
        ensures { (limit : ℕ) (octets : List ℕ) → Stands limit octets self.now
            → MatchOption result (IsReadAs limit octets self.now.progress.collector) (RefusedBy limit octets) }
    {
        if let Some((at, fault)) = self.progress.fault {
            return Some(PartRefused::Fault(at, fault));
        }
        let head = self.head.octets();
        let len = head.len();
        if len < HEAD_SIZE {
            let (at, fault) = cut_of(head);
            return Some(PartRefused::Fault(at, fault));
        }
        let count = u32_at(head, MARK_SIZE);
        let given = self.progress.given;
        if given < count {
            let left = self.reader.fed().saturating_sub(self.progress.end);
            let have = left.min(u64::from(u32::MAX)) as u32;
            let at = place_of(self.progress.end);
            return Some(PartRefused::Fault(at, PartFault::Short { have }));
        }
        let full = self.progress.full;
        if full {
            return Some(PartRefused::Full);
        }
        None
    }
}
