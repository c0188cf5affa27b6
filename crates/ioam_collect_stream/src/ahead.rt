//! Records that come next: what adding them will search is read ahead.
ghost use Rattle.std.specs.Prelude.{◌≡◌, IsTrue};
ghost use Rattle.ioam_dex.specs.Reader.{Waits, held};

use ioam_base::fed::PIECE;
use ioam_base::memory::NoMemory;
use ioam_collect::{Collector, Key, SIDE_BY_SIDE};
use ioam_dex::{ExportReader, RecordRef, Shown};
use std::alloc::Global;
use std::marker::Model;

// So many octets are read ahead at most.
const MOST_OCTETS: u64 = (1 << 62) - 1;

/// A second reader of the same octets, which is some records ahead. It tells what may be read ahead, and nothing else
/// depends on it. It holds less than a record, of 274 octets, and a piece.
#[derive(Drop)]
pub(crate) struct Ahead {
    reader: ExportReader,
    // how many records it is ahead
    lead: usize,
    // how many items were read ahead: a sum that is kept, or the reading would be left out of the program
    read: usize,
}

impl Model for Ahead {
    ghost use Rattle.std.specs.Prelude.{◌+◌, ◌<◌};
    ghost use Rattle.ioam_dex.specs.Reading.{Reading};
    ghost use Rattle.ioam_dex.specs.Reader.{held};

    ghost Value = { Reading };

    ghost view = { λ ahead. ahead.reader };

    ghost invariant = { λ ahead. (held ahead.reader < 274 + 65536) × (ahead.lead < 16) };
}

// The key of the next record.
fn next_key(reader: &mut ExportReader) -> Option<Key>
    ensures { held reader.new ≡ held reader.old }
{
    match reader.show() {
        Shown::Record(octets) => Key::of(&RecordRef::new(octets)),
        Shown::More => None,
        Shown::Bad { .. } => None,
    }
}

// The keys of the next records.
fn next_keys(reader: &mut ExportReader) -> [Option<Key>; SIDE_BY_SIDE]
    ensures { held reader.new ≡ held reader.old }
{
    let mut keys = [None; SIDE_BY_SIDE];
    'records: for key in keys.iter_mut() {
        *key = next_key(reader);
    }
    keys
}

// Whether more octets are needed for the next record, which has no fault so far.
fn waits(reader: &mut ExportReader) -> bool
    ensures waits { IsTrue result → Waits reader.new }
    ensures held { held reader.new ≡ held reader.old }
{
    matches!(reader.show(), Shown::More)
}

impl Ahead {
    // A reader that was fed nothing.
    pub(crate) fn new(alloc: Global) -> Result<Ahead, NoMemory> {
        Ok(Ahead {
            reader: ExportReader::new(alloc)?,
            lead: 0,
            read: 0,
        })
    }

    /// Feeds the octets that the first reader is fed, where all records of those before were read. Where that isn't so, a
    /// piece is missing here for want of memory, and what would be read is of no use.
    pub(crate) fn feed(&mut self, piece: &[u8]) {
        self.lead = 0;
        if !waits(&mut self.reader) {
            return;
        }
        if self.reader.fed() > MOST_OCTETS || piece.len() > PIECE {
            return;
        }
        let Ok(()) = self.reader.feed(piece) else {
            return;
        };
    }

    /// To be called before each record is taken: reads ahead what adding this record and the next ones will search.
    pub(crate) fn go_on(&mut self, collector: &Collector) {
        if self.lead > 0 {
            self.lead -= 1;
            return;
        }
        let keys = next_keys(&mut self.reader);
        self.read = self.read.wrapping_add(collector.read_ahead(&keys));
        self.lead = SIDE_BY_SIDE - 1;
    }
}
