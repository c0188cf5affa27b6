//! A part that is read in pieces and kept as it is.
ghost use Rattle.std.specs.Prelude.{◌≡◌, ◌+◌, ◌<◌, ◌^◌, ◌++◌, [], List, ℕ, IfOk, MatchResult, drop, length};

use ioam_base::memory::NoMemory;
use ioam_base::text::append;
use ioam_dex::Records;
use ioam_part::{HEAD_SIZE, PartFault, PartReader, PartRefused};
use std::alloc::Global;
use std::marker::Model;

/// The octets of a part, which were read as one.
#[derive(Drop)]
pub struct PartOctets {
    octets: Vec<u8>,
}

impl Model for PartOctets {
    ghost use Rattle.std.specs.Prelude.{List, ℕ};

    ghost Value = { List ℕ };

    ghost view = { λ part. part.octets.items };

    ghost use Rattle.ioam_dex.specs.Record.{Record};
    ghost use Rattle.ioam_part.specs.Part.{IsPart};

    ghost invariant = { λ part. (xs : List Record) × IsPart part.octets.items xs };
}

impl PartOctets {
    /// The records of the part, one after another.
    pub(crate) fn records(&self) -> Records<'_>
        ensures { result ≡ drop 12 self.now }
    {
        Records::new(&self.octets[HEAD_SIZE..])
    }
}

/// Reads a part out of any pieces of it, and keeps its octets.
#[derive(Drop)]
pub struct PartKeeper {
    // It holds no record, and so says of a part with any that they are more than it may hold.
    reader: PartReader,
    octets: Vec<u8>,
}

impl Model for PartKeeper {
    ghost use Rattle.ioam_part_merge.specs.Keeping.{Keeping};

    ghost Value = { Keeping };

    ghost view = { λ keeper. record { reader = keeper.reader; octets = keeper.octets.items } };

    ghost use Rattle.ioam_part.specs.Reading.{Stands};

    ghost invariant = { λ keeper. Stands 0 keeper.octets.items keeper.reader };
}

impl PartKeeper {
    ghost use Rattle.ioam_part_merge.specs.Keeping.{IsWhole, Keeps, RefusedBy, fault_of, fed};

    /// A keeper that was fed nothing.
    pub fn new(alloc: Global) -> Result<PartKeeper, NoMemory>
        ensures keeps { IfOk result (Keeps []) }
    {
        Ok(PartKeeper {
            reader: PartReader::new(alloc, 0)?,
            octets: Vec::new(alloc),
        })
    }

    /// The fault that was found so far and its place. The octets have it whatever follows them.
    pub fn fault(&self) -> Option<(u64, PartFault)>
        ensures { result ≡ fault_of self.now }
    {
        self.reader.fault()
    }

    /// Feeds the next octets of the part, of which there are below 2^63 in all.
    pub fn feed(self, piece: &[u8]) -> Result<PartKeeper, NoMemory>
        requires { fed self + length piece.now < 2 ^ 63 }
        ensures keeps { IfOk result (λ keeper. (octets : List ℕ) → Keeps octets self → Keeps (octets ++ piece.now) keeper) }
    {
        let PartKeeper { reader, mut octets } = self;
        append(&mut octets, piece)?;
        Ok(PartKeeper {
            reader: reader.feed(piece)?,
            octets,
        })
    }

    /// The octets that were fed, where they are a part.
    pub fn finish(self) -> Result<PartOctets, PartRefused>
        ensures { (octets : List ℕ) → Keeps octets self → MatchResult result (IsWhole octets) (RefusedBy octets) }
    {
        let PartKeeper { reader, octets } = self;
        match reader.finish() {
            Ok(_) => Ok(PartOctets { octets }),
            Err(PartRefused::Full) => Ok(PartOctets { octets }),
            Err(PartRefused::Fault(at, fault)) => Err(PartRefused::Fault(at, fault)),
            Err(PartRefused::NoMemory) => Err(PartRefused::NoMemory),
        }
    }
}
