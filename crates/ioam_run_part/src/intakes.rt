//! What takes the octets of a file that is read as a part: to its end or to its first fault, and at most 300,000,000.
ghost use Rattle.std.specs.Prelude.{◌≡◌};

use ioam_base::memory::NoMemory;
use ioam_desk::{Intake, PIECE};
use ioam_part::PartReader;
use ioam_part_merge::PartKeeper;

// At most this number of octets of a file is read. No part has as many.
const MOST_OCTETS: usize = 300_000_000;

/// Takes a part for its records.
#[derive(Drop)]
pub(crate) struct HeldIntake {
    pub(crate) reader: PartReader,
    // how many octets may still be read
    left: usize,
}

impl HeldIntake {
    pub(crate) fn new(reader: PartReader) -> HeldIntake
        ensures reader { result.reader ≡ reader }
        ensures left { result.left ≡ 300000000 }
    {
        HeldIntake {
            reader,
            left: MOST_OCTETS,
        }
    }
}

impl Intake for HeldIntake {
    ghost use Rattle.ioam_run_part.specs.Intakes.{TakesHeld, is_decided};

    ghost stands = { TakesHeld };

    ghost full = { λ intake. is_decided intake.reader intake.left };

    ghost room = { λ intake. intake.left };

    fn is_full(&self) -> bool {
        self.reader.fault().is_some() || self.left < PIECE
    }

    fn take(self, piece: &[u8]) -> Result<HeldIntake, NoMemory> {
        let HeldIntake { reader, left } = self;
        Ok(HeldIntake {
            reader: reader.feed(piece)?,
            left: left - piece.len(),
        })
    }
}

/// Takes a part as its octets.
#[derive(Drop)]
pub(crate) struct FlatIntake {
    pub(crate) keeper: PartKeeper,
    // how many octets may still be read
    left: usize,
}

impl FlatIntake {
    pub(crate) fn new(keeper: PartKeeper) -> FlatIntake
        ensures keeper { result.keeper ≡ keeper }
        ensures left { result.left ≡ 300000000 }
    {
        FlatIntake {
            keeper,
            left: MOST_OCTETS,
        }
    }
}

impl Intake for FlatIntake {
    ghost use Rattle.ioam_run_part.specs.Intakes.{TakesFlat, is_decided};

    ghost stands = { TakesFlat };

    ghost full = { λ intake. is_decided intake.keeper.reader intake.left };

    ghost room = { λ intake. intake.left };

    fn is_full(&self) -> bool {
        self.keeper.fault().is_some() || self.left < PIECE
    }

    fn take(self, piece: &[u8]) -> Result<FlatIntake, NoMemory> {
        let FlatIntake { keeper, left } = self;
        Ok(FlatIntake {
            keeper: keeper.feed(piece)?,
            left: left - piece.len(),
        })
    }
}
