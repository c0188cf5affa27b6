//! Export records one after another.
ghost use Rattle.std.specs.Prelude.{◌≡◌, ◌++◌, [], MatchOption};
ghost use Rattle.ioam_dex.specs.RecordRef.{AreRecords};

use crate::fields::LENGTH;
use crate::record_ref::RecordRef;
use ioam_base::octets::u16_at;
use std::marker::Model;

/// Whole export records, one after another, by their octets.
#[derive(Drop)]
pub struct Records<'a> {
    octets: &'a [u8],
}

impl<'a> Model for Records<'a> {
    ghost use Rattle.std.specs.Prelude.{List, ℕ};
    ghost use Rattle.ioam_dex.specs.RecordRef.{AreRecords};

    ghost Value = { List ℕ };

    ghost view = { λ inside. inside.octets.now };

    ghost invariant = { λ inside. AreRecords inside.octets.now };
}

impl<'a> Records<'a> {
    /// The records that `octets` are.
    pub fn new(octets: &'a [u8]) -> Records<'a>
        requires { AreRecords octets.now }
        ensures { result ≡ octets.now }
    {
        Records { octets }
    }

    /// The next record, if there is one.
    pub fn next(&mut self) -> Option<RecordRef<'a>>
        ensures { MatchOption result ((self.old ≡ []) × (self.new ≡ [])) (λ first. self.old ≡ first.octets.now ++ self.new) }
    {
        let octets = self.octets;
        if octets.is_empty() {
            return None;
        }
        let size = usize::from(u16_at(octets, LENGTH));
        let (first, others) = octets.split_at(size);
        self.octets = others;
        Some(RecordRef::new(first))
    }
}
