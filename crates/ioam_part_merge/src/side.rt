//! One of two parts that are walked.
ghost use Rattle.std.specs.Prelude.{◌≡◌, ◌≤◌, All, List, length};
ghost use Rattle.ioam_dex.specs.Reads.{records_octets};
ghost use Rattle.ioam_dex.specs.Record.{IsRecord, Record};
ghost use Rattle.ioam_part.specs.Part.{HasKey};

use ioam_dex::{RecordRef, Records};

/// One of two parts that are walked: the record that is next, if any, and those after it.
#[derive(Drop)]
pub(crate) struct Side<'a> {
    pub(crate) next: Option<RecordRef<'a>>,
    pub(crate) behind: Records<'a>,
}

impl<'a> Side<'a> {
    ghost use Rattle.ioam_part_merge.specs.Walk.{IsSide, left_of};

    /// The side of `records`, which have keys.
    pub(crate) fn new(records: Records<'a>) -> Side<'a>
        ensures { (xs : List Record) → All IsRecord xs → All HasKey xs → records.entry ≡ records_octets xs → IsSide result xs }
    {
        let mut behind = records;
        let next = behind.next();
        Side { next, behind }
    }

    /// Takes the next record off, if there is one.
    pub(crate) fn take(&mut self) -> Option<RecordRef<'a>>
        ensures next { result ≡ self.old.next }
        ensures is { (xs : List Record) → All IsRecord xs → All HasKey xs → self.old.behind ≡ records_octets xs → IsSide self.new xs }
        ensures fewer { left_of self.new ≤ length self.old.behind }
    {
        let next = self.next;
        self.next = self.behind.next();
        next
    }
}
