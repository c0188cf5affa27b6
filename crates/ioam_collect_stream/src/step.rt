//! The records that a reader shows, which are regrouped.
ghost use Rattle.std.specs.Prelude.{◌≡◌, ◌≤◌, IfOk, OnOk, length};
ghost use Rattle.ioam_dex.specs.Reader.{fed};
ghost use Rattle.ioam_dex.specs.RecordRef.{content};
ghost use Rattle.ioam_collect_stream.specs.Gathering.{SaysLimit, Shows, Steps, most_held, most_of};

use crate::ahead::Ahead;
use ioam_base::memory::NoMemory;
use ioam_collect::{Collector, MOST_HELD};
use ioam_dex::{ExportFault, ExportReader, MOST_RECORDS, RecordRef, Shown};

/// What there is another record past.
#[derive(Clone, Copy)]
pub enum Limit {
    /// As many records are held as may be.
    Held,
    /// As many were read as may be.
    Read,
}

impl Limit {
    /// How many that are.
    pub fn records(self) -> u32
        ensures { result ≡ most_of self }
    {
        match self {
            Limit::Held => MOST_HELD,
            Limit::Read => MOST_RECORDS,
        }
    }
}

/// Why no record was taken.
#[derive(Clone, Copy)]
pub(crate) enum Pause {
    /// More octets are needed, or the input's end.
    More,
    /// At this place of the input a record is faulty.
    Bad { at: u64, fault: ExportFault },
    /// There is a record past a limit.
    Limit { limit: Limit },
}

// Which limit a record passes where as many were read as may be. Where it would be one too many to be
// held too, that is said.
fn passed_limit(collector: &mut Collector, export: &RecordRef<'_>) -> Limit
    ensures says { SaysLimit collector.old (content export.now) (most_of result) }
    ensures same { collector.new ≡ collector.old }
{
    if collector.is_full_for(export) {
        Limit::Held
    } else {
        Limit::Read
    }
}

// Takes the next record that the octets fed so far show. The answer is None where one was taken.
fn step(reader: &mut ExportReader, collector: &mut Collector) -> Result<Option<Pause>, NoMemory>
    requires { collector.old.limit ≡ most_held }
    ensures stepped { IfOk result (Steps reader.old reader.new collector.old collector.new) }
    ensures fed { fed reader.new ≡ fed reader.old }
    ensures limit { collector.new.limit ≡ collector.old.limit }
{
    match reader.show() {
        Shown::Record(octets) => {
            let export = RecordRef::new(octets);
            if collector.read() >= u64::from(MOST_RECORDS) {
                let limit = passed_limit(collector, &export);
                return Ok(Some(Pause::Limit { limit }));
            }
            let added = collector.add(&export)?;
            if added.is_full() {
                return Ok(Some(Pause::Limit { limit: Limit::Held }));
            }
            Ok(None)
        }
        Shown::More => Ok(Some(Pause::More)),
        Shown::Bad { at, fault } => Ok(Some(Pause::Bad { at, fault })),
    }
}

/// Takes all records that the octets fed so far show whole, and says why no other.
pub(crate) fn take_shown(
    reader: &mut ExportReader,
    ahead: &mut Ahead,
    collector: &mut Collector,
) -> Result<Pause, NoMemory>
    requires { collector.old.limit ≡ most_held }
    ensures shown { IfOk result (Shows reader.old reader.new collector.old collector.new) }
    ensures fewer { OnOk result (length reader.new.pending ≤ length reader.old.pending) }
    ensures fed { fed reader.new ≡ fed reader.old }
    ensures limit { collector.new.limit ≡ collector.old.limit }
{
    'records: loop {
        ahead.go_on(collector);
        match step(reader, collector)? {
            None => {}
            Some(pause) => return Ok(pause),
        }
    }
}
