//! Records that are taken off a part, one after the other.
ghost use Rattle.std.specs.Prelude.{◌≡◌, ◌∷◌, ◌++◌, ◌+◌, ◌<◌, ◌^◌, [], ℕ, List, None, IfOk, OnOk, length};
ghost use Rattle.std.specs.Bool.{OnTrue};
ghost use Rattle.ioam_dex.specs.Reader.{held};
ghost use Rattle.ioam_dex.specs.Record.{Record, record_octets};
ghost use Rattle.ioam_dex.specs.RecordRef.{content};
ghost use Rattle.ioam_part.specs.Part.{AreInOrder};
ghost use Rattle.ioam_part.specs.Reading.{Goes, Holds, Stops, Took, Turns};

use crate::fault::PartFault;
use crate::head::HEAD_SIZE;
use crate::progress::Progress;
use ioam_base::memory::NoMemory;
use ioam_dex::{ExportReader, RecordRef, Shown};

/// The place in the part of what stands so far behind its head.
pub(crate) fn place_of(end: u64) -> u64
    ensures { end < 2 ^ 63 → result ≡ 12 + end }
{
    end.saturating_add(HEAD_SIZE as u64)
}

// Lets the collector hold a record, if it isn't full.
fn hold(progress: &mut Progress, export: &RecordRef<'_>) -> Result<(), NoMemory>
    ensures holds { OnOk result ((limit : ℕ) (xs : List Record) → AreInOrder (xs ++ content export.now ∷ [])
        → Holds limit progress.old.full progress.old.collector xs
        → Holds limit progress.new.full progress.new.collector (xs ++ content export.now ∷ [])) }
    ensures others { progress.new ≡ record progress.old { collector = progress.new.collector; full = progress.new.full } }
{
    if progress.full {
        return Ok(());
    }
    let added = progress.collector.add(export)?;
    progress.full = added.is_full();
    Ok(())
}

// The octets of a record.
fn size_of(export: &RecordRef<'_>) -> u64
    ensures { result ≡ length (record_octets (content export.now)) }
{
    export.octets.len() as u64
}

// Takes a record. False if it may not stand after the last one, which is the fault then.
fn take(progress: &mut Progress, export: &RecordRef<'_>) -> Result<bool, NoMemory>
    ensures { IfOk result (λ fits. Goes progress.old (content export.now) fits progress.new) }
{
    if !progress.order.push(export) {
        progress.fault = Some((place_of(progress.end), PartFault::Order));
        return Ok(false);
    }
    hold(progress, export)?;
    progress.given = progress.given.saturating_add(1);
    progress.end = progress.end.saturating_add(size_of(export));
    Ok(true)
}

// Takes the next record that the octets fed so far show, of so many in all. False where none was taken.
fn take_next(
    reader: &mut ExportReader,
    progress: &mut Progress,
    count: u32,
) -> Result<bool, NoMemory>
    ensures turns { IfOk result (λ more. (limit : ℕ) (body : List ℕ) (xs : List Record) → progress.old.fault ≡ None
        → Took count limit body xs reader.old progress.old → Turns count limit body xs more reader.new progress.new) }
    ensures shorter { IfOk result (λ more. OnTrue more (length reader.new.pending < length reader.old.pending)) }
    ensures held { held reader.new ≡ held reader.old }
{
    if progress.given >= count {
        if reader.fed() == progress.end {
            return Ok(false);
        }
        progress.fault = Some((place_of(progress.end), PartFault::Rest));
        return Ok(false);
    }
    match reader.show() {
        Shown::Record(octets) => take(progress, &RecordRef::new(octets)),
        Shown::More => Ok(false),
        Shown::Bad { at, fault } => {
            progress.fault = Some((place_of(at), PartFault::Record { fault }));
            Ok(false)
        }
    }
}

/// Takes all records that the octets fed so far show, of so many in all.
pub(crate) fn take_shown(
    reader: &mut ExportReader,
    progress: &mut Progress,
    count: u32,
) -> Result<(), NoMemory>
    ensures stops { OnOk result ((limit : ℕ) (body : List ℕ) (xs : List Record) → progress.old.fault ≡ None
        → Took count limit body xs reader.old progress.old
        → (ys : List Record) × Stops count limit body ys reader.new progress.new) }
    ensures held { OnOk result (held reader.new ≡ held reader.old) }
{
    'records: loop {
        if !take_next(reader, progress, count)? {
            return Ok(());
        }
    }
}
