//! How many octets an export record has, and its element.
ghost use Rattle.std.specs.Prelude.{◌≡◌, ◌≤◌, length};
ghost use Rattle.ioam_data.specs.Elements.{IsFilled};
ghost use Rattle.ioam_data.specs.Written.{most_exported};
ghost use Rattle.ioam_dex.specs.Record.{Record, Rec, front_size, kind_of, element_of};

use crate::fields::{EXTENSIONS, TRACE_TYPE, VERSION, VISIT};
use crate::numbers::numbers_size;
use crate::visit::{has_visit, twelve_where};
use ioam_data::TraceType;

/// The most octets of a record: 30, and an element of `MOST_EXPORTED`.
pub const MOST_RECORD: usize = 274;

/// The most records of a file of export records.
pub const MOST_RECORDS: u32 = 67_108_864;

/// The octets in front of an element, by the version and the extension flags.
pub(crate) fn front_size(version: u8, ext: u8) -> usize
    ensures value { result ≡ front_size version ext }
    ensures small { result ≤ 30 }
{
    VISIT + twelve_where(has_visit(version)) + numbers_size(ext)
}

/// The type and the element of octets that are one record.
pub fn element_in(octets: &[u8]) -> (TraceType, &[u8])
    requires { (x : Record) × Rec octets.now x }
    ensures kind { result.0 ≡ kind_of octets.now }
    ensures element { result.1.now ≡ element_of octets.now }
    ensures filled { IsFilled result.0 result.1.now }
    ensures short { length result.1.now ≤ most_exported }
    // They are those that `export_of` reads.
    ensures says { (x : Record) → Rec octets.now x → (result.0 ≡ x.kind) × (result.1.now ≡ x.element) }
{
    let front = front_size(octets[VERSION], octets[EXTENSIONS]);
    (TraceType::at(octets, TRACE_TYPE), &octets[front..])
}
