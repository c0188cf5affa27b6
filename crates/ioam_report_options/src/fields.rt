//! The fields that are printed of options of several kinds.
ghost use Rattle.std.specs.Prelude.{◌≡◌, ◌++◌, ◌+◌, ◌≤◌, length, decimal, is_ok, if◌then◌else◌};
ghost use Rattle.ioam_report_lines.specs.FieldsText.{known};
ghost use Rattle.ioam_report_lines.specs.Spaced.{when_there};
ghost use Rattle.ioam_report_options.specs.OptionText.{front_text, bad_text};

use crate::front::{Front, finish_line};
use ioam_base::memory::NoMemory;
use ioam_line::{Piece, Value};
use ioam_report_lines::ReportLine;

/// Puts a number in decimal digits, if it is there.
#[inline]
pub(crate) fn put_plain<'a>(
    label: &'a [u8],
    key: &'a [u8],
    field: Option<u64>,
    line: &mut ReportLine,
)
    requires names { length label.now + length key.now ≤ 26 }
    requires room { 50 + length line.old ≤ 1536 }
    ensures value { line.new ≡ when_there field (λ value. label.now ++ decimal value) ++ line.old }
    ensures size { length line.new ≤ 50 + length line.old }
{
    match field {
        None => {}
        Some(number) => line.put::<false>(Piece::Fact(label, key, Value::Number(number))),
    }
}

/// Puts a number of 32 bits in decimal digits, if it is there.
#[inline]
pub(crate) fn put_plain_narrow<'a>(
    label: &'a [u8],
    key: &'a [u8],
    field: Option<u32>,
    line: &mut ReportLine,
)
    requires names { length label.now + length key.now ≤ 26 }
    requires room { 50 + length line.old ≤ 1536 }
    ensures value { line.new ≡ when_there field (λ value. label.now ++ decimal value) ++ line.old }
    ensures size { length line.new ≤ 50 + length line.old }
{
    match field {
        None => {}
        Some(number) => {
            line.put::<false>(Piece::Fact(label, key, Value::Number(u64::from(number))));
        }
    }
}

/// Puts a part of a time stamp, `-` if it is all ones, if it is there.
#[inline]
pub(crate) fn put_stamp<'a>(
    label: &'a [u8],
    key: &'a [u8],
    field: Option<u32>,
    line: &mut ReportLine,
)
    requires names { length label.now + length key.now ≤ 26 }
    requires room { 50 + length line.old ≤ 1536 }
    ensures value { line.new ≡ when_there field (λ value. label.now ++ known 4294967295 value) ++ line.old }
    ensures size { length line.new ≤ 50 + length line.old }
{
    match field {
        None => {}
        Some(number) => {
            let value = Value::known(u64::from(number), 0xFFFF_FFFF);
            line.put::<false>(Piece::Fact(label, key, value));
        }
    }
}

/// Appends that the data of an option of this IOAM-Option-Type is not read.
pub(crate) fn put_bad(
    value: u8,
    front: Front,
    line: &mut ReportLine,
    out: &mut Vec<u8>,
) -> Result<(), NoMemory>
    ensures { out.new.items ≡ (if is_ok result
        then out.old.items ++ (front_text front.kind front.at ++ bad_text value)
        else out.old.items) }
{
    line.end::<false>();
    line.put::<false>(Piece::Fact(b"bad ", b"type", Value::Number(u64::from(value))));
    finish_line(front, line, out)
}
