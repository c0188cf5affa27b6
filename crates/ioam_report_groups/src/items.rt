//! The lines of records.
ghost use Rattle.std.specs.Prelude.{◌≡◌, ◌+◌, ◌≤◌, ◌++◌, ◌⊎◌, length, is_ok, if◌then◌else◌};
ghost use Rattle.std.specs.List.{AllByRecursion, flat_map};
ghost use Rattle.ioam_data.specs.Elements.{IsFilled};
ghost use Rattle.ioam_data.specs.Written.{most_exported};
ghost use Rattle.ioam_dex.specs.Record.{Record, Rec, kind_of, element_of};
ghost use Rattle.ioam_collect.specs.Keyed.{IsOfRecord};
ghost use Rattle.ioam_report_groups.specs.GroupsText.{visit_text, record_line, item_line};

use ioam_base::memory::NoMemory;
use ioam_base::text::settle;
use ioam_data::TraceType;
use ioam_dex::{element_in, visit_at};
use ioam_line::{Piece, Value};
use ioam_pool::{Item, Items};
use ioam_report_lines::{ReportLine, put_element, put_trace_type};

// Puts a visit, if it is there.
fn put_visit(extra: &[u8], line: &mut ReportLine)
    requires extra { (length extra.now ≡ 0) ⊎ (length extra.now ≡ 12) }
    requires room { 100 + length line.old ≤ 1536 }
    ensures value { line.new ≡ visit_text extra.now ++ line.old }
    ensures size { length line.new ≤ 100 + length line.old }
{
    if extra.is_empty() {
        return;
    }
    let (time, inward) = visit_at(extra, 0);
    let inward = Value::Number(u64::from(inward));
    line.put::<false>(Piece::Fact(b" from=", b"arrival_if", inward));
    line.put::<false>(Piece::Fact(b" at=", b"arrival_time", Value::Number(time)));
}

// Appends the line of a record.
fn put_line(
    kind: TraceType,
    element: &[u8],
    extra: &[u8],
    line: &mut ReportLine,
    out: &mut Vec<u8>,
) -> Result<(), NoMemory>
    requires filled { IsFilled kind element.now }
    requires short { length element.now ≤ most_exported }
    requires extra { (length extra.now ≡ 0) ⊎ (length extra.now ≡ 12) }
    ensures { out.new.items ≡ (if is_ok result then out.old.items ++ record_line kind element.now extra.now else out.old.items) }
{
    line.end::<false>();
    put_visit(extra, line);
    put_element(kind, element, line);
    put_trace_type(b"  ", kind, line);
    line.finish::<false>(b"record", out)
}

// Appends the line of a record, given the octets of version 1.
fn put_core(
    core: &[u8],
    extra: &[u8],
    line: &mut ReportLine,
    out: &mut Vec<u8>,
) -> Result<(), NoMemory>
    requires of_record { (x : Record) × Rec core.now x }
    requires extra { (length extra.now ≡ 0) ⊎ (length extra.now ≡ 12) }
    ensures { out.new.items ≡ (if is_ok result
        then out.old.items ++ record_line (kind_of core.now) (element_of core.now) extra.now
        else out.old.items) }
{
    let (kind, element) = element_in(core);
    put_line(kind, element, extra, line, out)
}

// Appends the line of an item.
fn put_item(item: &Item, line: &mut ReportLine, out: &mut Vec<u8>) -> Result<(), NoMemory>
    requires { IsOfRecord item.now }
    ensures { out.new.items ≡ (if is_ok result then out.old.items ++ item_line item.now else out.old.items) }
{
    put_core(item.core(), item.extra(), line, out)
}

/// Appends the lines of items, one put together after the other, or leaves what was there.
pub(crate) fn put_items(
    items: Items<'_>,
    line: &mut ReportLine,
    out: &mut Vec<u8>,
) -> Result<(), NoMemory>
    requires { AllByRecursion IsOfRecord items }
    ensures { out.new.items ≡ (if is_ok result then out.old.items ++ flat_map item_line items.entry else out.old.items) }
{
    let before = out.len();
    for item in items {
        let answer = put_item(item, line, out);
        settle(out, before, answer)?;
    }
    Ok(())
}
