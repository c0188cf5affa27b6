//! The lines of groups.
ghost use Rattle.std.specs.Prelude.{◌≡◌, ◌<◌, ◌≤◌, ◌^◌, ◌++◌, List, length, is_ok, if◌then◌else◌};
ghost use Rattle.std.specs.List.{AllByRecursion, flat_map};
ghost use Rattle.ioam_dex.specs.Record.{Record};
ghost use Rattle.ioam_collect.specs.Best.{groups_of};
ghost use Rattle.ioam_collect.specs.Collected.{Stands};
ghost use Rattle.ioam_collect.specs.Keyed.{IsOfRecord, keyed};
ghost use Rattle.ioam_report_lines.specs.TraceText.{line_feed};
ghost use Rattle.ioam_report_groups.specs.GroupsText.{key_line, group_text, counts_line, collected_text, records_text};

use crate::ahead::make_room;
use crate::items::put_items;
use ioam_base::memory::NoMemory;
use ioam_base::text::settle;
use ioam_collect::{Collector, Group, Groups, Key, SIDE_BY_SIDE};
use ioam_line::{LineBuffer, Piece, Value};
use ioam_report_lines::ReportLine;

// Puts the words of a key, its last word first.
fn put_key(key: Key, count: u64, line: &mut ReportLine)
    requires { line.old ≡ line_feed }
    ensures value { line.new ≡ key_line key count }
    ensures size { length line.new ≤ 200 }
{
    line.put::<false>(Piece::Fact(b" ", b"records", Value::Number(count)));
    let sequence = Value::Number(u64::from(key.seq));
    line.put::<false>(Piece::Fact(b" ", b"sequence", sequence));
    let flow = Value::Number(u64::from(key.flow));
    line.put::<false>(Piece::Fact(b" ", b"flow_id", flow));
    let namespace = Value::Number(u64::from(key.namespace.0));
    line.put::<false>(Piece::Fact(b"group ", b"namespace", namespace));
}

// Appends the lines of a group. The buffer that is lent holds anything before and after.
fn put_group(group: Group<'_>, line: &mut ReportLine, out: &mut Vec<u8>) -> Result<(), NoMemory>
    requires { AllByRecursion IsOfRecord group.items }
    ensures { out.new.items ≡ (if is_ok result then out.old.items ++ group_text (group.entry.key, group.entry.items) else out.old.items) }
{
    let before = out.len();
    line.end::<false>();
    put_key(group.key, group.items.left() as u64, line);
    line.finish::<false>(b"group", out)?;
    let answer = put_items(group.items, line, out);
    settle(out, before, answer)
}

// Appends the lines of groups, one put together after the other. The same groups, lent once more, are read ahead.
fn put_all(
    groups: Groups<'_>,
    ahead: &mut Groups<'_>,
    line: &mut ReportLine,
    out: &mut Vec<u8>,
) -> Result<(), NoMemory>
    requires { AllByRecursion (λ group. AllByRecursion IsOfRecord group.1) groups }
    ensures { out.new.items ≡ (if is_ok result then out.old.items ++ flat_map group_text groups.entry else out.old.items) }
{
    let before = out.len();
    let mut due = 0;
    for group in groups {
        if due == 0 {
            make_room(ahead, out);
            due = SIDE_BY_SIDE;
        }
        due -= 1;
        let answer = put_group(group, line, out);
        settle(out, before, answer)?;
    }
    Ok(())
}

// Appends the counts.
fn put_counts(
    read: u64,
    kept: u64,
    unkeyed: u64,
    line: &mut ReportLine,
    out: &mut Vec<u8>,
) -> Result<(), NoMemory>
    ensures { out.new.items ≡ (if is_ok result then out.old.items ++ counts_line read kept unkeyed else out.old.items) }
{
    let repeats = read.saturating_sub(kept).saturating_sub(unkeyed);
    line.end::<false>();
    line.put::<false>(Piece::Fact(b" unkeyed ", b"unkeyed", Value::Number(unkeyed)));
    line.put::<false>(Piece::Fact(b" repeats ", b"repeats", Value::Number(repeats)));
    line.put::<false>(Piece::Fact(b" kept ", b"kept", Value::Number(kept)));
    line.put::<false>(Piece::Fact(b"records ", b"records", Value::Number(read)));
    line.finish::<false>(b"sums", out)
}

/// Appends the lines of a collector's groups, in the order of their keys: for each a line `group` with the
/// namespace, the Flow ID, the Sequence Number and the count of its records, and for each record a line
/// with the type and the fields of its element (RFC 9197 section 4.4.2), and of a record that tells its
/// visit the time and the interface. Without memory nothing is appended.
pub fn put_lines(collector: &Collector, out: &mut Vec<u8>) -> Result<(), NoMemory>
    ensures text { out.new.items ≡ (if is_ok result then out.old.items ++ flat_map group_text collector.now.groups else out.old.items) }
    // Where the collector stands for records, these are the groups of them.
    ensures groups { (xs : List Record) → Stands collector.now xs → collector.now.groups ≡ groups_of (keyed xs) }
{
    let mut ahead = collector.groups();
    put_all(collector.groups(), &mut ahead, &mut LineBuffer::new(), out)
}

/// Appends the lines of a collector's groups ([`put_lines`]), and then a line with how many records were
/// read, are kept, were there already and have no key. Without memory nothing is appended.
pub fn put_groups(collector: &Collector, out: &mut Vec<u8>) -> Result<(), NoMemory>
    ensures text { out.new.items ≡ (if is_ok result then out.old.items ++ collected_text collector.now else out.old.items) }
    // Where the collector stands for records, this is their text.
    ensures records { (xs : List Record) → Stands collector.now xs → length xs < 2 ^ 64 → collected_text collector.now ≡ records_text xs }
{
    let before = out.len();
    put_lines(collector, out)?;
    let answer = put_counts(
        collector.read(),
        u64::from(collector.held()),
        collector.unkeyed(),
        &mut LineBuffer::new(),
        out,
    );
    settle(out, before, answer)
}
