//! The picture of delays: rows of buckets, as many in each, with the number of delays in them.
ghost use Rattle.std.specs.Prelude.{◌≡◌, ◌<◌, ◌≤◌, ◌+◌, ◌/◌, ◌^◌, ◌++◌, OnOk};
ghost use Rattle.ioam_delay_lines.specs.Picture.{bar_size, bar_text, bound_text, bounds_text, count_text, drawn_more, drawn_text, drawn_to, gap_line, lines_text, most_to, picture_text, row_count, row_text, width_of};

use crate::units::{put_padded, put_time, put_times};
use ioam_base::memory::NoMemory;
use ioam_base::text::append;
use ioam_delays::{BUCKETS, Counter, least};
use itoa::Buffer;
use std::alloc::Global;

// The most lines.
const LINES: usize = 16;

// How many marks the longest bar has.
const MARKS: u128 = 40;

// To how many octets a time is filled.
const TIME: usize = 7;

// How many lines some rows have, and whether rows without a delay follow the last of them.
#[derive(Clone, Copy)]
struct Drawn {
    lines: usize,
    gap: bool,
}

impl Drawn {
    // With one row more.
    fn more(self, count: u128) -> Drawn
        requires { self.lines < 2 ^ 32 }
        ensures is { result ≡ drawn_more self count }
        ensures few { result.lines ≤ self.lines + 2 }
    {
        if count == 0 {
            Drawn {
                lines: self.lines,
                gap: self.lines != 0,
            }
        } else {
            Drawn {
                lines: self.lines + if self.gap { 2 } else { 1 },
                gap: false,
            }
        }
    }
}

// How many delays are in a row.
fn row_count(counter: &Counter, width: usize, row: usize) -> u128
    requires width { 0 < width }
    requires exists { row < 4096 / width }
    ensures is { result ≡ row_count counter.now width row }
    ensures fits { result < 2 ^ 77 }
{
    counter.between(row * width, (row + 1) * width)
}

// How many lines there are with rows of so many buckets.
fn lines(counter: &Counter, width: usize) -> usize
    requires { 0 < width }
    ensures { result ≡ (drawn_to counter.now width (4096 / width)).lines }
{
    let mut drawn = Drawn {
        lines: 0,
        gap: false,
    };
    'rows: for row in 0..BUCKETS / width {
        drawn = drawn.more(row_count(counter, width, row));
    }
    drawn.lines
}

// How many buckets a row has: as few as can be, so that there are no more than 16 lines.
fn width_of(counter: &Counter) -> usize
    ensures is { result ≡ width_of counter.now }
    ensures some { 0 < result }
{
    let mut width = 1;
    'widths: for step in 0..8u64 {
        if lines(counter, width) <= LINES {
            return width;
        }
        width *= 2;
    }
    width
}

// The most delays in a row.
fn most(counter: &Counter, width: usize) -> u128
    requires { 0 < width }
    ensures is { result ≡ most_to counter.now width (4096 / width) }
    ensures fits { result < 2 ^ 77 }
{
    let mut most = 0;
    'rows: for row in 0..BUCKETS / width {
        most = row_count(counter, width, row).max(most);
    }
    most
}

/// Appends the picture of delays.
pub fn put_picture(alloc: Global, counter: &Counter, out: &mut Vec<u8>) -> Result<(), NoMemory>
    ensures { OnOk result (out.new.items ≡ out.old.items ++ picture_text counter.now) }
{
    let width = width_of(counter);
    put_rows(alloc, counter, width, most(counter, width), out)
}

// Appends the lines of rows.
fn put_rows(
    alloc: Global,
    counter: &Counter,
    width: usize,
    most: u128,
    out: &mut Vec<u8>,
) -> Result<(), NoMemory>
    requires width { 0 < width }
    requires fits { most < 2 ^ 77 }
    ensures { OnOk result (out.new.items ≡ out.old.items ++ drawn_text counter.now width most (4096 / width)) }
{
    let mut drawn = Drawn {
        lines: 0,
        gap: false,
    };
    'rows: for row in 0..BUCKETS / width {
        let count = row_count(counter, width, row);
        put_lines(alloc, width, most, drawn.gap, row, count, out)?;
        drawn = drawn.more(count);
    }
    Ok(())
}

// Appends the line of a row, if it has delays.
fn put_lines(
    alloc: Global,
    width: usize,
    most: u128,
    gap: bool,
    row: usize,
    count: u128,
    out: &mut Vec<u8>,
) -> Result<(), NoMemory>
    requires width { 0 < width }
    requires exists { row < 4096 / width }
    requires fits { most < 2 ^ 77 }
    requires count { count < 2 ^ 77 }
    ensures { OnOk result (out.new.items ≡ out.old.items ++ lines_text width most gap row count) }
{
    if count == 0 {
        Ok(())
    } else {
        put_row(alloc, width, most, gap, row, count, out)
    }
}

// Appends the line of a row with delays, after that of rows without.
fn put_row(
    alloc: Global,
    width: usize,
    most: u128,
    gap: bool,
    row: usize,
    count: u128,
    out: &mut Vec<u8>,
) -> Result<(), NoMemory>
    requires width { 0 < width }
    requires exists { row < 4096 / width }
    requires fits { most < 2 ^ 77 }
    requires count { count < 2 ^ 77 }
    ensures { OnOk result (out.new.items ≡ out.old.items ++ row_text width most gap row count) }
{
    put_gap(gap, out)?;
    put_bounds(alloc, width, row, out)?;
    put_bar(most, count, out)
}

// Appends the line that stands for rows without a delay.
fn put_gap(gap: bool, out: &mut Vec<u8>) -> Result<(), NoMemory>
    ensures { OnOk result (out.new.items ≡ out.old.items ++ gap_line gap) }
{
    if gap {
        append(out, b"      ...\n")
    } else {
        Ok(())
    }
}

// Appends from which delay on a row is, and up to which.
#[tactic(auto, unfolding(crate::specs::Picture::bounds_text))]
fn put_bounds(alloc: Global, width: usize, row: usize, out: &mut Vec<u8>) -> Result<(), NoMemory>
    requires width { 0 < width }
    requires exists { row < 4096 / width }
    ensures { OnOk result (out.new.items ≡ out.old.items ++ bounds_text width row) }
{
    append(out, b"      ")?;
    put_bound(alloc, row * width, out)?;
    append(out, b" to ")?;
    put_bound(alloc, (row + 1) * width, out)
}

// Appends how many delays are in a row.
#[tactic(auto, unfolding(crate::specs::Picture::bar_text))]
fn put_bar(most: u128, count: u128, out: &mut Vec<u8>) -> Result<(), NoMemory>
    requires fits { most < 2 ^ 77 }
    requires count { count < 2 ^ 77 }
    ensures { OnOk result (out.new.items ≡ out.old.items ++ bar_text most count) }
{
    append(out, b" ")?;
    put_count(most, count, out)?;
    append(out, b" ")?;
    put_times(bar_size(most, count), b'#', out)?;
    append(out, b"\n")
}

// Appends the least delay of a bucket, or that above all buckets.
fn put_bound(alloc: Global, bucket: usize, out: &mut Vec<u8>) -> Result<(), NoMemory>
    requires { bucket ≤ 4096 }
    ensures { OnOk result (out.new.items ≡ out.old.items ++ bound_text bucket) }
{
    let mut text = Vec::new(alloc);
    put_time(least(bucket), &mut text)?;
    put_padded(TIME, &text, out)
}

// Appends a count, filled to the width of the greatest.
fn put_count(most: u128, count: u128, out: &mut Vec<u8>) -> Result<(), NoMemory>
    ensures { OnOk result (out.new.items ≡ out.old.items ++ count_text most count) }
{
    let mut widest = Buffer::new();
    let mut digits = Buffer::new();
    put_padded(
        widest.format(most).len(),
        digits.format(count).as_bytes(),
        out,
    )
}

// The marks of a row, a part of them as a whole one.
fn bar_size(most: u128, count: u128) -> usize
    requires fits { most < 2 ^ 77 }
    requires count { count < 2 ^ 77 }
    ensures is { result ≡ bar_size most count }
    ensures few { result ≤ 40 }
{
    MARKS.min((MARKS * count + most.saturating_sub(1)) / most.max(1)) as usize
}
