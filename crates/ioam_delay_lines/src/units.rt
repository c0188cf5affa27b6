//! Times in three digits and a unit.
ghost use Rattle.std.specs.Prelude.{◌≡◌, ◌<◌, ◌≤◌, ◌^◌, ◌++◌, OnOk, decimal, replicate};
ghost use Rattle.ioam_delay_lines.specs.Units.{digits_text, padded, sign_text, size_text, time_text};

use ioam_base::memory::NoMemory;
use ioam_base::text::append;
use itoa::Buffer;

/// Appends a number in decimal digits.
pub(crate) fn append_wide(out: &mut Vec<u8>, number: u128) -> Result<(), NoMemory>
    ensures { OnOk result (out.new.items ≡ out.old.items ++ decimal number) }
{
    let mut digits = Buffer::new();
    append(out, digits.format(number).as_bytes())
}

/// Appends a time in nanoseconds, in three digits toward 0 and a unit, after `-` if it is below 0.
pub fn put_time(time: i128, out: &mut Vec<u8>) -> Result<(), NoMemory>
    ensures { OnOk result (out.new.items ≡ out.old.items ++ time_text time) }
{
    put_sign(time < 0, out)?;
    put_size(time.unsigned_abs(), out)
}

// Appends the sign of a time below 0.
fn put_sign(below: bool, out: &mut Vec<u8>) -> Result<(), NoMemory>
    ensures { OnOk result (out.new.items ≡ out.old.items ++ sign_text below) }
{
    if below { append(out, b"-") } else { Ok(()) }
}

// Appends so many nanoseconds.
fn put_size(size: u128, out: &mut Vec<u8>) -> Result<(), NoMemory>
    ensures { OnOk result (out.new.items ≡ out.old.items ++ size_text size) }
{
    if size < 1_000 {
        append_wide(out, size)?;
        append(out, b"ns")
    } else if size < 1_000_000 {
        put_digits(1_000, size, out)?;
        append(out, b"us")
    } else if size < 1_000_000_000 {
        put_digits(1_000_000, size, out)?;
        append(out, b"ms")
    } else {
        put_digits(1_000_000_000, size, out)?;
        append(out, b"s")
    }
}

// Appends a number of units.
fn put_digits(unit: u128, size: u128, out: &mut Vec<u8>) -> Result<(), NoMemory>
    requires some { 0 < unit }
    requires most { unit ≤ 10 ^ 9 }
    ensures { OnOk result (out.new.items ≡ out.old.items ++ digits_text unit size) }
{
    append_wide(out, size / unit)?;
    if size < 10 * unit {
        append(out, b".")?;
        append_wide(out, 10 * size / unit % 10)?;
        append_wide(out, 100 * size / unit % 10)
    } else if size < 100 * unit {
        append(out, b".")?;
        append_wide(out, 10 * size / unit % 10)
    } else {
        Ok(())
    }
}

/// Appends a text, with spaces before it up to a width.
pub(crate) fn put_padded(width: usize, text: &[u8], out: &mut Vec<u8>) -> Result<(), NoMemory>
    requires { width < 2 ^ 32 }
    ensures { OnOk result (out.new.items ≡ out.old.items ++ padded width text.now) }
{
    put_times(width.saturating_sub(text.len()), b' ', out)?;
    append(out, text)
}

/// Appends an octet so many times.
pub(crate) fn put_times(times: usize, octet: u8, out: &mut Vec<u8>) -> Result<(), NoMemory>
    requires { times < 2 ^ 32 }
    ensures { OnOk result (out.new.items ≡ out.old.items ++ replicate times octet) }
{
    out.resize(out.len() + times, octet)?;
    Ok(())
}
