//! The words for delays that were counted.
ghost use Rattle.std.specs.Prelude.{◌≡◌, ◌<◌, ◌≤◌, ◌++◌, OnOk};
ghost use Rattle.std.specs.Fmt.{signed_decimal};
ghost use Rattle.ioam_delays.specs.Counters.{percentile_of};
ghost use Rattle.ioam_delay_lines.specs.Rows.{counter_ends, counter_text, delays_text, ends_text, least_text, mean_text, most_text, negative_text, percentiles_text};

use crate::words::append_signed;
use ioam_base::memory::NoMemory;
use ioam_base::text::{append, append_decimal};
use ioam_delays::Counter;

/// Appends ` delays C least D p50 D p90 D p99 D most D mean D negative C` and the end of the line, or ` delays 0`.
pub fn put_delays(delays: &Option<Counter>, out: &mut Vec<u8>) -> Result<(), NoMemory>
    ensures { OnOk result (out.new.items ≡ out.old.items ++ delays_text delays.now) }
{
    match delays {
        None => append(out, b" delays 0\n"),
        Some(counter) => put_counter(counter, out),
    }
}

// Those of a counter.
fn put_counter(counter: &Counter, out: &mut Vec<u8>) -> Result<(), NoMemory>
    ensures { OnOk result (out.new.items ≡ out.old.items ++ counter_text counter.now) }
{
    append(out, b" delays ")?;
    append_decimal(out, counter.count)?;
    put_least(counter, out)?;
    put_percentiles(counter, out)?;
    put_most(counter, out)?;
    put_mean(counter, out)?;
    put_negative(counter, out)
}

// ` p50 D p90 D p99 D`
fn put_percentiles(counter: &Counter, out: &mut Vec<u8>) -> Result<(), NoMemory>
    ensures { OnOk result (out.new.items ≡ out.old.items ++ percentiles_text counter.now) }
{
    put_percentile(b" p50 ", counter, 50, out)?;
    put_percentile(b" p90 ", counter, 90, out)?;
    put_percentile(b" p99 ", counter, 99, out)
}

// ` negative C` and the end of the line
fn put_negative(counter: &Counter, out: &mut Vec<u8>) -> Result<(), NoMemory>
    ensures { OnOk result (out.new.items ≡ out.old.items ++ negative_text counter.now) }
{
    append(out, b" negative ")?;
    append_decimal(out, counter.negative)?;
    append(out, b"\n")
}

/// Appends ` delays C least D mean D most D` and the end of the line, or ` delays 0`.
pub fn put_ends(delays: &Option<Counter>, out: &mut Vec<u8>) -> Result<(), NoMemory>
    ensures { OnOk result (out.new.items ≡ out.old.items ++ ends_text delays.now) }
{
    match delays {
        None => append(out, b" delays 0\n"),
        Some(counter) => put_counter_ends(counter, out),
    }
}

// Those of a counter.
fn put_counter_ends(counter: &Counter, out: &mut Vec<u8>) -> Result<(), NoMemory>
    ensures { OnOk result (out.new.items ≡ out.old.items ++ counter_ends counter.now) }
{
    append(out, b" delays ")?;
    append_decimal(out, counter.count)?;
    put_least(counter, out)?;
    put_mean(counter, out)?;
    put_most(counter, out)?;
    append(out, b"\n")
}

// Appends a number after a label.
fn put_number(label: &[u8], number: i128, out: &mut Vec<u8>) -> Result<(), NoMemory>
    ensures { OnOk result (out.new.items ≡ out.old.items ++ (label.now ++ signed_decimal number)) }
{
    append(out, label)?;
    append_signed(out, number)
}

// ` least D`
fn put_least(counter: &Counter, out: &mut Vec<u8>) -> Result<(), NoMemory>
    ensures { OnOk result (out.new.items ≡ out.old.items ++ least_text counter.now) }
{
    put_number(b" least ", i128::from(counter.least), out)
}

// A percentile after its label.
fn put_percentile(
    label: &[u8],
    counter: &Counter,
    per: u64,
    out: &mut Vec<u8>,
) -> Result<(), NoMemory>
    requires some { 0 < per }
    requires most { per ≤ 100 }
    ensures { OnOk result (out.new.items ≡ out.old.items ++ (label.now ++ signed_decimal (percentile_of counter.now per))) }
{
    put_number(label, counter.percentile(per), out)
}

// ` most D`
fn put_most(counter: &Counter, out: &mut Vec<u8>) -> Result<(), NoMemory>
    ensures { OnOk result (out.new.items ≡ out.old.items ++ most_text counter.now) }
{
    put_number(b" most ", i128::from(counter.most), out)
}

// ` mean D`
fn put_mean(counter: &Counter, out: &mut Vec<u8>) -> Result<(), NoMemory>
    ensures { OnOk result (out.new.items ≡ out.old.items ++ mean_text counter.now) }
{
    put_number(b" mean ", counter.mean(), out)
}
