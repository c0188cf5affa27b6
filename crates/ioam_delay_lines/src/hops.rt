//! The lines of hops, each with its share of all delays of its namespace.
ghost use Rattle.std.specs.Prelude.{◌≡◌, ◌++◌, OnOk};
ghost use Rattle.ioam_delay_lines.specs.Hops.{counter_part, drawing_text, hop_part, hop_row, hop_share, hop_text, whole_more, whole_of};

use crate::delays::put_delays;
use crate::picture::put_picture;
use crate::share::put_share;
use crate::words::{put_gap, put_node};
use ioam_base::memory::NoMemory;
use ioam_base::text::{append, append_decimal};
use ioam_delay_counts::{HopKey, Passed, Row};
use ioam_delays::Counter;
use std::alloc::Global;

// What delays below 0 add to the whole, of which no share is written then.
const BELOW: u128 = 1 << 116;

/// What the delays of all hops of a namespace add up to, up to 2^128 - 1; 2^116 or more if those of one are below 0.
pub fn whole_of(namespace: u16, rows: &[Row<HopKey, Passed>]) -> u128
    ensures { result ≡ whole_of namespace rows.now }
{
    let mut whole = 0;
    'rows: for row in rows.iter() {
        whole = whole_more(namespace, whole, row);
    }
    whole
}

// With one hop more.
fn whole_more(namespace: u16, whole: u128, row: &Row<HopKey, Passed>) -> u128
    ensures { result ≡ whole_more namespace whole row.now }
{
    if row.key.namespace == namespace {
        whole.saturating_add(hop_part(&row.tally.delays))
    } else {
        whole
    }
}

// What the delays of a hop add up to.
fn hop_part(delays: &Option<Counter>) -> u128
    ensures { result ≡ hop_part delays.now }
{
    match delays {
        None => 0,
        Some(counter) => counter_part(counter),
    }
}

// Those of a counter.
fn counter_part(counter: &Counter) -> u128
    ensures { result ≡ counter_part counter.now }
{
    let sum = counter.sum;
    if sum < 0 { BELOW } else { sum.unsigned_abs() }
}

/// Appends `  hop FROM TO past G count C share S`, and the delays.
pub fn put_hop_row(
    whole: u128,
    key: HopKey,
    passed: &Passed,
    out: &mut Vec<u8>,
) -> Result<(), NoMemory>
    ensures { OnOk result (out.new.items ≡ out.old.items ++ hop_row whole key passed.now) }
{
    put_hop(key, out)?;
    append(out, b" count ")?;
    append_decimal(out, passed.count)?;
    append(out, b" share ")?;
    put_hop_share(whole, &passed.delays, out)?;
    put_delays(&passed.delays, out)
}

// `  hop FROM TO past G`
fn put_hop(key: HopKey, out: &mut Vec<u8>) -> Result<(), NoMemory>
    ensures { OnOk result (out.new.items ≡ out.old.items ++ hop_text key) }
{
    append(out, b"  hop ")?;
    put_node(key.from, out)?;
    append(out, b" ")?;
    put_node(key.to, out)?;
    append(out, b" past ")?;
    put_gap(key.past, out)
}

// The share of a hop, or `-` if it has no delays.
fn put_hop_share(whole: u128, delays: &Option<Counter>, out: &mut Vec<u8>) -> Result<(), NoMemory>
    ensures { OnOk result (out.new.items ≡ out.old.items ++ hop_share whole delays.now) }
{
    match delays {
        None => append(out, b"-"),
        Some(counter) => put_share(counter_part(counter), whole, out),
    }
}

/// Appends the picture of delays, if there are some.
pub fn put_drawing(
    alloc: Global,
    delays: &Option<Counter>,
    out: &mut Vec<u8>,
) -> Result<(), NoMemory>
    ensures { OnOk result (out.new.items ≡ out.old.items ++ drawing_text delays.now) }
{
    match delays {
        None => Ok(()),
        Some(counter) => put_picture(alloc, counter, out),
    }
}
