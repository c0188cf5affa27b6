//! The lines of flows.
ghost use Rattle.std.specs.Prelude.{◌≡◌, ◌++◌, ◌-◌, OnOk, length, flat_map};
ghost use Rattle.ioam_leak_flows.specs.Lines.{flow_line, flows_text, others_line, rest_of};

use crate::address::put_address;
use crate::counts::Flows;
use crate::flow::{Flow, leak_word};
use crate::ranking::first_flows;
use ioam_base::memory::NoMemory;
use ioam_base::text::{append, append_decimal};
use std::alloc::Global;

/// Appends the lines of the first flows, and of all others together. `leaks` packets leak in all.
pub fn put_flows(
    alloc: Global,
    flows: &Flows,
    leaks: u64,
    out: &mut Vec<u8>,
) -> Result<(), NoMemory>
    ensures { OnOk result (out.new.items ≡ out.old.items ++ flows_text leaks flows.now.counts.entries) }
{
    let first = first_flows(alloc, flows)?;
    put_rows(alloc, &first, out)?;
    put_others(rest(leaks, &first), out)
}

// Appends a line for each flow.
fn put_rows(alloc: Global, rows: &[(Flow, u64)], out: &mut Vec<u8>) -> Result<(), NoMemory>
    ensures { OnOk result (out.new.items ≡ out.old.items ++ flat_map flow_line rows.now) }
{
    'rows: for row in rows.iter() {
        put_row(alloc, *row, out)?;
    }
    Ok(())
}

// `flow C carries|quotes S T`
fn put_row(alloc: Global, row: (Flow, u64), out: &mut Vec<u8>) -> Result<(), NoMemory>
    ensures { OnOk result (out.new.items ≡ out.old.items ++ flow_line row) }
{
    append(out, b"flow ")?;
    append_decimal(out, row.1)?;
    append(out, b" ")?;
    append(out, leak_word(row.0.quotes).as_bytes())?;
    append(out, b" ")?;
    put_address(alloc, row.0.source, out)?;
    append(out, b" ")?;
    put_address(alloc, row.0.target, out)?;
    append(out, b"\n")
}

// How many of the packets that leak are of none of these flows.
fn rest(leaks: u64, rows: &[(Flow, u64)]) -> u64
    ensures { result ≡ rest_of leaks rows.now }
{
    let mut rest = leaks;
    'rows: for row in rows.iter() {
        rest = rest.saturating_sub(row.1);
    }
    rest
}

// `flows others C`, if there are others.
fn put_others(others: u64, out: &mut Vec<u8>) -> Result<(), NoMemory>
    ensures { OnOk result (out.new.items ≡ out.old.items ++ others_line others) }
{
    if others == 0 {
        return Ok(());
    }
    append(out, b"flows others ")?;
    append_decimal(out, others)?;
    append(out, b"\n")
}
