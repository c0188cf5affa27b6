//! The lines of each namespace: its own, those of its ways, of its hops and of its nodes.
ghost use Rattle.std.specs.Prelude.{◌≡◌, ◌++◌, OnOk};
ghost use Rattle.ioam_delay_lines.specs.Spaces.{hop_line, hops_text, next_count, next_more, node_line, nodes_text, passed_text, seen_text, space_lines, space_parts, spaces_text, way_line, ways_of, ways_text};

use crate::hops::{put_drawing, put_hop_row, whole_of};
use crate::rows::{put_node_row, put_space_row, put_way_row};
use ioam_base::memory::NoMemory;
use ioam_delay_counts::{Filled, HopKey, NodeKey, Passed, Row, Seen, SpaceKey, Sums, WayKey};
use std::alloc::Global;

/// Appends the lines of each namespace, and of what is in it: the ways by falling count, the hops and the nodes.
#[tactic(auto, unfolding(crate::specs::Spaces::spaces_text))]
pub fn put_spaces(alloc: Global, sums: &Sums, out: &mut Vec<u8>) -> Result<(), NoMemory>
    ensures { OnOk result (out.new.items ≡ out.old.items ++ spaces_text sums.now) }
{
    'rows: for row in sums.spaces.rows.iter() {
        put_space(alloc, sums, row, out)?;
    }
    Ok(())
}

// Appends the lines of a namespace.
fn put_space(
    alloc: Global,
    sums: &Sums,
    row: &Row<SpaceKey, Filled>,
    out: &mut Vec<u8>,
) -> Result<(), NoMemory>
    ensures { OnOk result (out.new.items ≡ out.old.items ++ space_lines sums.now row.now) }
{
    put_space_row(row.key, &row.tally, out)?;
    put_parts(alloc, sums, row.key.0, row.tally.count, out)
}

// Appends the lines of the ways, hops and nodes of a namespace with this many traces.
#[tactic(auto, unfolding(crate::specs::Spaces::space_parts))]
fn put_parts(
    alloc: Global,
    sums: &Sums,
    namespace: u16,
    traces: u64,
    out: &mut Vec<u8>,
) -> Result<(), NoMemory>
    ensures { OnOk result (out.new.items ≡ out.old.items ++ space_parts sums.now namespace traces) }
{
    put_ways(namespace, traces, &sums.ways.rows, out)?;
    let whole = whole_of(namespace, &sums.hops.rows);
    put_hops(alloc, namespace, whole, &sums.hops.rows, out)?;
    put_nodes(alloc, namespace, &sums.nodes.rows, out)
}

// Appends the lines of the nodes of a namespace.
#[tactic(auto, unfolding(crate::specs::Spaces::nodes_text))]
fn put_nodes(
    alloc: Global,
    namespace: u16,
    rows: &[Row<NodeKey, Seen>],
    out: &mut Vec<u8>,
) -> Result<(), NoMemory>
    ensures { OnOk result (out.new.items ≡ out.old.items ++ nodes_text namespace rows.now) }
{
    'rows: for row in rows.iter() {
        put_node_line(alloc, namespace, row, out)?;
    }
    Ok(())
}

// Appends the line of a node, if it is of this namespace.
fn put_node_line(
    alloc: Global,
    namespace: u16,
    row: &Row<NodeKey, Seen>,
    out: &mut Vec<u8>,
) -> Result<(), NoMemory>
    ensures { OnOk result (out.new.items ≡ out.old.items ++ node_line namespace row.now) }
{
    if row.key.namespace == namespace {
        put_seen(alloc, row, out)
    } else {
        Ok(())
    }
}

// Appends the line of a node, and its picture.
#[tactic(auto, unfolding(crate::specs::Spaces::seen_text))]
fn put_seen(alloc: Global, row: &Row<NodeKey, Seen>, out: &mut Vec<u8>) -> Result<(), NoMemory>
    ensures { OnOk result (out.new.items ≡ out.old.items ++ seen_text row.now) }
{
    put_node_row(row.key, &row.tally, out)?;
    put_drawing(alloc, &row.tally.delays, out)
}

// Appends the lines of the hops of a namespace whose delays add up to this.
#[tactic(auto, unfolding(crate::specs::Spaces::hops_text))]
fn put_hops(
    alloc: Global,
    namespace: u16,
    whole: u128,
    rows: &[Row<HopKey, Passed>],
    out: &mut Vec<u8>,
) -> Result<(), NoMemory>
    ensures { OnOk result (out.new.items ≡ out.old.items ++ hops_text namespace whole rows.now) }
{
    'rows: for row in rows.iter() {
        put_hop_line(alloc, namespace, whole, row, out)?;
    }
    Ok(())
}

// Appends the line of a hop, if it is of this namespace.
fn put_hop_line(
    alloc: Global,
    namespace: u16,
    whole: u128,
    row: &Row<HopKey, Passed>,
    out: &mut Vec<u8>,
) -> Result<(), NoMemory>
    ensures { OnOk result (out.new.items ≡ out.old.items ++ hop_line namespace whole row.now) }
{
    if row.key.namespace == namespace {
        put_passed(alloc, whole, row, out)
    } else {
        Ok(())
    }
}

// Appends the line of a hop, and its picture.
#[tactic(auto, unfolding(crate::specs::Spaces::passed_text))]
fn put_passed(
    alloc: Global,
    whole: u128,
    row: &Row<HopKey, Passed>,
    out: &mut Vec<u8>,
) -> Result<(), NoMemory>
    ensures { OnOk result (out.new.items ≡ out.old.items ++ passed_text whole row.now) }
{
    put_hop_row(whole, row.key, &row.tally, out)?;
    put_drawing(alloc, &row.tally.delays, out)
}

// Appends the lines of the ways of a namespace with this many traces, those with the most first.
fn put_ways(
    namespace: u16,
    traces: u64,
    rows: &[Row<WayKey, Passed>],
    out: &mut Vec<u8>,
) -> Result<(), NoMemory>
    ensures { OnOk result (out.new.items ≡ out.old.items ++ ways_text namespace traces rows.now) }
{
    let mut limit = u64::MAX;
    'counts: for step in 0..rows.len() {
        let count = next_count(namespace, limit, rows);
        if count == 0 {
            return Ok(());
        }
        put_ways_of(namespace, traces, count, rows, out)?;
        limit = count - 1;
    }
    Ok(())
}

// Appends the lines of those with as many traces.
#[tactic(auto, unfolding(crate::specs::Spaces::ways_of))]
fn put_ways_of(
    namespace: u16,
    traces: u64,
    count: u64,
    rows: &[Row<WayKey, Passed>],
    out: &mut Vec<u8>,
) -> Result<(), NoMemory>
    ensures { OnOk result (out.new.items ≡ out.old.items ++ ways_of namespace traces count rows.now) }
{
    'rows: for row in rows.iter() {
        put_way_line(namespace, traces, count, row, out)?;
    }
    Ok(())
}

// Appends the line of a way, if it is one of them.
fn put_way_line(
    namespace: u16,
    traces: u64,
    count: u64,
    row: &Row<WayKey, Passed>,
    out: &mut Vec<u8>,
) -> Result<(), NoMemory>
    ensures { OnOk result (out.new.items ≡ out.old.items ++ way_line namespace traces count row.now) }
{
    if row.key.namespace == namespace && row.tally.count == count {
        put_way_row(traces, &row.key, &row.tally, out)
    } else {
        Ok(())
    }
}

// The most traces up to a limit that a way of the namespace has, or 0.
#[tactic(auto, unfolding(crate::specs::Spaces::next_count))]
fn next_count(namespace: u16, limit: u64, rows: &[Row<WayKey, Passed>]) -> u64
    ensures { result ≡ next_count namespace limit rows.now }
{
    let mut most = 0;
    'rows: for row in rows.iter() {
        most = next_more(namespace, limit, most, row);
    }
    most
}

// With one way more.
fn next_more(namespace: u16, limit: u64, most: u64, row: &Row<WayKey, Passed>) -> u64
    ensures { result ≡ next_more namespace limit most row.now }
{
    if row.key.namespace == namespace && row.tally.count <= limit {
        row.tally.count.max(most)
    } else {
        most
    }
}
