//! The words for nodes, gaps and ways.
ghost use Rattle.std.specs.Prelude.{◌≡◌, ◌++◌, OnOk, flat_map, if◌then◌else◌, is_ok};
ghost use Rattle.std.specs.Fmt.{signed_decimal};
ghost use Rattle.ioam_delay_lines.specs.Words.{end_text, gap_text, mark_text, node_text, step_text, way_text};

use ioam_base::memory::NoMemory;
use ioam_base::text::{append, append_decimal};
use ioam_delay_counts::{Step, WayKey};
use ioam_delays::{Gap, Node};
use itoa::Buffer;

/// Appends a number in decimal digits, after `-` if it is below 0.
pub(crate) fn append_signed(out: &mut Vec<u8>, number: i128) -> Result<(), NoMemory>
    ensures { out.new.items ≡ (if is_ok result then out.old.items ++ signed_decimal number else out.old.items) }
{
    let mut digits = Buffer::new();
    append(out, digits.format(number).as_bytes())
}

/// Appends the id of a node, or `-`.
pub fn put_node(node: Node, out: &mut Vec<u8>) -> Result<(), NoMemory>
    ensures { OnOk result (out.new.items ≡ out.old.items ++ node_text node) }
{
    match node {
        Node::Id(id) => append_decimal(out, id),
        Node::Unknown => append(out, b"-"),
    }
}

/// Appends how many nodes wrote nothing, or `?`.
pub fn put_gap(gap: Gap, out: &mut Vec<u8>) -> Result<(), NoMemory>
    ensures { OnOk result (out.new.items ≡ out.old.items ++ gap_text gap) }
{
    match gap {
        Gap::Nodes(nodes) => append_decimal(out, u64::from(nodes)),
        Gap::Unknown => append(out, b"?"),
    }
}

// Appends ` *` and how many wrote nothing, if there are some.
fn put_mark(gap: Gap, out: &mut Vec<u8>) -> Result<(), NoMemory>
    ensures { OnOk result (out.new.items ≡ out.old.items ++ mark_text gap) }
{
    if let Gap::Nodes(0) = gap {
        return Ok(());
    }
    append(out, b" *")?;
    put_gap(gap, out)
}

// Appends how many before a node wrote nothing, and the node.
fn put_step(step: Step, out: &mut Vec<u8>) -> Result<(), NoMemory>
    ensures { OnOk result (out.new.items ≡ out.old.items ++ step_text step) }
{
    put_mark(step.past, out)?;
    append(out, b" ")?;
    put_node(step.node, out)
}

// Appends each of some steps.
fn put_steps(steps: &[Step], out: &mut Vec<u8>) -> Result<(), NoMemory>
    ensures { OnOk result (out.new.items ≡ out.old.items ++ flat_map step_text steps.now) }
{
    'steps: for step in steps.iter() {
        put_step(*step, out)?;
    }
    Ok(())
}

// Appends ` +` after a way on which a node found no room, or ` none` if no node wrote.
fn put_end(overflow: bool, empty: bool, out: &mut Vec<u8>) -> Result<(), NoMemory>
    ensures { OnOk result (out.new.items ≡ out.old.items ++ end_text overflow empty) }
{
    if overflow {
        append(out, b" +")
    } else if empty {
        append(out, b" none")
    } else {
        Ok(())
    }
}

/// Appends a way: each node after a space, with ` *G` before it if G nodes before it wrote nothing, the same after the
/// last, and then ` +` with Overflow; ` none` if no node wrote and none found no room.
pub fn put_way(way: &WayKey, out: &mut Vec<u8>) -> Result<(), NoMemory>
    ensures { OnOk result (out.new.items ≡ out.old.items ++ way_text way.now) }
{
    put_steps(&way.steps, out)?;
    put_mark(way.tail, out)?;
    put_end(way.overflow, way.steps.is_empty(), out)
}
