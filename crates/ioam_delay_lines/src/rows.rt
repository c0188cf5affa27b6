//! The lines of namespaces and nodes.
ghost use Rattle.std.specs.Prelude.{◌≡◌, ◌<◌, ◌≤◌, ◌++◌, OnOk};
ghost use Rattle.ioam_delay_lines.specs.Rows.{node_row, space_row, way_row};

use crate::delays::{put_delays, put_ends};
use crate::share::put_share;
use crate::words::{put_node, put_way};
use ioam_base::memory::NoMemory;
use ioam_base::text::{append, append_decimal};
use ioam_delay_counts::{Filled, NodeKey, Passed, Seen, SpaceKey, WayKey};

/// Appends `namespace NS traces C overflow C empty C` and the end of the line.
pub fn put_space_row(key: SpaceKey, filled: &Filled, out: &mut Vec<u8>) -> Result<(), NoMemory>
    ensures { OnOk result (out.new.items ≡ out.old.items ++ space_row key filled.now) }
{
    append(out, b"namespace ")?;
    append_decimal(out, u64::from(key.0))?;
    append(out, b" traces ")?;
    append_decimal(out, filled.count)?;
    append(out, b" overflow ")?;
    append_decimal(out, filled.overflow)?;
    append(out, b" empty ")?;
    append_decimal(out, filled.empty)?;
    append(out, b"\n")
}

/// Appends `  node NODE seen C stamped C bad C long C`, and the transit delays.
pub fn put_node_row(key: NodeKey, seen: &Seen, out: &mut Vec<u8>) -> Result<(), NoMemory>
    ensures { OnOk result (out.new.items ≡ out.old.items ++ node_row key seen.now) }
{
    append(out, b"  node ")?;
    put_node(key.node, out)?;
    append(out, b" seen ")?;
    append_decimal(out, seen.count)?;
    append(out, b" stamped ")?;
    append_decimal(out, seen.stamped)?;
    append(out, b" bad ")?;
    append_decimal(out, seen.bad)?;
    append(out, b" long ")?;
    append_decimal(out, seen.long)?;
    put_delays(&seen.delays, out)
}

/// Appends `  way WAY count C share S`, and the delays from its first element to the last; its namespace has `traces`.
pub fn put_way_row(
    traces: u64,
    key: &WayKey,
    passed: &Passed,
    out: &mut Vec<u8>,
) -> Result<(), NoMemory>
    ensures { OnOk result (out.new.items ≡ out.old.items ++ way_row traces key.now passed.now) }
{
    append(out, b"  way")?;
    put_way(key, out)?;
    append(out, b" count ")?;
    append_decimal(out, passed.count)?;
    append(out, b" share ")?;
    put_share(u128::from(passed.count), u128::from(traces), out)?;
    put_ends(&passed.delays, out)
}
