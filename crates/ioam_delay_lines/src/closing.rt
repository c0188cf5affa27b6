//! The first line and the last ones.
ghost use Rattle.std.specs.Prelude.{◌≡◌, ◌++◌, OnOk};
ghost use Rattle.ioam_delay_lines.specs.Closing.{are_none, beyond_row, beyond_text, format_row, fraction_text, labelled, most_fraction, narrowest_of, packets_row, traces_row};

use ioam_base::memory::NoMemory;
use ioam_base::text::{append, append_decimal};

// The first format, from the fewest units in a second on, that has the greatest fraction.
fn narrowest_of(most: u32) -> &'static str
    ensures { result.now ≡ narrowest_of most }
{
    if most < 1_000_000 {
        "posix"
    } else if most < 1_000_000_000 {
        "ptp"
    } else {
        "ntp"
    }
}

/// Appends `format FORMAT fractions C most F narrowest FORMAT` and the end of the line.
#[tactic(auto, unfolding(crate::specs::Closing::format_row))]
pub fn put_format_row(
    format: &str,
    count: u64,
    most: u32,
    out: &mut Vec<u8>,
) -> Result<(), NoMemory>
    ensures { OnOk result (out.new.items ≡ out.old.items ++ format_row format.now count most) }
{
    append(out, b"format ")?;
    append(out, format.as_bytes())?;
    append(out, b" fractions ")?;
    append_decimal(out, count)?;
    put_most(count, most, out)
}

// Appends the greatest fraction of so many.
fn put_most(count: u64, most: u32, out: &mut Vec<u8>) -> Result<(), NoMemory>
    ensures { OnOk result (out.new.items ≡ out.old.items ++ most_fraction count most) }
{
    if count == 0 {
        append(out, b" most - narrowest -\n")
    } else {
        put_fraction(most, out)
    }
}

// Appends the greatest fraction, and the format that it fits.
fn put_fraction(most: u32, out: &mut Vec<u8>) -> Result<(), NoMemory>
    ensures { OnOk result (out.new.items ≡ out.old.items ++ fraction_text most) }
{
    append(out, b" most ")?;
    append_decimal(out, u64::from(most))?;
    append(out, b" narrowest ")?;
    append(out, narrowest_of(most).as_bytes())?;
    append(out, b"\n")
}

/// Appends `beyond namespaces C ways C hops C nodes C` and the end of the line: how many found no row in the tables,
/// if there are some.
#[tactic(auto, unfolding(crate::specs::Closing::beyond_row))]
pub fn put_beyond_row(
    spaces: u64,
    ways: u64,
    hops: u64,
    nodes: u64,
    out: &mut Vec<u8>,
) -> Result<(), NoMemory>
    ensures { OnOk result (out.new.items ≡ out.old.items ++ beyond_row spaces ways hops nodes) }
{
    if are_none(spaces, ways, hops, nodes) {
        Ok(())
    } else {
        put_beyond(spaces, ways, hops, nodes, out)
    }
}

// Whether all found a row.
fn are_none(spaces: u64, ways: u64, hops: u64, nodes: u64) -> bool
    ensures { result ≡ are_none spaces ways hops nodes }
{
    spaces == 0 && ways == 0 && hops == 0 && nodes == 0
}

// Appends how many found none.
fn put_beyond(
    spaces: u64,
    ways: u64,
    hops: u64,
    nodes: u64,
    out: &mut Vec<u8>,
) -> Result<(), NoMemory>
    ensures { OnOk result (out.new.items ≡ out.old.items ++ beyond_text spaces ways hops nodes) }
{
    put_labelled(b"beyond namespaces ", spaces, out)?;
    put_labelled(b" ways ", ways, out)?;
    put_labelled(b" hops ", hops, out)?;
    put_labelled(b" nodes ", nodes, out)?;
    append(out, b"\n")
}

// Appends a number after its label.
#[tactic(auto, unfolding(crate::specs::Closing::labelled))]
fn put_labelled(label: &[u8], number: u64, out: &mut Vec<u8>) -> Result<(), NoMemory>
    ensures { OnOk result (out.new.items ≡ out.old.items ++ labelled label.now number) }
{
    append(out, label)?;
    append_decimal(out, number)
}

/// Appends `traces C overflow C bad C` and the end of the line.
#[tactic(auto, unfolding(crate::specs::Closing::traces_row))]
pub fn put_traces_row(
    traces: u64,
    overflow: u64,
    bad: u64,
    out: &mut Vec<u8>,
) -> Result<(), NoMemory>
    ensures { OnOk result (out.new.items ≡ out.old.items ++ traces_row traces overflow bad) }
{
    append(out, b"traces ")?;
    append_decimal(out, traces)?;
    append(out, b" overflow ")?;
    append_decimal(out, overflow)?;
    append(out, b" bad ")?;
    append_decimal(out, bad)?;
    append(out, b"\n")
}

/// Appends `packets C skipped C` and the end of the line.
#[tactic(auto, unfolding(crate::specs::Closing::packets_row))]
pub fn put_packets_row(packets: u64, skipped: u64, out: &mut Vec<u8>) -> Result<(), NoMemory>
    ensures { OnOk result (out.new.items ≡ out.old.items ++ packets_row packets skipped) }
{
    append(out, b"packets ")?;
    append_decimal(out, packets)?;
    append(out, b" skipped ")?;
    append_decimal(out, skipped)?;
    append(out, b"\n")
}
