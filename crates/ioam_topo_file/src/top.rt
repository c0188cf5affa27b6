//! The keys outside of the tables.
ghost use Rattle.std.specs.Prelude.{◌≡◌, Ok, codes};
ghost use Rattle.toml.specs.Data.{get_member};
ghost use Rattle.toml.specs.View.{table_view};
ghost use Rattle.ioam_topo_entries.specs.Faults.{Gives};
ghost use Rattle.ioam_topo_file.specs.Top.{format_of, format_named, packets_of, top_keys};

use ioam_topo::Format;
use ioam_topo_entries::{DomainRefused, Spot, Table};
use ioam_topo_values::{Why, find, number_or, text_of};

// The most packets of a run that a file may say.
const MOST_PACKETS: u64 = 1 << 24;

// The most packets of a run where the file says none.
const USUAL_PACKETS: u64 = 1_000_000;

// The file's own keys.
#[derive(Clone, Copy)]
pub(crate) struct Own {
    pub(crate) format: Format,
    pub(crate) packets: u32,
}

// The format of a name.
fn format_named(name: &str) -> Result<Format, Why>
    ensures { result ≡ format_named name.now }
{
    if name == "ptp" {
        Ok(Format::Ptp)
    } else if name == "ntp" {
        Ok(Format::Ntp)
    } else if name == "posix" {
        Ok(Format::Posix)
    } else {
        Err(Why::Range)
    }
}

// The format of a file, "ptp" where none is named.
fn format_of(top: &toml::Table) -> Result<Format, Why>
    ensures { result ≡ format_of (table_view top.now) }
{
    match find(top, "format") {
        Some(value) => format_named(text_of(value)?),
        None => Ok(Format::Ptp),
    }
}

// The most packets of a run, 1,000,000 where none is said.
fn packets_of(top: &toml::Table) -> Result<u32, Why>
    ensures { result ≡ packets_of (table_view top.now) }
{
    Ok(number_or(top, "packets", 1, MOST_PACKETS, USUAL_PACKETS)? as u32)
}

// The file's own keys.
pub(crate) fn read_own(top: &toml::Table) -> Result<Own, DomainRefused>
    ensures { Gives result (top_keys (table_view top.now))
        (λ own. (format_of (table_view top.now) ≡ Ok own.format) × (packets_of (table_view top.now) ≡ Ok own.packets)) }
{
    let spot = Spot {
        table: Table::Top,
        place: 0,
    };
    spot.own_keys(top)?;
    let format = spot.key("format", format_of(top))?;
    let packets = spot.key("packets", packets_of(top))?;
    Ok(Own { format, packets })
}
