//! A domain file that is read, or refused by its first fault.
ghost use Rattle.std.specs.Prelude.{◌≡◌, length, IfOk};
ghost use Rattle.toml.specs.View.{table_view};
ghost use Rattle.ioam_topo_entries.specs.declared.words.Table.TheVariants.{Top};
ghost use Rattle.ioam_topo_entries.specs.Faults.{Gives, fault, no_key};
ghost use Rattle.ioam_topo_network.specs.NodeRead.{HoldsNodes};
ghost use Rattle.ioam_topo_network.specs.Places.{node_entries};
ghost use Rattle.ioam_topo_file.specs.PartsRead.{HoldsTelemetry};
ghost use Rattle.ioam_topo_file.specs.Top.{telemetry_faults, faults_of};
ghost use Rattle.ioam_topo_file.specs.File.{IsDomain, IsApart, IsFileRead};

use crate::top::read_own;
use ioam_base::memory::NoMemory;
use ioam_topo::Domain;
use ioam_topo_entries::{DomainFault, DomainRefused, Field, Table, Why};
use ioam_topo_flows::{read_data, read_flows};
use ioam_topo_network::{read_parts, read_routes};
use ioam_topo_tables::{Nodes, Telemetry, domain_of};
use std::alloc::Global;

/// The most octets of a domain file: 1 MiB.
pub const MOST_OCTETS: usize = 1_048_576;

// The most flows.
const MOST_FLOWS: usize = 256;

// The most extra traces of all flows together.
const MOST_EXTRAS: usize = 512;

// The most links that may have a tap.
const MOST_TAPS: u32 = 64;

// The node data and the flows of a file, whose nodes these are.
fn read_telemetry(
    alloc: Global,
    top: &toml::Table,
    nodes: &Nodes,
) -> Result<Telemetry, DomainRefused>
    requires holds { HoldsNodes (node_entries (table_view top.now)) nodes.now }
    requires named { length nodes.now.names ≡ length nodes.now.items.items }
    ensures { Gives result (telemetry_faults (table_view top.now)) (HoldsTelemetry nodes.now (table_view top.now)) }
{
    let rows = read_data(alloc, top, nodes)?;
    let flows = read_flows(alloc, top, nodes, MOST_FLOWS, MOST_EXTRAS)?;
    Ok(Telemetry::new(rows, flows))
}

// The domain of a file's tables.
fn read_tables(alloc: Global, top: &toml::Table) -> Result<Domain, DomainRefused>
    ensures read { Gives result (faults_of (table_view top.now)) (IsDomain (table_view top.now)) }
    ensures apart { IfOk result IsApart }
{
    let own = read_own(top)?;
    let parts = read_parts(alloc, top, MOST_TAPS)?;
    let routes = read_routes(alloc, top, &parts)?;
    let telemetry = read_telemetry(alloc, top, &parts.nodes)?;
    match domain_of(alloc, own.format, own.packets, parts, routes, telemetry) {
        Ok(domain) => Ok(domain),
        Err(NoMemory) => Err(DomainRefused::NoMemory),
    }
}

// A fault of the file as a whole.
fn whole_fault(why: Why) -> DomainFault
    ensures { result ≡ fault Top 0 no_key why }
{
    DomainFault {
        table: Table::Top,
        place: 0,
        field: Field(Field::NONE),
        why,
    }
}

/// The fault of a file of more than 1 MiB, for whoever reads no more of a file than that.
pub fn long_file() -> DomainFault
    ensures { result ≡ fault Top 0 no_key Why.Long }
{
    whole_fault(Why::Long)
}

/// Reads a domain file. Of its faults the first is answered, in this order: it has more than
/// 1 MiB; it is no TOML text; the file's own keys; the tables `node`, `link`, `port`, `route`,
/// `data`, `flow` and `extra` in turn, each first as a whole and then its entries in order, each of
/// these first for a key that isn't listed and then key by key. The 257th flow, the 513th extra trace
/// and the 65th tap are one too many. Where there is no memory, NoMemory may be answered in place of
/// anything else.
pub fn read_domain(alloc: Global, octets: &[u8]) -> Result<Domain, DomainRefused>
    ensures file { IsFileRead octets.now result }
    ensures apart { IfOk result IsApart }
{
    if octets.len() > MOST_OCTETS {
        return Err(DomainRefused::Fault(long_file()));
    }
    let text = match std::str::from_utf8(octets) {
        Ok(text) => text,
        Err(_) => return Err(DomainRefused::Fault(whole_fault(Why::Text))),
    };
    match toml::table_from_str(alloc, text) {
        Ok(table) => read_tables(alloc, &table),
        Err(error) => {
            if error.is_memory() {
                Err(DomainRefused::NoMemory)
            } else {
                Err(DomainRefused::Fault(whole_fault(Why::Text)))
            }
        }
    }
}
