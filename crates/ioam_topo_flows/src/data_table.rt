//! The table `data`.
ghost use Rattle.std.specs.Prelude.{◌≡◌, Ok, codes, is_some};
ghost use Rattle.toml.specs.Data.{get_member};
ghost use Rattle.toml.specs.View.{table_view};
ghost use Rattle.ioam_topo_values.specs.Reads.{◌▷◌, ReadsOr};
ghost use Rattle.ioam_topo_entries.specs.Faults.{Gives};
ghost use Rattle.ioam_topo_flows.specs.Apart.{fresh_with};
ghost use Rattle.ioam_topo_flows.specs.DataTable.{data_space, data_snapshot, values_of, value_keys, data_keys};
ghost use Rattle.ioam_topo_flows.specs.DataRead.{IsNewData};

use crate::before::AmongNodes;
use ioam_data::Namespace;
use ioam_topo::{NodeData, NodeId, Octets};
use ioam_topo_entries::{Collects, DomainRefused, Spot, Table, maybe_number32, number16};
use ioam_topo_tables::{DataRows, Nodes};
use ioam_topo_values::{Refused, Why, beside, has, maybe_number, maybe_octets};
use std::alloc::Global;

const MOST_WIDE: u64 = 9_223_372_036_854_775_807;

// The snapshot of an entry, needed where there is a schema.
fn snapshot(alloc: Global, entry: &toml::Table) -> Result<Option<Octets>, Refused>
    ensures { ReadsOr (λ held. held) result (data_snapshot (table_view entry.now)) }
{
    match maybe_octets(alloc, entry, "snapshot") {
        Ok(Some(octets)) => Ok(Some(octets)),
        Ok(None) if has(entry, "schema") => Err(Refused::Because(Why::Missing)),
        Ok(None) => Ok(None),
        Err(refused) => Err(refused),
    }
}

// The namespace of an entry, which no other of the node's has.
fn new_space(rows: &DataRows, node: u32, entry: &toml::Table) -> Result<u16, Why>
    ensures { result ≡ data_space (table_view entry.now) ▷ fresh_with (Ok node) rows.now.taken.keys }
{
    match number16(entry, "namespace") {
        Ok(space) if rows.is_taken(node, space) => Err(Why::Twice),
        other => other,
    }
}

// What an entry holds for a node in a namespace.
fn read_values(
    alloc: Global,
    spot: Spot,
    node: u32,
    space: u16,
    entry: &toml::Table,
) -> Result<NodeData, DomainRefused>
    requires { spot.table ≡ Table.DataTable }
    ensures { Gives result (value_keys spot.place (table_view entry.now)) (λ row. (values_of node space (table_view entry.now) ≡ Ok row)
        × (row.node.0 ≡ node) × (row.namespace.0 ≡ space)) }
{
    let short = spot.key("short", maybe_number32(entry, "short", 0, 4_294_967_295))?;
    let wide = spot.key("wide", maybe_number(entry, "wide", 0, MOST_WIDE))?;
    let schema = maybe_number32(entry, "schema", 0, 16_777_214);
    let schema = spot.key("schema", beside(schema, has(entry, "snapshot")))?;
    let snapshot = spot.key_or("snapshot", snapshot(alloc, entry))?;
    Ok(NodeData {
        node: NodeId(node),
        namespace: Namespace(space),
        short,
        wide,
        schema,
        snapshot,
    })
}

// The data of an entry.
fn read_row(
    alloc: Global,
    rows: &DataRows,
    nodes: &Nodes,
    place: u32,
    entry: &toml::Table,
) -> Result<NodeData, DomainRefused>
    ensures { Gives result (data_keys nodes.now.names place rows.now.taken.keys (table_view entry.now)) (IsNewData nodes.now.names rows.now (table_view entry.now)) }
{
    let spot = Spot {
        table: Table::DataTable,
        place,
    };
    spot.own_keys(entry)?;
    let node = spot.known(&nodes.names, entry, "node")?;
    let space = spot.key("namespace", new_space(rows, node, entry))?;
    read_values(alloc, spot, node, space, entry)
}

impl<'a> Collects<AmongNodes<'a>> for DataRows {
    ghost use Rattle.ioam_topo_flows.specs.DataTable.{data_faults};
    ghost use Rattle.ioam_topo_flows.specs.DataRead.{HoldsData};

    ghost faults = { λ before. data_faults before.nodes.now.names };

    ghost Holds = { λ before. HoldsData before.nodes.now.names };

    fn take(
        &mut self,
        alloc: Global,
        before: &AmongNodes<'a>,
        place: u32,
        entry: &toml::Table,
    ) -> Result<(), DomainRefused> {
        let row = read_row(alloc, self, before.nodes, place, entry)?;
        match self.add(row) {
            Ok(()) => Ok(()),
            Err(_) => Err(DomainRefused::NoMemory),
        }
    }
}
