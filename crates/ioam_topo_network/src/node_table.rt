//! The table `node`.
ghost use Rattle.std.specs.Prelude.{◌≡◌, nat_eq};
ghost use Rattle.toml.specs.View.{table_view};
ghost use Rattle.ioam_topo_values.specs.Reads.{◌▷◌};
ghost use Rattle.ioam_topo_entries.specs.Faults.{Gives};
ghost use Rattle.ioam_topo_entries.specs.Goods.{fresh};
ghost use Rattle.ioam_topo_network.specs.NodeTable.{node_keys};
ghost use Rattle.ioam_topo_network.specs.NodeRead.{IsNewNode};

use crate::before::Nothing;
use ioam_base::name::Name;
use ioam_topo::Node;
use ioam_topo_entries::{Collects, DomainRefused, Spot, Table};
use ioam_topo_tables::Nodes;
use ioam_topo_values::{Why, address, namespaces, number};
use std::alloc::Global;

const MOST_ID: u64 = 72_057_594_037_927_935;

fn new_id(nodes: &Nodes, read: Result<u64, Why>) -> Result<u64, Why>
    ensures { result ≡ read ▷ fresh nat_eq nodes.now.ids.keys }
{
    match read {
        Ok(id) if nodes.has_id(id) => Err(Why::Twice),
        other => other,
    }
}

fn new_address(nodes: &Nodes, read: Result<u128, Why>) -> Result<u128, Why>
    ensures { result ≡ read ▷ fresh nat_eq nodes.now.addresses.keys }
{
    match read {
        Ok(address) if nodes.has_address(address) => Err(Why::Twice),
        other => other,
    }
}

// The node of an entry, with its name.
fn read_node<'a>(
    alloc: Global,
    nodes: &Nodes,
    place: u32,
    entry: &'a toml::Table,
) -> Result<(&'a str, Node), DomainRefused>
    ensures { Gives result (node_keys place nodes.now.names nodes.now.ids.keys nodes.now.addresses.keys (table_view entry.now))
        (λ row. IsNewNode nodes.now (table_view entry.now) row.0.now row.1) }
{
    let spot = Spot {
        table: Table::NodeTable,
        place,
    };
    spot.own_keys(entry)?;
    let text = spot.new_name(&nodes.names, entry, "name")?;
    let id = spot.key("id", new_id(nodes, number(entry, "id", 0, MOST_ID)))?;
    let address = spot.key("address", new_address(nodes, address(entry, "address")))?;
    let namespaces = spot.key_or("namespaces", namespaces(alloc, entry, "namespaces"))?;
    match Name::new(alloc, text) {
        Ok(name) => Ok((
            text,
            Node {
                name,
                id,
                address,
                namespaces,
            },
        )),
        Err(_) => Err(DomainRefused::NoMemory),
    }
}

impl Collects<Nothing> for Nodes {
    ghost use Rattle.ioam_topo_network.specs.NodeTable.{node_faults};
    ghost use Rattle.ioam_topo_network.specs.NodeRead.{HoldsNodes};

    ghost faults = { λ _. node_faults };

    ghost Holds = { λ _. HoldsNodes };

    fn take(
        &mut self,
        alloc: Global,
        _before: &Nothing,
        place: u32,
        entry: &toml::Table,
    ) -> Result<(), DomainRefused> {
        let (text, node) = match read_node(alloc, self, place, entry) {
            Ok(row) => row,
            Err(refused) => return Err(refused),
        };
        match self.add(alloc, text, node) {
            Ok(()) => Ok(()),
            Err(_) => Err(DomainRefused::NoMemory),
        }
    }
}
