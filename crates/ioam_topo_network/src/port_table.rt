//! The table `port`.
ghost use Rattle.std.specs.Prelude.{◌≡◌, IfOk, option_map};
ghost use Rattle.toml.specs.View.{table_view};
ghost use Rattle.ioam_topo_entries.specs.Faults.{Gives};
ghost use Rattle.ioam_topo_network.specs.PortTable.{port_keys};
ghost use Rattle.ioam_topo_network.specs.PortRead.{IsNewPort};

use crate::before::AmongNodes;
use crate::link_table::maybe_copied;
use ioam_base::memory::NoMemory;
use ioam_base::name::Name;
use ioam_topo::{NodeId, Port};
use ioam_topo_entries::{Collects, DomainRefused, Spot, Table};
use ioam_topo_tables::{Nodes, Ports};
use ioam_topo_values::{file_name, maybe_file_name};
use std::alloc::Global;

// A port of these parts.
fn port_of(
    alloc: Global,
    name: &str,
    node: NodeId,
    id: u32,
    input: Option<&str>,
    output: &str,
) -> Result<Port, NoMemory>
    ensures { IfOk result (λ port. port ≡ record {
      name = name.now;
      node = node;
      id = id;
      input = option_map (λ t. t.now) input.entry;
      output = output.now;
    }) }
{
    Ok(Port {
        name: Name::new(alloc, name)?,
        node,
        id,
        input: maybe_copied(alloc, input)?,
        output: Name::new(alloc, output)?,
    })
}

// The port of an entry, with its name.
fn read_port<'a>(
    alloc: Global,
    ports: &Ports,
    nodes: &Nodes,
    place: u32,
    entry: &'a toml::Table,
) -> Result<(&'a str, Port), DomainRefused>
    ensures { Gives result (port_keys nodes.now.names place ports.now.names (table_view entry.now))
        (λ row. IsNewPort nodes.now.names ports.now (table_view entry.now) row.0.now row.1) }
{
    let spot = Spot {
        table: Table::PortTable,
        place,
    };
    spot.own_keys(entry)?;
    let text = spot.new_name(&ports.names, entry, "name")?;
    let node = spot.known(&nodes.names, entry, "node")?;
    let id = spot.number32(entry, "id", 0, 4_294_967_295)?;
    let input = spot.key("in", maybe_file_name(entry, "in"))?;
    let output = spot.key("out", file_name(entry, "out"))?;
    match port_of(alloc, text, NodeId(node), id, input, output) {
        Ok(port) => Ok((text, port)),
        Err(_) => Err(DomainRefused::NoMemory),
    }
}

impl<'a> Collects<AmongNodes<'a>> for Ports {
    ghost use Rattle.ioam_topo_network.specs.PortTable.{port_faults};
    ghost use Rattle.ioam_topo_network.specs.PortRead.{HoldsPorts};

    ghost faults = { λ before. port_faults before.nodes.now.names };

    ghost Holds = { λ before. HoldsPorts before.nodes.now.names };

    fn take(
        &mut self,
        alloc: Global,
        before: &AmongNodes<'a>,
        place: u32,
        entry: &toml::Table,
    ) -> Result<(), DomainRefused> {
        let (text, port) = match read_port(alloc, self, before.nodes, place, entry) {
            Ok(row) => row,
            Err(refused) => return Err(refused),
        };
        match self.add(alloc, text, port) {
            Ok(()) => Ok(()),
            Err(_) => Err(DomainRefused::NoMemory),
        }
    }
}
