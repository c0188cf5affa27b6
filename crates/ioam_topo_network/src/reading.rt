//! The nodes, links, ports and routes of a domain file.
ghost use Rattle.std.specs.Prelude.{◌≡◌, ◌++◌, codes};
ghost use Rattle.toml.specs.Data.{get_member};
ghost use Rattle.toml.specs.View.{table_view};
ghost use Rattle.ioam_topo_values.specs.Entries.{entries};
ghost use Rattle.ioam_topo_entries.specs.declared.words.Table.TheVariants.{NodeTable, LinkTable, PortTable, RouteTable};
ghost use Rattle.ioam_topo_entries.specs.Faults.{Gives, table_faults};
ghost use Rattle.ioam_topo_network.specs.NodeTable.{node_faults};
ghost use Rattle.ioam_topo_network.specs.NodeRead.{HoldsNodes};
ghost use Rattle.ioam_topo_network.specs.LinkTable.{link_faults};
ghost use Rattle.ioam_topo_network.specs.LinkRead.{HoldsLinks};
ghost use Rattle.ioam_topo_network.specs.PortTable.{port_faults};
ghost use Rattle.ioam_topo_network.specs.PortRead.{HoldsPorts};
ghost use Rattle.ioam_topo_network.specs.RouteRead.{faults_behind, HoldsRoutes};
ghost use Rattle.ioam_topo_network.specs.Places.{node_entries, link_entries, port_entries, route_entries, part_faults, HoldsParts};

use crate::before::{AmongNodes, AmongParts, Nothing};
use ioam_topo_entries::{DomainRefused, Table, read_entries};
use ioam_topo_tables::{
    Links, MOST_LINKS, MOST_NODES, MOST_PORTS, MOST_ROUTES, Nodes, Parts, Ports, Routes,
};
use std::alloc::Global;

// The nodes of a file.
fn read_nodes(alloc: Global, top: &toml::Table) -> Result<Nodes, DomainRefused>
    ensures { Gives result (table_faults NodeTable 256 (get_member (codes "node") (table_view top.now)) node_faults)
        (HoldsNodes (node_entries (table_view top.now))) }
{
    let none = Nodes::new(alloc);
    read_entries(
        alloc,
        top,
        Table::NodeTable,
        "node",
        MOST_NODES,
        &Nothing,
        none,
    )
}

// The links of a file, whose nodes these are.
fn read_links(
    alloc: Global,
    top: &toml::Table,
    nodes: &Nodes,
    taps: u32,
) -> Result<Links, DomainRefused>
    ensures { Gives result (table_faults LinkTable 1024 (get_member (codes "link") (table_view top.now)) (link_faults nodes.now.names taps))
        (HoldsLinks nodes.now.names taps (link_entries (table_view top.now))) }
{
    let before = AmongNodes { nodes, taps };
    let none = Links::new(alloc);
    read_entries(
        alloc,
        top,
        Table::LinkTable,
        "link",
        MOST_LINKS,
        &before,
        none,
    )
}

// The ports of a file, whose nodes these are.
fn read_ports(alloc: Global, top: &toml::Table, nodes: &Nodes) -> Result<Ports, DomainRefused>
    ensures { Gives result (table_faults PortTable 64 (get_member (codes "port") (table_view top.now)) (port_faults nodes.now.names))
        (HoldsPorts nodes.now.names (port_entries (table_view top.now))) }
{
    let before = AmongNodes { nodes, taps: 0 };
    let none = Ports::new(alloc);
    read_entries(
        alloc,
        top,
        Table::PortTable,
        "port",
        MOST_PORTS,
        &before,
        none,
    )
}

// The links and the ports of a file, whose nodes these are.
fn read_joined(
    alloc: Global,
    top: &toml::Table,
    nodes: &Nodes,
    taps: u32,
) -> Result<(Links, Ports), DomainRefused>
    ensures { Gives result (table_faults LinkTable 1024 (get_member (codes "link") (table_view top.now)) (link_faults nodes.now.names taps)
        ++ table_faults PortTable 64 (get_member (codes "port") (table_view top.now)) (port_faults nodes.now.names))
        (λ both. HoldsLinks nodes.now.names taps (link_entries (table_view top.now)) both.0
        × HoldsPorts nodes.now.names (port_entries (table_view top.now)) both.1) }
{
    let links = read_links(alloc, top, nodes, taps)?;
    let ports = read_ports(alloc, top, nodes)?;
    Ok((links, ports))
}

/// The nodes, links and ports of a file, or the first fault of these tables. No more than `taps`
/// links may have a tap. Where there is no memory, NoMemory may be answered in place of anything
/// else.
pub fn read_parts(alloc: Global, top: &toml::Table, taps: u32) -> Result<Parts, DomainRefused>
    ensures { Gives result (part_faults taps (table_view top.now)) (HoldsParts taps (table_view top.now)) }
{
    let nodes = read_nodes(alloc, top)?;
    let (links, ports) = read_joined(alloc, top, &nodes, taps)?;
    Ok(Parts {
        nodes,
        links,
        ports,
    })
}

/// The routes of a file, whose nodes, links and ports these are, or the first fault of their table.
/// Where there is no memory, NoMemory may be answered in place of anything else.
pub fn read_routes(alloc: Global, top: &toml::Table, parts: &Parts) -> Result<Routes, DomainRefused>
    ensures { Gives result (table_faults RouteTable 16384 (get_member (codes "route") (table_view top.now)) (faults_behind parts.now))
        (HoldsRoutes parts.now (route_entries (table_view top.now))) }
{
    let before = AmongParts { parts };
    let none = Routes::new(alloc);
    read_entries(
        alloc,
        top,
        Table::RouteTable,
        "route",
        MOST_ROUTES,
        &before,
        none,
    )
}
