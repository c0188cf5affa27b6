//! The table `route`.
ghost use Rattle.std.specs.Prelude.{◌≡◌, Ok, Err, map, is_some, codes};
ghost use Rattle.toml.specs.Data.{get_member};
ghost use Rattle.toml.specs.View.{table_view};
ghost use Rattle.ioam_topo_values.specs.Reads.{◌▷◌, needed};
ghost use Rattle.ioam_topo_values.specs.Texts.{name};
ghost use Rattle.ioam_topo_entries.specs.Faults.{Gives};
ghost use Rattle.ioam_topo_values.specs.Prefixes.{prefix};
ghost use Rattle.ioam_topo_entries.specs.Goods.{known, agrees, read_at};
ghost use Rattle.ioam_topo_network.specs.RouteTable.{way_of, link_part, port_part, fresh_for};
ghost use Rattle.ioam_topo_network.specs.LinkRead.{from_of};
ghost use Rattle.ioam_topo_network.specs.PortRead.{node_of_port};
ghost use Rattle.ioam_topo_network.specs.RouteRead.{keys_behind, IsNewRoute};

use crate::before::AmongParts;
use ioam_topo::{LinkId, NodeId, PortId, Prefix, Route, Way};
use ioam_topo_entries::{Collects, DomainRefused, Spot, Table, known, known_name};
use ioam_topo_tables::{Parts, Routes};
use ioam_topo_values::{Why, has, maybe_name, prefix};
use std::alloc::Global;

// The node of a name at a key.
fn route_node(parts: &Parts, entry: &toml::Table) -> Result<u32, Why>
    ensures { result ≡ needed name (get_member (codes "node") (table_view entry.now)) ▷ known parts.now.nodes.names }
{
    known(&parts.nodes.names, entry, "node")
}

// A link of a name, where it is from a node.
fn link_from(parts: &Parts, node: u32, name: &str) -> Result<u32, Why>
    ensures { result ≡ known parts.now.links.names name.now ▷ (λ i. agrees (Ok node) (read_at (map from_of parts.now.links.items.items) i) i) }
{
    let at = known_name(&parts.links.names, name)?;
    match parts.links.items.get(at as usize) {
        Some(link) if link.from.0 != node => Err(Why::Range),
        _ => Ok(at),
    }
}

// A port of a name, where it is at a node.
fn port_at(parts: &Parts, node: u32, name: &str) -> Result<u32, Why>
    ensures { result ≡ known parts.now.ports.names name.now ▷ (λ i. agrees (Ok node) (read_at (map node_of_port parts.now.ports.items.items) i) i) }
{
    let at = known_name(&parts.ports.names, name)?;
    match parts.ports.items.get(at as usize) {
        Some(port) if port.node.0 != node => Err(Why::Range),
        _ => Ok(at),
    }
}

// The link of an entry, needed where there is no port.
fn route_link(parts: &Parts, node: u32, entry: &toml::Table) -> Result<Option<u32>, Why>
    ensures { result ≡ link_part (λ d. name d ▷ known parts.now.links.names ▷ (λ i. agrees (Ok node) (read_at (map from_of parts.now.links.items.items) i) i))
        (get_member (codes "link") (table_view entry.now)) (is_some (get_member (codes "port") (table_view entry.now))) }
{
    match maybe_name(entry, "link")? {
        Some(name) => Ok(Some(link_from(parts, node, name)?)),
        None if has(entry, "port") => Ok(None),
        None => Err(Why::Missing),
    }
}

// The port of an entry, where there is no link.
fn route_port(parts: &Parts, node: u32, entry: &toml::Table) -> Result<Option<u32>, Why>
    ensures { result ≡ port_part (λ d. name d ▷ known parts.now.ports.names ▷ (λ i. agrees (Ok node) (read_at (map node_of_port parts.now.ports.items.items) i) i))
        (get_member (codes "port") (table_view entry.now)) (is_some (get_member (codes "link") (table_view entry.now))) }
{
    match maybe_name(entry, "port")? {
        Some(name) => {
            let at = port_at(parts, node, name)?;
            if has(entry, "link") {
                Err(Why::Twice)
            } else {
                Ok(Some(at))
            }
        }
        None => Ok(None),
    }
}

// The prefix of an entry, which no other route of the node has.
fn new_prefix(routes: &Routes, node: u32, entry: &toml::Table) -> Result<Prefix, Why>
    ensures { result ≡ needed prefix (get_member (codes "prefix") (table_view entry.now)) ▷ fresh_for (Ok node) routes.now.taken.keys }
{
    match prefix(entry, "prefix") {
        Ok(prefix) if routes.is_taken(node, prefix) => Err(Why::Twice),
        other => other,
    }
}

// The route of an entry.
fn read_route(
    routes: &Routes,
    parts: &Parts,
    place: u32,
    entry: &toml::Table,
) -> Result<Route, DomainRefused>
    ensures { Gives result (keys_behind parts.now place routes.now.taken.keys (table_view entry.now)) (IsNewRoute parts.now routes.now (table_view entry.now)) }
{
    let spot = Spot {
        table: Table::RouteTable,
        place,
    };
    spot.own_keys(entry)?;
    let node = spot.key("node", route_node(parts, entry))?;
    let prefix = spot.key("prefix", new_prefix(routes, node, entry))?;
    let link = spot.key("link", route_link(parts, node, entry))?;
    let port = spot.key("port", route_port(parts, node, entry))?;
    // No fault is left here: of the two keys exactly one was read.
    let way = spot.key("link", way_of(link, port))?;
    Ok(Route {
        node: NodeId(node),
        prefix,
        way,
    })
}

// The way by a link or a port.
fn way_of(link: Option<u32>, port: Option<u32>) -> Result<Way, Why>
    ensures { result ≡ way_of link port }
{
    match (link, port) {
        (Some(at), _) => Ok(Way::Link(LinkId(at))),
        (None, Some(at)) => Ok(Way::Port(PortId(at))),
        (None, None) => Err(Why::Missing),
    }
}

impl<'a> Collects<AmongParts<'a>> for Routes {
    ghost use Rattle.ioam_topo_network.specs.RouteRead.{faults_behind, HoldsRoutes};

    ghost faults = { λ before. faults_behind before.parts.now };

    ghost Holds = { λ before. HoldsRoutes before.parts.now };

    fn take(
        &mut self,
        _alloc: Global,
        before: &AmongParts<'a>,
        place: u32,
        entry: &toml::Table,
    ) -> Result<(), DomainRefused> {
        let route = read_route(self, before.parts, place, entry)?;
        match self.add(route) {
            Ok(()) => Ok(()),
            Err(_) => Err(DomainRefused::NoMemory),
        }
    }
}
