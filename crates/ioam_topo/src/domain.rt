//! A domain, and how it is put together of its parts.
ghost use Rattle.std.specs.Prelude.{◌≡◌, ◌≤◌, ◌^◌, length, map, nat_eq, IfOk};
ghost use Rattle.ioam_topo.specs.Kept.{SoundNodes, SoundLinks, SoundPorts, SoundRoutes, SoundData, SoundFlows};
ghost use Rattle.ioam_topo.specs.Keyed.{address_of_node, key_of_route, key_of_data, is_route, is_pair};
ghost use Rattle.ioam_topo.specs.Places.{ArePlaces};
ghost use Rattle.ioam_topo.specs.Index.{IsIndex};

use crate::format::Format;
use crate::index::{AtNode, index_of};
use crate::parts::{Flow, Link, Node, NodeData, Port, Route};
use crate::places::{addresses_of, namespaces_of, places_of, prefixes_of};
use crate::prefix::Prefix;
use ioam_base::memory::NoMemory;
use std::alloc::Global;
use std::collections::HashMap;

/// What a domain has, each in the order of its file, and each numbered by its place from 0.
#[derive(Drop)]
pub struct DomainParts {
    /// The nodes.
    pub nodes: Vec<Node>,
    /// The links.
    pub links: Vec<Link>,
    /// The ports.
    pub ports: Vec<Port>,
    /// The routes.
    pub routes: Vec<Route>,
    /// The data of the nodes.
    pub data: Vec<NodeData>,
    /// The flows.
    pub flows: Vec<Flow>,
}

/// A domain: its nodes, links, ports, routes, node data and flows in the order of the file.
#[derive(Drop)]
pub struct Domain {
    pub(crate) format: Format,
    pub(crate) packets: u32,
    pub(crate) parts: DomainParts,
    // The places of the nodes by their addresses, of the routes by their nodes and prefixes, of the data
    // by their nodes and namespaces.
    pub(crate) by_address: HashMap<u128, u32>,
    pub(crate) by_prefix: HashMap<(u32, Prefix), u32>,
    pub(crate) by_namespace: HashMap<(u32, u16), u32>,
    pub(crate) index: Vec<AtNode>,
    ghost packets_some: { 1 ≤ packets },
    ghost packets_most: { packets ≤ 2 ^ 24 },
    ghost sound_nodes: { SoundNodes parts.nodes.items },
    ghost sound_links: { SoundLinks (length parts.nodes.items) parts.links.items },
    ghost sound_ports: { SoundPorts (length parts.nodes.items) parts.ports.items },
    ghost sound_routes: { SoundRoutes (length parts.nodes.items) parts.links.items parts.ports.items parts.routes.items },
    ghost sound_data: { SoundData (length parts.nodes.items) parts.data.items },
    ghost sound_flows: { SoundFlows parts.nodes.items parts.flows.items },
    ghost addresses: { ArePlaces nat_eq (map address_of_node parts.nodes.items) by_address },
    ghost prefixes: { ArePlaces (λ k. is_route k.0 k.1) (map key_of_route parts.routes.items) by_prefix },
    ghost namespaces: { ArePlaces (λ k. is_pair k.0 k.1) (map key_of_data parts.data.items) by_namespace },
    ghost indexed: { IsIndex (length parts.nodes.items) parts.routes.items parts.flows.items parts.data.items index.items },
}

impl Domain {
    ghost use Rattle.ioam_topo.specs.Domain.{nodes, links, ports, routes, node_data, flows};

    /// The domain of these parts, which are to keep what every domain keeps: at most so many of
    /// each, each within its bounds, no two of one name or key, and each reference to something there.
    /// NoMemory says that there is no memory for what they are looked up by.
    pub fn new(
        alloc: Global,
        format: Format,
        packets: u32,
        parts: DomainParts,
    ) -> Result<Domain, NoMemory>
        requires packets_some { 1 ≤ packets }
        requires packets_most { packets ≤ 2 ^ 24 }
        requires nodes { SoundNodes parts.nodes.items }
        requires links { SoundLinks (length parts.nodes.items) parts.links.items }
        requires ports { SoundPorts (length parts.nodes.items) parts.ports.items }
        requires routes { SoundRoutes (length parts.nodes.items) parts.links.items parts.ports.items parts.routes.items }
        requires data { SoundData (length parts.nodes.items) parts.data.items }
        requires flows { SoundFlows parts.nodes.items parts.flows.items }

        ensures format { IfOk result (λ domain. domain.format ≡ format) }
        ensures packets { IfOk result (λ domain. domain.packets ≡ packets) }
        ensures nodes { IfOk result (λ domain. nodes domain ≡ parts.nodes.items) }
        ensures links { IfOk result (λ domain. links domain ≡ parts.links.items) }
        ensures ports { IfOk result (λ domain. ports domain ≡ parts.ports.items) }
        ensures routes { IfOk result (λ domain. routes domain ≡ parts.routes.items) }
        ensures data { IfOk result (λ domain. node_data domain ≡ parts.data.items) }
        ensures flows { IfOk result (λ domain. flows domain ≡ parts.flows.items) }
    {
        let by_address = places_of(alloc, &addresses_of(alloc, &parts.nodes)?)?;
        let by_prefix = places_of(alloc, &prefixes_of(alloc, &parts.routes)?)?;
        let by_namespace = places_of(alloc, &namespaces_of(alloc, &parts.data)?)?;
        let index = index_of(
            alloc,
            parts.nodes.len(),
            &parts.routes,
            &parts.flows,
            &parts.data,
        )?;
        Ok(Domain {
            format,
            packets,
            parts,
            by_address,
            by_prefix,
            by_namespace,
            index,
        })
    }
}

// Compiles only where threads may share a value of the type.
fn shared<T: Sync>() {}

// Not called: that it compiles is what it shows.
fn _workers_share_the_domain() {
    shared::<Domain>();
}
