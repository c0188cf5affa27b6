//! Look-ups among the nodes, links, ports and routes of a domain.
ghost use Rattle.std.specs.Prelude.{◌≡◌, ◌<◌, ◌≤◌, ◌^◌, length, position, slice_get, Some, IfSome};
ghost use Rattle.std.specs.Str.{bytes_eq};
ghost use Rattle.std.specs.List.{All};
ghost use Rattle.ioam_topo.specs.Domain.{is_local, spaces_of};
ghost use Rattle.ioam_topo.specs.Sound.{IsNode, IsLink, IsPort};
ghost use Rattle.ioam_topo.specs.Spaces.{knows_space};
ghost use Rattle.ioam_topo.specs.Apart.{AreApart, NodesApart};
ghost use Rattle.ioam_topo.specs.Keyed.{name_of_link, taps_of, name_of_port, key_of_route};
ghost use Rattle.ioam_topo.specs.Prefixes.{IsPrefix};
ghost use Rattle.ioam_topo.specs.Kept.{JoinsNodes, IsAtNode, IsRouteOf};

use crate::domain::Domain;
use crate::format::Format;
use crate::ids::{LinkId, NodeId, PortId};
use crate::parts::{Link, Node, Port, Route};
use ioam_data::Namespace;

// The place of the node of a name among these.
fn place_of_node(nodes: &[Node], name: &str) -> Option<usize>
    ensures value { result ≡ position (λ node. bytes_eq name.now node.name) nodes.now }
    ensures within { IfSome result (λ at. at < length nodes.now) }
{
    nodes.iter().position(|node| name == node.name.text())
}

// The place of the link of a name among these.
fn place_of_link(links: &[Link], name: &str) -> Option<usize>
    ensures value { result ≡ position (λ link. bytes_eq name.now link.name) links.now }
    ensures within { IfSome result (λ at. at < length links.now) }
{
    links.iter().position(|link| name == link.name.text())
}

impl Domain {
    ghost use Rattle.ioam_topo.specs.Domain.{nodes, links, ports, routes, node_of_name, link_of_name};

    /// The nodes, in file order: at most 256, each with an id below 2^56 and a list of at most 16
    /// namespaces.
    pub fn nodes(&self) -> &[Node]
        ensures few { length (nodes self.now) ≤ 256 }
        ensures sound { All IsNode result.now }
        ensures apart { NodesApart result.now }
        ensures value { result.now ≡ nodes self.now }
    {
        self.parts.nodes.as_slice()
    }

    /// The links, in file order: at most 1,024, each from a node of the domain to another, with a
    /// delay of at most 1,000,000,000 ns and an MTU from 1,280 to 65,575. At most 64 have a tap.
    pub fn links(&self) -> &[Link]
        ensures few { length (links self.now) ≤ 1024 }
        ensures ends { All (JoinsNodes (length (nodes self.now))) result.now }
        ensures sound { All IsLink result.now }
        ensures apart { AreApart name_of_link result.now }
        ensures taps { taps_of result.now ≤ 64 }
        ensures value { result.now ≡ links self.now }
    {
        self.parts.links.as_slice()
    }

    /// The ports, in file order: at most 64, each at a node of the domain.
    pub fn ports(&self) -> &[Port]
        ensures few { length (ports self.now) ≤ 64 }
        ensures places { All (IsAtNode (length (nodes self.now))) result.now }
        ensures sound { All IsPort result.now }
        ensures apart { AreApart name_of_port result.now }
        ensures value { result.now ≡ ports self.now }
    {
        self.parts.ports.as_slice()
    }

    /// The routes, in file order: at most 16,384, each of a node of the domain, with a way from
    /// there and a prefix of at most 128 bits, behind which the others are 0. No two of one node have
    /// one prefix.
    pub fn routes(&self) -> &[Route]
        ensures few { length (routes self.now) ≤ 16384 }
        ensures ways { All (IsRouteOf (length (nodes self.now)) (links self.now) (ports self.now)) result.now }
        ensures prefixes { All (λ route. IsPrefix route.prefix) result.now }
        ensures apart { AreApart key_of_route result.now }
        ensures value { result.now ≡ routes self.now }
    {
        self.parts.routes.as_slice()
    }

    /// A node by its id.
    pub fn node(&self, id: NodeId) -> &Node
        requires { id.0 < length (nodes self.now) }
        ensures value { slice_get (nodes self.now) id.0 ≡ Some result.now }
        ensures sound { IsNode result.now }
    {
        &self.parts.nodes[id.0 as usize]
    }

    /// A link by its id.
    pub fn link(&self, id: LinkId) -> &Link
        requires { id.0 < length (links self.now) }
        ensures value { slice_get (links self.now) id.0 ≡ Some result.now }
        ensures ends { JoinsNodes (length (nodes self.now)) result.now }
        ensures sound { IsLink result.now }
    {
        &self.parts.links[id.0 as usize]
    }

    /// A port by its id.
    pub fn port(&self, id: PortId) -> &Port
        requires { id.0 < length (ports self.now) }
        ensures value { slice_get (ports self.now) id.0 ≡ Some result.now }
        ensures place { IsAtNode (length (nodes self.now)) result.now }
        ensures sound { IsPort result.now }
    {
        &self.parts.ports[id.0 as usize]
    }

    /// The node of a name, if there is one.
    pub fn node_named(&self, name: &str) -> Option<NodeId>
        ensures value { result ≡ node_of_name self.now name.now }
        ensures inside { IfSome result (λ node. node.0 < length (nodes self.now)) }
    {
        match place_of_node(self.nodes(), name) {
            Some(at) => Some(NodeId(at as u32)),
            None => None,
        }
    }

    /// The link of a name, if there is one.
    pub fn link_named(&self, name: &str) -> Option<LinkId>
        ensures value { result ≡ link_of_name self.now name.now }
        ensures inside { IfSome result (λ link. link.0 < length (links self.now)) }
    {
        match place_of_link(self.links(), name) {
            Some(at) => Some(LinkId(at as u32)),
            None => None,
        }
    }

    /// The format of the domain's timestamps.
    pub fn format(&self) -> Format
        ensures { result ≡ self.now.format }
    {
        self.format
    }

    /// The most packets of a run, 1 to 16,777,216.
    pub fn packets(&self) -> u32
        ensures value { result ≡ self.now.packets }
        ensures some { 1 ≤ result }
        ensures most { result ≤ 2 ^ 24 }
    {
        self.packets
    }

    /// Whether a target is an address of a node of the domain.
    pub fn is_local(&self, target: u128) -> bool
        ensures { result ≡ is_local self.now target }
    {
        self.by_address.contains_key(&target)
    }

    /// Whether a node knows a namespace; every node knows namespace 0.
    pub fn knows(&self, node: NodeId, namespace: Namespace) -> bool
        ensures { result ≡ knows_space (spaces_of (slice_get (nodes self.now) node.0)) namespace.0 }
    {
        match self.nodes().get(node.0 as usize) {
            Some(known) => known.namespaces.knows(namespace.0),
            None => namespace.0 == 0,
        }
    }
}
