//! Look-ups among the node data and the flows of a domain.
ghost use Rattle.std.specs.Prelude.{◌≡◌, ◌<◌, ◌≤◌, length, map, position, slice_get, Some, IfSome};
ghost use Rattle.std.specs.List.{All};
ghost use Rattle.std.specs.Option.{option_copied};
ghost use Rattle.ioam_topo.specs.Sound.{IsNodeData, IsFlow};
ghost use Rattle.ioam_topo.specs.Finding.{data_at, encloses, flow_at, is_data_of};
ghost use Rattle.ioam_topo.specs.Kept.{IsOfNode, JoinsEnds};
ghost use Rattle.ioam_topo.specs.Known.{IsKnownAtEnds};
ghost use Rattle.ioam_topo.specs.Apart.{AreApart, FlowsApart};
ghost use Rattle.ioam_topo.specs.Keyed.{is_pair, key_of_data};
ghost use Rattle.ioam_topo.specs.Index.{flows_of, rows_of, first_place, passes};

use crate::domain::Domain;
use crate::forward::FEW;
use crate::ids::{FlowId, NodeId};
use crate::masks::matches;
use crate::parts::{Flow, NodeData};
use ioam_data::Namespace;
use ioam_ip::Header;

// Whether a node encloses, for this flow, packets from a source to a target.
fn encloses(node: NodeId, source: u128, target: u128, flow: &Flow) -> bool
    ensures { result ≡ encloses node.0 source target flow.now }
{
    flow.entry.0 == node.0 && matches(flow.source, source) && matches(flow.target, target)
}

// Whether a node encloses, for the flow of a place, packets from a source to a target.
fn encloses_at(flows: &[Flow], at: u32, node: NodeId, source: u128, target: u128) -> bool
    ensures { result ≡ passes (encloses node.0 source target) (slice_get flows.now at) }
{
    match flows.get(at as usize) {
        Some(flow) => encloses(node, source, target, flow),
        None => false,
    }
}

// The first of some places whose flow is one of a node for a source and a target.
fn first_of(flows: &[Flow], places: &[u32], node: NodeId, source: u128, target: u128) -> Option<u32>
    ensures value { result ≡ first_place (encloses node.0 source target) flows.now places.now }
    ensures within { IfSome result (λ at. at < length flows.now) }
{
    for at in places {
        if encloses_at(flows, *at, node, source, target) {
            return Some(*at);
        }
    }
    None
}

// Whether data are those of a node in a namespace.
fn is_data_of(row: &NodeData, node: NodeId, namespace: Namespace) -> bool
    ensures { result ≡ is_data_of node.0 namespace.0 row.now }
{
    node.0 == row.node.0 && namespace.0 == row.namespace.0
}

// Whether those at a place are.
fn is_data_at(rows: &[NodeData], at: u32, node: NodeId, namespace: Namespace) -> bool
    ensures { result ≡ passes (is_data_of node.0 namespace.0) (slice_get rows.now at) }
{
    match rows.get(at as usize) {
        Some(row) => is_data_of(row, node, namespace),
        None => false,
    }
}

// The first of some places whose data are those of a node in a namespace.
fn first_row(rows: &[NodeData], places: &[u32], node: NodeId, namespace: Namespace) -> Option<u32>
    ensures value { result ≡ first_place (is_data_of node.0 namespace.0) rows.now places.now }
    ensures within { IfSome result (λ at. at < length rows.now) }
{
    for at in places {
        if is_data_at(rows, *at, node, namespace) {
            return Some(*at);
        }
    }
    None
}

impl Domain {
    ghost use Rattle.ioam_topo.specs.Domain.{nodes, node_data, flows};

    /// The flows, in file order: at most 256, each from a node of the domain to another, which
    /// both know its namespaces, and within its bounds, a trace there exactly where its capacity is,
    /// and direct exports exactly where their rate and their id are. No two have one name, and no
    /// two of one namespace have one id.
    pub fn flows(&self) -> &[Flow]
        ensures few { length (flows self.now) ≤ 256 }
        ensures value { result.now ≡ flows self.now }
        ensures ends { All (JoinsEnds (length (nodes self.now))) result.now }
        ensures known { All (IsKnownAtEnds (nodes self.now)) result.now }
        ensures sound { All IsFlow result.now }
        ensures apart { FlowsApart result.now }
    {
        self.parts.flows.as_slice()
    }

    /// A flow by its id.
    pub fn flow(&self, id: FlowId) -> &Flow
        requires { id.0 < length (flows self.now) }
        ensures value { slice_get (flows self.now) id.0 ≡ Some result.now }
        ensures ends { JoinsEnds (length (nodes self.now)) result.now }
        ensures known { IsKnownAtEnds (nodes self.now) result.now }
        ensures sound { IsFlow result.now }
    {
        &self.parts.flows[id.0 as usize]
    }

    /// The data of the nodes, in file order: at most 4,096, each of a node of the domain and within
    /// its bounds, a schema there exactly where its snapshot is. No two of one node have one
    /// namespace.
    pub fn data(&self) -> &[NodeData]
        ensures few { length (node_data self.now) ≤ 4096 }
        ensures value { result.now ≡ node_data self.now }
        ensures places { All (IsOfNode (length (nodes self.now))) result.now }
        ensures sound { All IsNodeData result.now }
        ensures apart { AreApart key_of_data result.now }
    {
        self.parts.data.as_slice()
    }

    // The data at a place.
    fn row(&self, at: u32) -> &NodeData
        requires { at < length (node_data self.now) }
        ensures { slice_get (node_data self.now) at ≡ Some result.now }
    {
        &self.parts.data[at as usize]
    }

    // The places of a node's data, in file order.
    fn rows_at(&self, node: NodeId) -> &[u32]
        ensures { result.now ≡ rows_of (node_data self.now) node.0 }
    {
        match self.index.get(node.0 as usize) {
            Some(at) => at.rows.as_slice(),
            None => &[],
        }
    }

    // The place of the data of a node in a namespace, by the table of all.
    fn place_in_table(&self, node: NodeId, namespace: Namespace) -> Option<u32>
        ensures value { result ≡ position (is_pair node.0 namespace.0) (map key_of_data (node_data self.now)) }
        ensures within { IfSome result (λ at. at < length (node_data self.now)) }
    {
        self.by_namespace.get(&(node.0, namespace.0)).copied()
    }

    // The place of the data of a node in a namespace.
    fn place_of_data(&self, node: NodeId, namespace: Namespace) -> Option<u32>
        ensures value { result ≡ position (is_pair node.0 namespace.0) (map key_of_data (node_data self.now)) }
        ensures within { IfSome result (λ at. at < length (node_data self.now)) }
    {
        let own = self.rows_at(node);
        if own.len() <= FEW {
            first_row(self.data(), own, node, namespace)
        } else {
            self.place_in_table(node, namespace)
        }
    }

    /// The data of a node in a namespace, where the file has them.
    pub fn node_data(&self, node: NodeId, namespace: Namespace) -> Option<&NodeData>
        ensures value { option_copied result ≡ data_at (node_data self.now) node.0 namespace.0 }
        ensures sound { IfSome result (λ row. IsNodeData row.now) }
    {
        match self.place_of_data(node, namespace) {
            Some(at) => Some(self.row(at)),
            None => None,
        }
    }

    // The places of a node's flows, in file order.
    fn flows_at(&self, node: NodeId) -> &[u32]
        ensures { result.now ≡ flows_of (flows self.now) node.0 }
    {
        match self.index.get(node.0 as usize) {
            Some(at) => at.flows.as_slice(),
            None => &[],
        }
    }

    /// The flow for which a node encloses a packet with this header: of the flows whose entry is
    /// the node, the first in file order whose source and target prefixes match the addresses.
    pub fn flow_at(&self, node: NodeId, header: &Header) -> Option<FlowId>
        ensures value { result ≡ flow_at (flows self.now) node.0 header.now.source header.now.target }
        ensures inside { IfSome result (λ flow. flow.0 < length (flows self.now)) }
    {
        let places = self.flows_at(node);
        match first_of(self.flows(), places, node, header.source, header.target) {
            Some(at) => Some(FlowId(at)),
            None => None,
        }
    }
}
