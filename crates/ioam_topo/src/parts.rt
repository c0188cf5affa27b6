//! The parts of a domain: nodes, links, ports, routes, node data and flows.
ghost use Rattle.std.specs.Prelude.{◌≡◌};

use crate::ids::{NodeId, Way};
use crate::octets::Octets;
use crate::prefix::Prefix;
use crate::spaces::Spaces;
use crate::traces::{FlowTrace, Traces};
use ioam_base::name::Name;
use ioam_data::{Namespace, TraceType};

/// A node of the domain.
#[derive(Debug, Drop)]
pub struct Node {
    /// Its name; no two nodes have one name.
    pub name: Name,
    /// Its id, below 2^56; no two nodes have one id.
    pub id: u64,
    /// Its address, the first group the most significant; no two nodes have one address.
    pub address: u128,
    /// The namespaces that it lists, at most 16; it knows namespace 0 whether or not it lists it.
    pub namespaces: Spaces,
}

/// A link from one node to another.
#[derive(Debug, Drop)]
pub struct Link {
    /// Its name; no two links have one name.
    pub name: Name,
    /// The node that sends.
    pub from: NodeId,
    /// The node that receives, another than `from`.
    pub to: NodeId,
    /// The id of the interface at `from`.
    pub out_id: u32,
    /// The id of the interface at `to`.
    pub in_id: u32,
    /// How long a crossing takes, in nanoseconds, at most 1,000,000,000.
    pub delay: u32,
    /// The most octets of a packet on the link, 1,280 to 65,575.
    pub mtu: u32,
    /// The file that has each packet that crosses.
    pub tap: Option<Name>,
}

/// A port, at which packets arrive and leave.
#[derive(Debug, Drop)]
pub struct Port {
    /// Its name; no two ports have one name.
    pub name: Name,
    /// Its node.
    pub node: NodeId,
    /// The id of the interface.
    pub id: u32,
    /// The file of the packets that arrive.
    pub input: Option<Name>,
    /// The file of the packets that leave.
    pub output: Name,
}

/// A route of a node.
#[derive(Clone, Copy, Debug)]
pub struct Route {
    /// The node.
    pub node: NodeId,
    /// The targets; no two routes of one node have one prefix.
    pub prefix: Prefix,
    /// Where they are sent: a link from the node or a port of the node.
    pub way: Way,
}

/// The data of a node in one namespace.
#[derive(Debug, Drop)]
pub struct NodeData {
    /// The node.
    pub node: NodeId,
    /// The namespace; no two entries of one node have one namespace.
    pub namespace: Namespace,
    /// What the node records as namespace-specific data (RFC 9197 section 4.4.2.6).
    pub short: Option<u32>,
    /// What the node records as wide namespace-specific data, below 2^63 (RFC 9197 section
    /// 4.4.2.11).
    pub wide: Option<u64>,
    /// The schema of its opaque state snapshot, at most 16,777,214; there is one exactly where
    /// there is a snapshot.
    pub schema: Option<u32>,
    /// Its opaque state snapshot (RFC 9197 section 4.4.2.13): whole words of 4 octets, at most 180
    /// octets, perhaps none.
    pub snapshot: Option<Octets>,
}

/// A flow: which packets are enclosed on their way from one node to another, and with which IOAM
/// options.
#[derive(Debug, Drop)]
pub struct Flow {
    /// Its name; no two flows have one name.
    pub name: Name,
    /// The node that encloses.
    pub entry: NodeId,
    /// The node that takes the packet out again, another than `entry`.
    pub exit: NodeId,
    /// The sources of its packets.
    pub source: Prefix,
    /// The targets of its packets.
    pub target: Prefix,
    /// The namespace of its options; both `entry` and `exit` know it.
    pub namespace: Namespace,
    /// The hop limit of the outer header, 1 to 255.
    pub hops: u8,
    /// The flow label of the outer header, below 2^20.
    pub label: u32,
    /// The type of the pre-allocated trace that the packets carry.
    pub trace: Option<TraceType>,
    /// The trace's free words of 4 octets, 1 to 61; there is one exactly where there is a trace.
    pub capacity: Option<u8>,
    /// All traces that the packets carry, at most three, each of another namespace: first the one of
    /// `namespace`, `trace` and `capacity`, then those of other namespaces. There are none without
    /// `trace`.
    pub traces: Traces,
    /// The type of the edge-to-edge option, of the bits 0x8000, 0x4000, 0x2000 and 0x1000: not 0,
    /// and not both 0x8000 and 0x4000 (RFC 9197 section 4.6).
    pub edge: Option<u16>,
    /// The type of the direct export option (RFC 9326 section 3.2): with bit 0 or bit 8, and
    /// without bit 7.
    pub direct: Option<TraceType>,
    /// One packet of so many carries the direct export option, 1 to 1,000,000; there is one
    /// exactly where there is a direct export.
    pub every: Option<u32>,
    /// The flow's id in direct exports; no two flows of one namespace have one id. There is one
    /// exactly where there is a direct export.
    pub flow_id: Option<u32>,
    /// The tunnel's encapsulation limit (RFC 2473 section 4.1.1).
    pub limit: Option<u8>,
}

impl Flow {
    /// The traces that the packets carry, in the order in which they stand in a packet: the flow's
    /// own first, then those of other namespaces.
    pub fn traces(&self) -> &[FlowTrace]
        ensures { result.now ≡ self.now.traces }
    {
        self.traces.list()
    }
}
