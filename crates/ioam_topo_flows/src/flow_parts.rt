//! The parts of an entry of the table `flow`.
ghost use Rattle.std.specs.Prelude.{◌≡◌, ◌||◌, Ok, codes, is_some, map};
ghost use Rattle.toml.specs.Data.{get_member};
ghost use Rattle.toml.specs.View.{table_view};
ghost use Rattle.ioam_topo_values.specs.Reads.{◌▷◌, needed};
ghost use Rattle.ioam_topo_values.specs.Texts.{name};
ghost use Rattle.ioam_topo_entries.specs.Faults.{Gives};
ghost use Rattle.ioam_topo_entries.specs.Goods.{known, differs};
ghost use Rattle.ioam_topo_entries.specs.Goods.{list_of};
ghost use Rattle.ioam_topo_flows.specs.Spaces.{known_at};
ghost use Rattle.ioam_topo_flows.specs.FlowParts.{flow_trace, flow_capacity, flow_direct, flow_every, flow_space, selection_of, selection_keys, outer_of, outer_keys, tracing_of, tracing_keys};

use ioam_data::TraceType;
use ioam_topo::Prefix;
use ioam_topo_entries::{DomainRefused, Spot, Table, maybe_number8, maybe_number32, number16};
use ioam_topo_tables::Nodes;
use ioam_topo_values::{
    Why, beside, has, maybe_direct_type, maybe_edge_type, maybe_trace_type, prefix,
};

// Which packets of a flow are enclosed, and from where to where.
#[derive(Clone, Copy)]
pub(crate) struct Selection {
    pub(crate) entry: u32,
    pub(crate) exit: u32,
    pub(crate) source: Prefix,
    pub(crate) target: Prefix,
    pub(crate) namespace: u16,
}

// The outer header of a flow's packets.
#[derive(Clone, Copy)]
pub(crate) struct Outer {
    pub(crate) hops: u8,
    pub(crate) label: u32,
}

// The options that every packet of a flow carries.
#[derive(Clone, Copy)]
pub(crate) struct Tracing {
    pub(crate) trace: Option<TraceType>,
    pub(crate) capacity: Option<u8>,
    pub(crate) edge: Option<u16>,
}

// The option that some packets of a flow carry, and the tunnel's limit.
#[derive(Clone, Copy)]
pub(crate) struct Exporting {
    pub(crate) direct: Option<TraceType>,
    pub(crate) every: Option<u32>,
    pub(crate) flow_id: Option<u32>,
    pub(crate) limit: Option<u8>,
}

// A namespace that was read, where a node knows it.
pub(crate) fn known_at(nodes: &Nodes, node: u32, read: Result<u16, Why>) -> Result<u16, Why>
    ensures { result ≡ read ▷ known_at (map list_of nodes.now.items.items) (Ok node) }
{
    let space = read?;
    match nodes.items.get(node as usize) {
        Some(known) if !known.namespaces.knows(space) => Err(Why::Range),
        _ => Ok(space),
    }
}

pub(crate) fn read_selection(
    spot: Spot,
    nodes: &Nodes,
    entry: &toml::Table,
) -> Result<Selection, DomainRefused>
    requires { spot.table ≡ Table.FlowTable }
    ensures { Gives result (selection_keys nodes.now.names (map list_of nodes.now.items.items) spot.place (table_view entry.now))
        (λ s. (selection_of nodes.now.names (map list_of nodes.now.items.items) (table_view entry.now) ≡ Ok s)
        × (flow_space nodes.now.names (map list_of nodes.now.items.items) (table_view entry.now) ≡ Ok s.namespace)) }
{
    let first = spot.known(&nodes.names, entry, "entry")?;
    let exit = spot.known_other(&nodes.names, entry, "exit", first)?;
    let source = spot.key("source", prefix(entry, "source"))?;
    let target = spot.key("target", prefix(entry, "target"))?;
    let known = known_at(nodes, first, number16(entry, "namespace"));
    let namespace = spot.key("namespace", known_at(nodes, exit, known))?;
    Ok(Selection {
        entry: first,
        exit,
        source,
        target,
        namespace,
    })
}

pub(crate) fn read_outer(spot: Spot, entry: &toml::Table) -> Result<Outer, DomainRefused>
    requires { spot.table ≡ Table.FlowTable }
    ensures { Gives result (outer_keys spot.place (table_view entry.now)) (λ o. outer_of (table_view entry.now) ≡ Ok o) }
{
    let hops = spot.number8(entry, "hops", 1, 255)?;
    let label = spot.number32_or_0(entry, "label", 1_048_575)?;
    Ok(Outer { hops, label })
}

fn trace(entry: &toml::Table) -> Result<Option<TraceType>, Why>
    ensures { result ≡ flow_trace (table_view entry.now) }
{
    beside(maybe_trace_type(entry, "trace"), has(entry, "capacity"))
}

fn capacity(entry: &toml::Table) -> Result<Option<u8>, Why>
    ensures { result ≡ flow_capacity (table_view entry.now) }
{
    beside(maybe_number8(entry, "capacity", 1, 61), has(entry, "trace"))
}

pub(crate) fn read_tracing(spot: Spot, entry: &toml::Table) -> Result<Tracing, DomainRefused>
    requires { spot.table ≡ Table.FlowTable }
    ensures { Gives result (tracing_keys spot.place (table_view entry.now)) (λ t. tracing_of (table_view entry.now) ≡ Ok t) }
{
    let trace = spot.key("trace", trace(entry))?;
    let capacity = spot.key("capacity", capacity(entry))?;
    let edge = spot.key("edge", maybe_edge_type(entry, "edge"))?;
    Ok(Tracing {
        trace,
        capacity,
        edge,
    })
}

pub(crate) fn direct(entry: &toml::Table) -> Result<Option<TraceType>, Why>
    ensures { result ≡ flow_direct (table_view entry.now) }
{
    let others = has(entry, "every") || has(entry, "flow_id");
    beside(maybe_direct_type(entry, "direct"), others)
}

pub(crate) fn every(entry: &toml::Table) -> Result<Option<u32>, Why>
    ensures { result ≡ flow_every (table_view entry.now) }
{
    let every = maybe_number32(entry, "every", 1, 1_000_000);
    beside(every, has(entry, "direct"))
}
