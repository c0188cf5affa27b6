//! The table `flow`.
ghost use Rattle.std.specs.Prelude.{◌≡◌, IfOk, Ok, codes, map};
ghost use Rattle.toml.specs.View.{table_view};
ghost use Rattle.ioam_topo_values.specs.Reads.{◌▷◌};
ghost use Rattle.ioam_topo_entries.specs.Faults.{Gives};
ghost use Rattle.ioam_topo.specs.Keyed.{IsNewId};
ghost use Rattle.ioam_topo_flows.specs.Apart.{fresh_some};
ghost use Rattle.ioam_topo_entries.specs.Goods.{list_of};
ghost use Rattle.ioam_topo_flows.specs.FlowParts.{flow_id, exporting_keys};
ghost use Rattle.ioam_topo_flows.specs.FlowTable.{flow_with, flow_keys};
ghost use Rattle.ioam_topo_flows.specs.FlowRead.{IsNewExport, IsNewFlow};

use crate::before::AmongNodes;
use crate::flow_parts::{
    Exporting, Outer, Selection, Tracing, direct, every, read_outer, read_selection, read_tracing,
};
use ioam_base::memory::NoMemory;
use ioam_base::name::Name;
use ioam_data::Namespace;
use ioam_topo::{Flow, NodeId, Traces};
use ioam_topo_entries::{Collects, DomainRefused, Spot, Table, maybe_number8, maybe_number32};
use ioam_topo_tables::{Flows, Nodes};
use ioam_topo_values::{Why, beside, has};
use std::alloc::Global;

// The flow of these parts.
fn flow_with(
    alloc: Global,
    name: &str,
    selection: Selection,
    outer: Outer,
    tracing: Tracing,
    exporting: Exporting,
) -> Result<Flow, NoMemory>
    ensures { IfOk result (λ flow. flow ≡ flow_with name.now selection outer tracing exporting) }
{
    let namespace = Namespace(selection.namespace);
    let traces = Traces::own(alloc, namespace, tracing.trace, tracing.capacity)?;
    Ok(Flow {
        name: Name::new(alloc, name)?,
        entry: NodeId(selection.entry),
        exit: NodeId(selection.exit),
        source: selection.source,
        target: selection.target,
        namespace,
        hops: outer.hops,
        label: outer.label,
        trace: tracing.trace,
        capacity: tracing.capacity,
        traces,
        edge: tracing.edge,
        direct: exporting.direct,
        every: exporting.every,
        flow_id: exporting.flow_id,
        limit: exporting.limit,
    })
}

// The id of an entry, needed where there are direct exports, which no other flow of the
// namespace has.
fn new_id(flows: &Flows, space: u16, entry: &toml::Table) -> Result<Option<u32>, Why>
    ensures value { result ≡ flow_id (table_view entry.now) ▷ fresh_some (Ok space) flows.now.taken.keys }
    ensures is { IfOk result (λ id. flow_id (table_view entry.now) ≡ Ok id) }
    ensures new_id { IfOk result (λ id. IsNewId space id flows.now.taken.keys) }
{
    let read = maybe_number32(entry, "flow_id", 0, 4_294_967_295);
    match beside(read, has(entry, "direct")) {
        Ok(Some(id)) if flows.is_taken(space, id) => Err(Why::Twice),
        other => other,
    }
}

fn exporting(
    flows: &Flows,
    spot: Spot,
    space: u16,
    entry: &toml::Table,
) -> Result<Exporting, DomainRefused>
    requires { spot.table ≡ Table.FlowTable }
    ensures { Gives result (exporting_keys spot.place (Ok space) flows.now.taken.keys (table_view entry.now))
        (IsNewExport space flows.now.taken.keys (table_view entry.now)) }
{
    let direct = spot.key("direct", direct(entry))?;
    let every = spot.key("every", every(entry))?;
    let flow_id = spot.key("flow_id", new_id(flows, space, entry))?;
    let limit = spot.key("limit", maybe_number8(entry, "limit", 0, 255))?;
    Ok(Exporting {
        direct,
        every,
        flow_id,
        limit,
    })
}

// The flow of an entry, with its name.
fn read_flow<'a>(
    alloc: Global,
    flows: &Flows,
    nodes: &Nodes,
    place: u32,
    entry: &'a toml::Table,
) -> Result<(&'a str, Flow), DomainRefused>
    ensures { Gives result (flow_keys nodes.now.names (map list_of nodes.now.items.items) place flows.now.names flows.now.taken.keys (table_view entry.now))
        (λ row. IsNewFlow nodes.now.names (map list_of nodes.now.items.items) flows.now (table_view entry.now) row.0.now row.1) }
{
    let spot = Spot {
        table: Table::FlowTable,
        place,
    };
    spot.own_keys(entry)?;
    let text = spot.new_name(&flows.names, entry, "name")?;
    let selection = read_selection(spot, nodes, entry)?;
    let outer = read_outer(spot, entry)?;
    let tracing = read_tracing(spot, entry)?;
    let exporting = exporting(flows, spot, selection.namespace, entry)?;
    match flow_with(alloc, text, selection, outer, tracing, exporting) {
        Ok(flow) => Ok((text, flow)),
        Err(_) => Err(DomainRefused::NoMemory),
    }
}

impl<'a> Collects<AmongNodes<'a>> for Flows {
    ghost use Rattle.std.specs.Prelude.{map};
    ghost use Rattle.ioam_topo_entries.specs.Goods.{list_of};
    ghost use Rattle.ioam_topo_flows.specs.FlowTable.{flow_faults};
    ghost use Rattle.ioam_topo_flows.specs.FlowRead.{HoldsFlows};

    ghost faults = { λ before. flow_faults before.nodes.now.names (map list_of before.nodes.now.items.items) };

    ghost Holds = { λ before. HoldsFlows before.nodes.now.names (map list_of before.nodes.now.items.items) };

    fn take(
        &mut self,
        alloc: Global,
        before: &AmongNodes<'a>,
        place: u32,
        entry: &toml::Table,
    ) -> Result<(), DomainRefused> {
        let (text, flow) = match read_flow(alloc, self, before.nodes, place, entry) {
            Ok(row) => row,
            Err(refused) => return Err(refused),
        };
        match self.add(alloc, text, flow) {
            Ok(()) => Ok(()),
            Err(_) => Err(DomainRefused::NoMemory),
        }
    }
}
