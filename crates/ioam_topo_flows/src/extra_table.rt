//! The table of traces that flows carry besides their own.
ghost use Rattle.std.specs.Prelude.{◌≡◌, ◌≤◌, ◌<◌, ◌++◌, ◌∷◌, [], length, map, false, OnOk, IfOk, Ok, option_copied, option_map, slice_get, codes};
ghost use Rattle.std.specs.List.{All, list_any};
ghost use Rattle.toml.specs.Data.{get_member};
ghost use Rattle.toml.specs.View.{table_view};
ghost use Rattle.ioam_topo_values.specs.Reads.{◌▷◌, needed};
ghost use Rattle.ioam_topo_values.specs.Numbers.{number};
ghost use Rattle.ioam_topo_values.specs.Texts.{name};
ghost use Rattle.ioam_topo_values.specs.Types.{trace_type};
ghost use Rattle.ioam_topo.specs.Keyed.{is_pair};
ghost use Rattle.ioam_topo_entries.specs.Faults.{Gives};
ghost use Rattle.ioam_topo_entries.specs.Goods.{known, list_of};
ghost use Rattle.ioam_topo_flows.specs.Apart.{fresh_with};
ghost use Rattle.ioam_topo_flows.specs.Spaces.{known_at};
ghost use Rattle.ioam_topo_flows.specs.FlowRead.{look_of};
ghost use Rattle.ioam_topo_flows.specs.ExtraTable.{seen, look_in, traced_at, times, few_of, unlike, extra_trace, extra_capacity, kind_keys, extra_keys, traced};
ghost use Rattle.ioam_topo_flows.specs.ExtraRead.{IsNewExtra};

use crate::before::AmongFlows;
use crate::flow_parts::known_at;
use indexmap::IndexSet;
use ioam_base::memory::NoMemory;
use ioam_data::{Namespace, TraceType};
use ioam_topo::{Flow, FlowTrace};
use ioam_topo_entries::{Collects, DomainRefused, Spot, Table, known, number16};
use ioam_topo_tables::{Flows, Nodes};
use ioam_topo_values::{Why, maybe_trace_type};
use std::alloc::Global;

// The most extra traces of a flow.
const MOST_EXTRAS: usize = 2;

/// Extra traces, with what no two of them may share.
#[derive(Drop)]
pub struct Extras {
    /// The flow of each, by its place, and the trace.
    pub items: Vec<(u32, FlowTrace)>,
    /// The flow of each.
    pub places: Vec<u32>,
    /// The flow and the namespace of each.
    pub taken: IndexSet<(u32, u16)>,
}

impl Extras {
    /// No extra traces.
    pub fn new(alloc: Global) -> Extras
        ensures items { result.items.items ≡ [] }
        ensures places { result.places.items ≡ [] }
        ensures keys { result.taken.keys ≡ [] }
    {
        Extras {
            items: Vec::new(alloc),
            places: Vec::new(alloc),
            taken: IndexSet::new(alloc),
        }
    }

    // Whether a flow has an extra trace of a namespace.
    fn is_taken(&self, flow: u32, space: u16) -> bool
        ensures { result ≡ list_any (is_pair flow space) self.now.taken.keys }
    {
        self.taken.contains(&(flow, space))
    }

    // Adds an extra trace. After NoMemory nothing is known of them.
    fn add(&mut self, extra: (u32, FlowTrace)) -> Result<(), NoMemory>
        requires { list_any (is_pair extra.0 extra.1.namespace.0) self.old.taken.keys ≡ false }
        ensures items { OnOk result (self.new.items.items ≡ self.old.items.items ++ extra ∷ []) }
        ensures places { OnOk result (self.new.places.items ≡ self.old.places.items ++ extra.0 ∷ []) }
        ensures keys { OnOk result (self.new.taken.keys ≡ self.old.taken.keys ++ (extra.0, extra.1.namespace.0) ∷ []) }
    {
        self.taken.insert_full((extra.0, extra.1.namespace.0))?;
        self.places.push(extra.0)?;
        self.items.push(extra)?;
        Ok(())
    }
}

// How often a flow is among these.
#[tactic(auto, using(crate::proofs::TracedLaws::times_step, crate::proofs::TracedLaws::times_end))]
fn times(flow: u32, places: &[u32]) -> usize
    ensures value { result ≡ times flow places.now }
    ensures most { result ≤ length places.now }
{
    let mut count = 0;
    for place in places {
        if flow == *place {
            count += 1;
        }
    }
    count
}

// The place of the flow that an entry names, one that has a trace.
fn named_flow(flows: &Flows, entry: &toml::Table) -> Result<u32, Why>
    ensures value { result ≡ needed name (get_member (codes "flow") (table_view entry.now)) ▷ known flows.now.names
        ▷ (λ i. traced_at (seen (slice_get (map look_of flows.now.items.items) i)).trace i) }
    ensures within { IfOk result (λ at. at < length flows.now.names) }
{
    let at = known(&flows.names, entry, "flow")?;
    match flows.items.get(at as usize) {
        Some(flow) if flow.trace.is_none() => Err(Why::Range),
        _ => Ok(at),
    }
}

// A flow that was read, where no more than one entry named it before.
fn few_of(extras: &Extras, read: Result<u32, Why>) -> Result<u32, Why>
    ensures { result ≡ read ▷ few_of extras.now.places.items }
{
    match read {
        Ok(flow) if times(flow, &extras.places) >= MOST_EXTRAS => Err(Why::TooMany),
        other => other,
    }
}

// A namespace that was read, where it isn't a flow's own.
fn unlike(flow: &Flow, read: Result<u16, Why>) -> Result<u16, Why>
    ensures { result ≡ read ▷ unlike (Ok flow.now.namespace.0) }
{
    match read {
        Ok(space) if flow.namespace.0 == space => Err(Why::Twice),
        other => other,
    }
}

// The namespace of an entry, where both ends of its flow know it and it isn't the flow's own.
fn other_space(nodes: &Nodes, flow: Option<&Flow>, entry: &toml::Table) -> Result<u16, Why>
    ensures { result ≡ needed (number 0 65535) (get_member (codes "namespace") (table_view entry.now))
        ▷ known_at (map list_of nodes.now.items.items) (seen (option_map look_of (option_copied flow.entry))).entry
        ▷ known_at (map list_of nodes.now.items.items) (seen (option_map look_of (option_copied flow.entry))).exit
        ▷ unlike (seen (option_map look_of (option_copied flow.entry))).space }
{
    let space = number16(entry, "namespace");
    match flow {
        Some(flow) => unlike(
            flow,
            known_at(nodes, flow.exit.0, known_at(nodes, flow.entry.0, space)),
        ),
        None => space,
    }
}

// The namespace of an entry, where its flow has no trace of it yet.
fn new_space(
    extras: &Extras,
    nodes: &Nodes,
    flows: &Flows,
    at: u32,
    entry: &toml::Table,
) -> Result<u16, Why>
    ensures { result ≡ needed (number 0 65535) (get_member (codes "namespace") (table_view entry.now))
        ▷ known_at (map list_of nodes.now.items.items) (look_in (map look_of flows.now.items.items) (Ok at)).entry
        ▷ known_at (map list_of nodes.now.items.items) (look_in (map look_of flows.now.items.items) (Ok at)).exit
        ▷ unlike (look_in (map look_of flows.now.items.items) (Ok at)).space ▷ fresh_with (Ok at) extras.now.taken.keys }
{
    match other_space(nodes, flows.items.get(at as usize), entry) {
        Ok(space) if extras.is_taken(at, space) => Err(Why::Twice),
        other => other,
    }
}

// The type of the trace of an entry.
fn needed_trace(entry: &toml::Table) -> Result<TraceType, Why>
    ensures { result ≡ extra_trace (table_view entry.now) }
{
    match maybe_trace_type(entry, "trace") {
        Ok(Some(kind)) => Ok(kind),
        Ok(None) => Err(Why::Missing),
        Err(why) => Err(why),
    }
}

// The type of the trace of an entry, and how many words it has room for.
fn read_kind(spot: Spot, entry: &toml::Table) -> Result<(TraceType, u8), DomainRefused>
    requires { spot.table ≡ Table.ExtraTable }
    ensures { Gives result (kind_keys spot.place (table_view entry.now))
        (λ read. (extra_trace (table_view entry.now) ≡ Ok read.0) × (extra_capacity (table_view entry.now) ≡ Ok read.1)) }
{
    let kind = spot.key("trace", needed_trace(entry))?;
    let capacity = spot.number8(entry, "capacity", 1, 61)?;
    Ok((kind, capacity))
}

// The extra trace of an entry, with the place of its flow.
fn read_extra(
    extras: &Extras,
    nodes: &Nodes,
    flows: &Flows,
    place: u32,
    entry: &toml::Table,
) -> Result<(u32, FlowTrace), DomainRefused>
    ensures { Gives result (extra_keys flows.now.names (map look_of flows.now.items.items) (map list_of nodes.now.items.items) place
        extras.now.places.items extras.now.taken.keys (table_view entry.now)) (IsNewExtra nodes.now flows.now extras.now (table_view entry.now)) }
{
    let spot = Spot {
        table: Table::ExtraTable,
        place,
    };
    spot.own_keys(entry)?;
    let flow = spot.key("flow", few_of(extras, named_flow(flows, entry)))?;
    let space = new_space(extras, nodes, flows, flow, entry);
    let space = spot.key("namespace", space)?;
    let (kind, capacity) = read_kind(spot, entry)?;
    Ok((
        flow,
        FlowTrace {
            namespace: Namespace(space),
            kind,
            capacity,
        },
    ))
}

impl<'a> Collects<AmongFlows<'a>> for Extras {
    ghost use Rattle.std.specs.Prelude.{map};
    ghost use Rattle.ioam_topo_entries.specs.Goods.{list_of};
    ghost use Rattle.ioam_topo_flows.specs.FlowRead.{look_of};
    ghost use Rattle.ioam_topo_flows.specs.ExtraTable.{extra_faults};
    ghost use Rattle.ioam_topo_flows.specs.ExtraRead.{HoldsExtras};

    ghost faults = { λ before. extra_faults before.flows.now.names (map look_of before.flows.now.items.items) (map list_of before.nodes.now.items.items) };

    ghost Holds = { λ before. HoldsExtras before.nodes.now before.flows.now };

    fn take(
        &mut self,
        _alloc: Global,
        before: &AmongFlows<'a>,
        place: u32,
        entry: &toml::Table,
    ) -> Result<(), DomainRefused> {
        let extra = read_extra(self, before.nodes, before.flows, place, entry)?;
        match self.add(extra) {
            Ok(()) => Ok(()),
            Err(_) => Err(DomainRefused::NoMemory),
        }
    }
}

/// Flows with these extra traces, each behind those that its flow has.
pub fn with_extras(flows: Flows, extras: &[(u32, FlowTrace)]) -> Result<Flows, NoMemory>
    requires { All (λ extra. extra.0 < length flows.items.items) extras.now }
    ensures items { IfOk result (λ out. out.items.items ≡ traced 0 flows.items.items extras.now) }
    ensures names { IfOk result (λ out. out.names ≡ flows.names) }
    ensures keys { IfOk result (λ out. out.taken.keys ≡ flows.taken.keys) }
{
    let mut out = flows;
    for extra in extras {
        match out.add_trace(extra.0 as usize, extra.1) {
            Ok(()) => {}
            Err(NoMemory) => return Err(NoMemory),
        }
    }
    Ok(out)
}
