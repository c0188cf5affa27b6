//! The data and the flows of a domain file.
ghost use Rattle.std.specs.Prelude.{◌≡◌, ◌≤◌, ◌++◌, length, map};
ghost use Rattle.toml.specs.View.{table_view};
ghost use Rattle.ioam_topo_entries.specs.Faults.{Gives};
ghost use Rattle.ioam_topo_entries.specs.Goods.{list_of};
ghost use Rattle.ioam_topo_flows.specs.DataTable.{data_entries};
ghost use Rattle.ioam_topo_flows.specs.DataRead.{HoldsData};
ghost use Rattle.ioam_topo_flows.specs.FlowTable.{flow_entries};
ghost use Rattle.ioam_topo_flows.specs.FlowRead.{HoldsFlows};
ghost use Rattle.ioam_topo_flows.specs.ExtraTable.{extra_entries};
ghost use Rattle.ioam_topo_flows.specs.ExtraRead.{KeepsFlows, HoldsExtras};
ghost use Rattle.ioam_topo_flows.specs.Tables.{data_table_faults, flow_table_faults, extra_faults_behind, extra_table_faults, AreFlows};

use crate::before::{AmongFlows, AmongNodes};
use crate::extra_table::{Extras, with_extras};
use ioam_topo_entries::{DomainRefused, Table, read_entries};
use ioam_topo_tables::{DataRows, Flows, MOST_DATA, Nodes};
use std::alloc::Global;

/// The node data of a file, whose nodes these are, or the first fault of their table. Where there
/// is no memory, NoMemory may be answered in place of anything else.
pub fn read_data(alloc: Global, top: &toml::Table, nodes: &Nodes) -> Result<DataRows, DomainRefused>
    ensures { Gives result (data_table_faults nodes.now.names (map list_of nodes.now.items.items) (table_view top.now)) (HoldsData nodes.now.names (data_entries (table_view top.now))) }
{
    let before = AmongNodes { nodes };
    let none = DataRows::new(alloc);
    read_entries(
        alloc,
        top,
        Table::DataTable,
        "data",
        MOST_DATA,
        &before,
        none,
    )
}

// The flows of a file, whose nodes these are, without their extra traces.
fn read_own_flows(
    alloc: Global,
    top: &toml::Table,
    nodes: &Nodes,
    most: usize,
) -> Result<Flows, DomainRefused>
    requires { most ≤ 256 }
    ensures { Gives result (flow_table_faults nodes.now.names (map list_of nodes.now.items.items) (table_view top.now) most)
        (HoldsFlows nodes.now.names (map list_of nodes.now.items.items) (flow_entries (table_view top.now))) }
{
    let before = AmongNodes { nodes };
    let none = Flows::new(alloc);
    read_entries(alloc, top, Table::FlowTable, "flow", most, &before, none)
}

// The extra traces of a file, whose nodes and flows these are.
fn read_extras(
    alloc: Global,
    top: &toml::Table,
    nodes: &Nodes,
    flows: &Flows,
    most: usize,
) -> Result<Extras, DomainRefused>
    requires few { most ≤ 512 }
    requires base { KeepsFlows nodes.now flows.now }
    ensures { Gives result (extra_faults_behind nodes.now flows.now (table_view top.now) most)
        (HoldsExtras nodes.now flows.now (extra_entries (table_view top.now))) }
{
    let before = AmongFlows { nodes, flows };
    let none = Extras::new(alloc);
    read_entries(alloc, top, Table::ExtraTable, "extra", most, &before, none)
}

// The flows of a file, whose nodes these are, and apart from them their extra traces.
fn read_apart(
    alloc: Global,
    top: &toml::Table,
    nodes: &Nodes,
    flows: usize,
    extras: usize,
) -> Result<(Flows, Extras), DomainRefused>
    requires few_flows { flows ≤ 256 }
    requires few_extras { extras ≤ 512 }
    requires named { length nodes.now.names ≡ length nodes.now.items.items }
    ensures { Gives result (flow_table_faults nodes.now.names (map list_of nodes.now.items.items) (table_view top.now) flows
        ++ extra_table_faults nodes.now.names (map list_of nodes.now.items.items) (table_view top.now) extras)
        (λ both. HoldsFlows nodes.now.names (map list_of nodes.now.items.items) (flow_entries (table_view top.now)) both.0
        × HoldsExtras nodes.now both.0 (extra_entries (table_view top.now)) both.1) }
{
    let found = read_own_flows(alloc, top, nodes, flows)?;
    let more = read_extras(alloc, top, nodes, &found, extras)?;
    Ok((found, more))
}

/// The flows of a file, whose nodes these are, each with its extra traces, or the first fault of
/// the tables `flow` and `extra`, which may have at most `flows` and `extras` entries. Where there
/// is no memory, NoMemory may be answered in place of anything else.
pub fn read_flows(
    alloc: Global,
    top: &toml::Table,
    nodes: &Nodes,
    flows: usize,
    extras: usize,
) -> Result<Flows, DomainRefused>
    requires few_flows { flows ≤ 256 }
    requires few_extras { extras ≤ 512 }
    requires named { length nodes.now.names ≡ length nodes.now.items.items }
    ensures { Gives result (flow_table_faults nodes.now.names (map list_of nodes.now.items.items) (table_view top.now) flows
        ++ extra_table_faults nodes.now.names (map list_of nodes.now.items.items) (table_view top.now) extras)
        (AreFlows nodes.now (map list_of nodes.now.items.items) (table_view top.now) flows) }
{
    let (found, more) = read_apart(alloc, top, nodes, flows, extras)?;
    match with_extras(found, more.items.as_slice()) {
        Ok(out) => Ok(out),
        Err(_) => Err(DomainRefused::NoMemory),
    }
}
