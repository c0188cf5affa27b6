//! The domain of tables.
ghost use Rattle.std.specs.Prelude.{◌≡◌, ◌≤◌, ◌^◌, length, IfOk};
ghost use Rattle.ioam_topo.specs.Domain.{nodes, links, ports, routes as routes_of, node_data, flows};
ghost use Rattle.ioam_topo_tables.specs.Kept.{NodesKept, LinksKept, PortsKept, RoutesKept, DataKept, FlowsKept};

use crate::apart::{
    flows_differ, links_differ, nodes_differ, ports_differ, routes_differ, rows_differ,
};
use crate::routes::{Parts, Routes};
use crate::telemetry::Telemetry;
use ioam_base::memory::NoMemory;
use ioam_topo::{Domain, DomainParts, Format};
use std::alloc::Global;

/// The domain of these tables, which are to keep what every domain's tables keep: at most so many of
/// each, names and keys in step with what they name, and each reference to something there.
/// NoMemory says that there is no memory for what is looked up in a domain.
pub fn domain_of(
    alloc: Global,
    format: Format,
    packets: u32,
    parts: Parts,
    routes: Routes,
    telemetry: Telemetry,
) -> Result<Domain, NoMemory>
    requires packets_some { 1 ≤ packets }
    requires packets_most { packets ≤ 2 ^ 24 }
    requires nodes_kept { NodesKept parts.nodes }
    requires links_kept { LinksKept (length parts.nodes.items.items) parts.links }
    requires ports_kept { PortsKept (length parts.nodes.items.items) parts.ports }
    requires routes_kept { RoutesKept parts routes }
    requires data_kept { DataKept (length parts.nodes.items.items) telemetry.rows }
    requires flows_kept { FlowsKept parts.nodes.items.items telemetry.flows }

    ensures format { IfOk result (λ domain. domain.format ≡ format) }
    ensures packets { IfOk result (λ domain. domain.packets ≡ packets) }
    ensures nodes { IfOk result (λ domain. nodes domain ≡ parts.nodes.items.items) }
    ensures links { IfOk result (λ domain. links domain ≡ parts.links.items.items) }
    ensures ports { IfOk result (λ domain. ports domain ≡ parts.ports.items.items) }
    ensures routes { IfOk result (λ domain. routes_of domain ≡ routes.items.items) }
    ensures data { IfOk result (λ domain. node_data domain ≡ telemetry.rows.items.items) }
    ensures flows { IfOk result (λ domain. flows domain ≡ telemetry.flows.items.items) }
{
    nodes_differ(&parts.nodes);
    links_differ(&parts.links);
    ports_differ(&parts.ports);
    routes_differ(&routes);
    rows_differ(&telemetry.rows);
    flows_differ(&telemetry.flows);
    let Parts {
        nodes,
        links,
        ports,
    } = parts;
    let Telemetry { rows, flows } = telemetry;
    let parts = DomainParts {
        nodes: nodes.items,
        links: links.items,
        ports: ports.items,
        routes: routes.items,
        data: rows.items,
        flows: flows.items,
    };
    Domain::new(alloc, format, packets, parts)
}
