//! The domain of a generated run.
ghost use Rattle.std.specs.Prelude.{◌≡◌, ◌≤◌, ◌∷◌, [], IfOk};
ghost use Rattle.ioam_topo_generated.specs.Bulk.{IsBulkDomain, bulk_nodes, bulk_links, bulk_ports, bulk_routes, bulk_flow};

use crate::flow::bulk_flows;
use crate::places::{bulk_links, bulk_nodes, bulk_ports};
use crate::routing::bulk_routes;
use ioam_base::memory::NoMemory;
use ioam_topo::{Domain, DomainParts, Format};
use std::alloc::Global;

// What the domain has.
fn bulk_parts(alloc: Global) -> Result<DomainParts, NoMemory>
    ensures nodes { IfOk result (λ parts. parts.nodes.items ≡ bulk_nodes) }
    ensures links { IfOk result (λ parts. parts.links.items ≡ bulk_links) }
    ensures ports { IfOk result (λ parts. parts.ports.items ≡ bulk_ports) }
    ensures routes { IfOk result (λ parts. parts.routes.items ≡ bulk_routes) }
    ensures data { IfOk result (λ parts. parts.data.items ≡ []) }
    ensures flows { IfOk result (λ parts. parts.flows.items ≡ bulk_flow ∷ []) }
{
    let nodes = bulk_nodes(alloc)?;
    let links = bulk_links(alloc)?;
    let ports = bulk_ports(alloc)?;
    let routes = bulk_routes(alloc)?;
    let flows = bulk_flows(alloc)?;
    let data = Vec::new(alloc);
    Ok(DomainParts {
        nodes,
        links,
        ports,
        routes,
        data,
        flows,
    })
}

/// The domain of a generated run of at most so many packets, 1 to 1,000,000: the nodes n1 to n5 in a
/// row, with the ports west at n1 and east at n5, and a flow from n1 to n5 (RFC 9486 section 5).
pub fn bulk_domain(alloc: Global, packets: u32) -> Result<Domain, NoMemory>
    requires some { 1 ≤ packets }
    requires most { packets ≤ 1000000 }
    ensures { IfOk result (IsBulkDomain packets) }
{
    let parts = bulk_parts(alloc)?;
    Domain::new(alloc, Format::Ptp, packets, parts)
}
