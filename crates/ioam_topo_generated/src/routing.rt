//! The routes of a generated run.
ghost use Rattle.std.specs.Prelude.{◌≡◌, IfOk};
ghost use Rattle.ioam_topo_generated.specs.Bulk.{route_of, to_last, to_east, by_link, bulk_routes};

use ioam_base::memory::NoMemory;
use ioam_topo::{LinkId, NodeId, PortId, Prefix, Route, Way};
use std::alloc::Global;

// 2001:db8::5/128
fn to_last() -> Prefix
    ensures { result ≡ to_last }
{
    Prefix {
        bits: 0x2001_0db8_0000_0000_0000_0000_0000_0005,
        length: 128,
    }
}

// 2001:db8:2::/48
fn to_east() -> Prefix
    ensures { result ≡ to_east }
{
    Prefix {
        bits: 0x2001_0db8_0002_0000_0000_0000_0000_0000,
        length: 48,
    }
}

// The route of a node to the last one, by the link to the next one.
fn last_from(at: u32) -> Route
    ensures { result ≡ route_of at to_last (by_link at) }
{
    Route {
        node: NodeId(at),
        prefix: to_last(),
        way: Way::Link(LinkId(at)),
    }
}

// The route of a node to the packets' targets.
fn east_from(at: u32, way: Way) -> Route
    ensures { result ≡ route_of at to_east way }
{
    Route {
        node: NodeId(at),
        prefix: to_east(),
        way,
    }
}

// The routes of all nodes.
pub(crate) fn bulk_routes(alloc: Global) -> Result<Vec<Route>, NoMemory>
    ensures { IfOk result (λ routes. routes.items ≡ bulk_routes) }
{
    let routes = vec![in alloc;
        last_from(0),
        east_from(0, Way::Link(LinkId(0))),
        last_from(1),
        east_from(1, Way::Link(LinkId(1))),
        last_from(2),
        east_from(2, Way::Link(LinkId(2))),
        last_from(3),
        east_from(3, Way::Link(LinkId(3))),
        east_from(4, Way::Port(PortId(1))),
    ]?;
    Ok(routes)
}
