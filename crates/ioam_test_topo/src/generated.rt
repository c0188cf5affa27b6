//! The domain of a generated load.
use ioam_data::Namespace;
use ioam_topo::{Domain, Flow, LinkId, NodeId, PortId, Way};
use ioam_topo_generated::bulk_domain;
use std::alloc::Global;

// Whether there are as many of each as are to be.
fn has_each(domain: &Domain) -> bool {
    domain.packets() == 1234
        && domain.nodes().len() == 5
        && domain.links().len() == 4
        && domain.ports().len() == 2
        && domain.routes().len() == 9
        && domain.data().is_empty()
        && domain.flows().len() == 1
}

// Whether nodes and links have their names, and all nodes but the third know namespace 7.
fn has_names(domain: &Domain) -> bool {
    domain.node_named("n5") == Some(NodeId(4))
        && domain.link_named("n3n4") == Some(LinkId(2))
        && domain.knows(NodeId(1), Namespace(7))
        && !domain.knows(NodeId(2), Namespace(7))
}

// Whether each node sends towards the last one, and the last one out.
fn leads_through(domain: &Domain) -> bool {
    let last = 0x2001_0db8_0000_0000_0000_0000_0000_0005;
    let out = 0x2001_0db8_0002_0001_0000_0000_0000_0001;
    domain.is_local(last)
        && domain.forward(NodeId(0), last) == Some(Way::Link(LinkId(0)))
        && domain.forward(NodeId(3), out) == Some(Way::Link(LinkId(3)))
        && domain.forward(NodeId(4), out) == Some(Way::Port(PortId(1)))
        && domain.forward(NodeId(4), last) == None
}

// Whether this is the flow.
fn is_flow(flow: &Flow) -> bool {
    flow.entry == NodeId(0)
        && flow.exit == NodeId(4)
        && flow.hops == 64
        && flow.traces().len() == 1
        && flow.edge == Some(0x4000)
        && flow.every == Some(4)
}

// Whether there is this flow.
fn has_flow(domain: &Domain) -> bool {
    match domain.flows().first() {
        Some(flow) => is_flow(flow),
        None => false,
    }
}

// Whether the domain is made, and is so.
fn is_made(alloc: Global) -> bool {
    match bulk_domain(alloc, 1234) {
        Ok(domain) => {
            has_each(&domain) && has_names(&domain) && leads_through(&domain) && has_flow(&domain)
        }
        Err(_) => false,
    }
}

#[test]
fn makes_the_domain(rt: HostRuntime) {
    assert!(rt; is_made(rt.alloc()));
}
