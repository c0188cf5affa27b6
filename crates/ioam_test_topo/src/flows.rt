//! Flows of a domain file.
use crate::domains::is_read_so;
use crate::faults::joined;
use crate::flow_rows::FLOW_NODES;
use ioam_base::memory::NoMemory;
use ioam_topo::{Domain, Flow, NodeId};
use std::alloc::Global;

// Three flows, of which the first has three traces, the second none, and the third one of its own
// and exports.
const FLOWS: &str = "flow = [
  { name = \"f\", entry = \"a\", exit = \"b\", source = \"::/0\", target = \"::/0\", namespace = 7, hops = 64, label = 1048575, trace = 65536, capacity = 3, edge = 32768, limit = 0 },
  { name = \"g\", entry = \"b\", exit = \"c\", source = \"::/0\", target = \"::/0\", namespace = 0, hops = 1 },
  { name = \"h\", entry = \"a\", exit = \"b\", source = \"1::/16\", target = \"::/0\", namespace = 9, hops = 255, trace = 8388608, capacity = 61, direct = 8388608, every = 1000000, flow_id = 4294967295, limit = 255 },
]
";

const EXTRAS: &str = "extra = [
  { flow = \"f\", namespace = 9, trace = 8388608, capacity = 61 },
  { flow = \"h\", namespace = 7, trace = 2, capacity = 1 },
  { flow = \"f\", namespace = 0, trace = 8388608, capacity = 1 },
]
";

// Whether a flow has traces of these namespaces and with these capacities, in this order.
fn has_traces(flow: &Flow, wanted: &[(u16, u8)]) -> bool {
    let traces = flow.traces();
    if traces.len() != wanted.len() {
        return false;
    }
    for (trace, wanted) in traces.iter().zip(wanted.iter()) {
        if trace.namespace.0 != wanted.0 || trace.capacity != wanted.1 {
            return false;
        }
    }
    true
}

// Whether the keys of the flows above are in their fields.
fn has_fields(flows: &[Flow]) -> bool {
    let [f, g, h] = flows else {
        return false;
    };
    f.entry == NodeId(0)
        && f.exit == NodeId(1)
        && f.label == 1_048_575
        && f.edge == Some(0x8000)
        && f.limit == Some(0)
        && g.label == 0
        && g.limit.is_none()
        && g.direct.is_none()
        && h.hops == 255
        && h.every == Some(1_000_000)
        && h.flow_id == Some(4_294_967_295)
        && has_traces(f, &[(7, 3), (9, 61), (0, 1)])
        && has_traces(g, &[])
        && has_traces(h, &[(9, 61), (7, 1)])
}

// Whether the flows above are read, and have their fields and traces.
fn reads_flows(alloc: Global) -> bool {
    match joined(alloc, [FLOW_NODES, FLOWS, EXTRAS, ""]) {
        Ok(file) => is_read_so(alloc, file.as_str(), |domain| has_fields(domain.flows())),
        Err(NoMemory) => false,
    }
}

#[test]
fn reads_flows_with_their_traces(rt: HostRuntime) {
    let alloc = rt.alloc();
    assert!(rt; reads_flows(alloc));
}
