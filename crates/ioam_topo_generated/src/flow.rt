//! The flow of a generated run.
ghost use Rattle.std.specs.Prelude.{◌≡◌, ◌∷◌, [], IfOk};
ghost use Rattle.ioam_topo_generated.specs.Bulk.{bulk_flow};

use ioam_base::memory::NoMemory;
use ioam_base::name::Name;
use ioam_data::{Namespace, TraceType};
use ioam_topo::{Flow, NodeId, Prefix, Traces};
use std::alloc::Global;

// The flow f from n1 to n5.
#[tactic(auto, unfolding(crate::specs::Bulk::bulk_flow))]
fn bulk_flow(alloc: Global) -> Result<Flow, NoMemory>
    ensures { IfOk result (λ flow. flow ≡ bulk_flow) }
{
    let namespace = Namespace(7);
    let trace = Some(TraceType::new(0x80_0000));
    let capacity = Some(5);
    Ok(Flow {
        name: Name::new(alloc, "f")?,
        entry: NodeId(0),
        exit: NodeId(4),
        source: Prefix { bits: 0, length: 0 },
        target: Prefix {
            bits: 0x2001_0db8_0002_0000_0000_0000_0000_0000,
            length: 64,
        },
        namespace,
        hops: 64,
        label: 0,
        trace,
        capacity,
        traces: Traces::own(alloc, namespace, trace, capacity)?,
        edge: Some(0x4000),
        direct: Some(TraceType::new(0x80_0000)),
        every: Some(4),
        flow_id: Some(1),
        limit: None,
    })
}

// The flows, of which there is one.
pub(crate) fn bulk_flows(alloc: Global) -> Result<Vec<Flow>, NoMemory>
    ensures { IfOk result (λ flows. flows.items ≡ bulk_flow ∷ []) }
{
    let flow = bulk_flow(alloc)?;
    let flows = vec![in alloc; flow]?;
    Ok(flows)
}
