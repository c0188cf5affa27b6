//! The traces that the packets of a flow carry.
ghost use Rattle.std.specs.Prelude.{◌≡◌, ◌++◌, ◌∷◌, [], IfOk, OnOk, OnErr};
ghost use Rattle.ioam_topo.specs.Traces.{own_traces};

use ioam_base::memory::NoMemory;
use ioam_data::{Namespace, TraceType};
use std::alloc::Global;
use std::marker::Model;

/// A pre-allocated trace that the packets of a flow carry (RFC 9197 section 4.4).
#[derive(Clone, Copy, Debug)]
pub struct FlowTrace {
    /// The namespace of the trace; both ends of the flow know it.
    pub namespace: Namespace,
    /// Its type: bits 0 to 11 and 22, one at least.
    pub kind: TraceType,
    /// Its free words of 4 octets as it leaves the entry node, 1 to 61.
    pub capacity: u8,
}

/// The traces of a flow: its own, and behind it those of other namespaces. Contracts see them as a
/// list.
#[derive(Debug, Drop)]
pub struct Traces {
    held: Vec<FlowTrace>,
}

impl Model for Traces {
    ghost use Rattle.std.specs.Prelude.{List};
    ghost use Rattle.ioam_topo.specs.declared.traces.FlowTrace.{FlowTrace};

    ghost Value = { List FlowTrace };

    ghost view = { λ traces. traces.held.items };
}

impl Traces {
    /// A flow's own trace, where there is one: its type and its free words.
    pub fn own(
        alloc: Global,
        namespace: Namespace,
        trace: Option<TraceType>,
        capacity: Option<u8>,
    ) -> Result<Traces, NoMemory>
        ensures { IfOk result (λ traces. traces ≡ own_traces namespace trace capacity) }
    {
        let mut held = Vec::new(alloc);
        if let (Some(kind), Some(capacity)) = (trace, capacity) {
            held.push(FlowTrace {
                namespace,
                kind,
                capacity,
            })?;
        }
        Ok(Traces { held })
    }

    /// The traces.
    pub fn list(&self) -> &[FlowTrace]
        ensures { result.now ≡ self.now }
    {
        self.held.as_slice()
    }

    /// Adds a trace behind the others. After NoMemory the traces are as before.
    pub fn add(&mut self, trace: FlowTrace) -> Result<(), NoMemory>
        ensures added { OnOk result (self.new ≡ self.old ++ trace ∷ []) }
        ensures err { OnErr result (self.new ≡ self.old) }
    {
        self.held.push(trace)?;
        Ok(())
    }
}
