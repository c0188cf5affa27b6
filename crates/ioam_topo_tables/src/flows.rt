//! The flows of a domain, with what no two of them share.
ghost use Rattle.std.specs.Prelude.{◌≡◌, ◌<◌, ◌++◌, ◌∷◌, [], OnOk, IsSomeAnd, false, length, slice_get, slice_set};
ghost use Rattle.std.specs.List.{list_any};
ghost use Rattle.std.specs.Str.{bytes_eq};
ghost use Rattle.ioam_topo.specs.Keyed.{is_pair, pairs_of, IsNewId};
ghost use Rattle.ioam_topo_tables.specs.Flows.{with_trace};

use crate::names::Names;
use indexmap::IndexSet;
use ioam_base::memory::NoMemory;
use ioam_topo::{Flow, FlowTrace};
use std::alloc::Global;

/// Flows, with what no two of them may share: names, and the ids of a namespace.
#[derive(Drop)]
pub struct Flows {
    /// The flows, each numbered by its place from 0.
    pub items: Vec<Flow>,
    /// Their names.
    pub names: Names,
    /// The namespace and the id of each that has an id.
    pub taken: IndexSet<(u16, u32)>,
}

impl Flows {
    /// No flows.
    pub fn new(alloc: Global) -> Flows
        ensures items { result.items.items ≡ [] }
        ensures names { result.names ≡ [] }
        ensures keys { result.taken.keys ≡ [] }
    {
        Flows {
            items: Vec::new(alloc),
            names: Names::new(alloc),
            taken: IndexSet::new(alloc),
        }
    }

    /// Whether a flow of a namespace has an id.
    pub fn is_taken(&self, space: u16, id: u32) -> bool
        ensures { result ≡ list_any (is_pair space id) self.now.taken.keys }
    {
        self.taken.contains(&(space, id))
    }

    fn add_id(&mut self, space: u16, id: Option<u32>) -> Result<(), NoMemory>
        requires { IsNewId space id self.old.taken.keys }
        ensures items { self.new.items.items ≡ self.old.items.items }
        ensures names { self.new.names ≡ self.old.names }
        ensures keys { OnOk result (self.new.taken.keys ≡ self.old.taken.keys ++ pairs_of space id) }
    {
        if let Some(id) = id {
            self.taken.insert_full((space, id))?;
        }
        Ok(())
    }

    /// Adds a trace to the flow of this place, behind its others. After NoMemory nothing is known of the
    /// flows.
    pub fn add_trace(&mut self, at: usize, trace: FlowTrace) -> Result<(), NoMemory>
        requires { at < length self.old.items.items }
        ensures items { OnOk result (IsSomeAnd (slice_get self.old.items.items at)
            (λ flow. self.new.items.items ≡ slice_set self.old.items.items at (with_trace flow trace))) }
        ensures names { self.new.names ≡ self.old.names }
        ensures keys { self.new.taken.keys ≡ self.old.taken.keys }
    {
        self.items[at].traces.add(trace)
    }

    /// Adds a flow of this name. After NoMemory nothing is known of the flows.
    pub fn add(&mut self, alloc: Global, name: &str, flow: Flow) -> Result<(), NoMemory>
        requires name { flow.name ≡ name.now }
        requires new_name { list_any (bytes_eq name.now) self.old.names ≡ false }
        requires new_id { IsNewId flow.namespace.0 flow.flow_id self.old.taken.keys }
        ensures items { OnOk result (self.new.items.items ≡ self.old.items.items ++ flow ∷ []) }
        ensures names { OnOk result (self.new.names ≡ self.old.names ++ flow.name ∷ []) }
        ensures keys { OnOk result (self.new.taken.keys ≡ self.old.taken.keys ++ pairs_of flow.namespace.0 flow.flow_id) }
    {
        self.add_id(flow.namespace.0, flow.flow_id)?;
        self.names.add(alloc, name)?;
        self.items.push(flow)?;
        Ok(())
    }
}
