//! The data of the nodes of a domain, with what no two of them share.
ghost use Rattle.std.specs.Prelude.{◌≡◌, ◌++◌, ◌∷◌, [], OnOk, false};
ghost use Rattle.std.specs.List.{list_any};
ghost use Rattle.ioam_topo.specs.Keyed.{is_pair};

use indexmap::IndexSet;
use ioam_base::memory::NoMemory;
use ioam_topo::NodeData;
use std::alloc::Global;

/// The most entries of the table `data`.
pub const MOST_DATA: usize = 4096;

/// Node data, with what no two entries may share.
#[derive(Drop)]
pub struct DataRows {
    /// The data.
    pub items: Vec<NodeData>,
    /// The node and the namespace of each.
    pub taken: IndexSet<(u32, u16)>,
}

impl DataRows {
    /// No data.
    pub fn new(alloc: Global) -> DataRows
        ensures items { result.items.items ≡ [] }
        ensures keys { result.taken.keys ≡ [] }
    {
        DataRows {
            items: Vec::new(alloc),
            taken: IndexSet::new(alloc),
        }
    }

    /// Whether a node has data in a namespace.
    pub fn is_taken(&self, node: u32, space: u16) -> bool
        ensures { result ≡ list_any (is_pair node space) self.now.taken.keys }
    {
        self.taken.contains(&(node, space))
    }

    /// Adds the data of a node in a namespace. After NoMemory nothing is known of the data.
    pub fn add(&mut self, row: NodeData) -> Result<(), NoMemory>
        requires { list_any (is_pair row.node.0 row.namespace.0) self.old.taken.keys ≡ false }
        ensures items { OnOk result (self.new.items.items ≡ self.old.items.items ++ row ∷ []) }
        ensures keys { OnOk result (self.new.taken.keys ≡ self.old.taken.keys ++ (row.node.0, row.namespace.0) ∷ []) }
    {
        self.taken.insert_full((row.node.0, row.namespace.0))?;
        self.items.push(row)?;
        Ok(())
    }
}
