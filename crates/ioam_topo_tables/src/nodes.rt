//! The nodes of a domain, with what no two of them share.
ghost use Rattle.std.specs.Prelude.{◌≡◌, ◌++◌, ◌∷◌, [], OnOk, nat_eq, false};
ghost use Rattle.std.specs.List.{list_any};
ghost use Rattle.std.specs.Str.{bytes_eq};

use crate::names::Names;
use indexmap::IndexSet;
use ioam_base::memory::NoMemory;
use ioam_topo::Node;
use std::alloc::Global;

/// The most nodes.
pub const MOST_NODES: usize = 256;

/// Nodes, with what no two of them may share.
#[derive(Drop)]
pub struct Nodes {
    /// The nodes, each numbered by its place from 0.
    pub items: Vec<Node>,
    /// Their names.
    pub names: Names,
    /// Their ids.
    pub ids: IndexSet<u64>,
    /// Their addresses.
    pub addresses: IndexSet<u128>,
}

impl Nodes {
    /// No nodes.
    pub fn new(alloc: Global) -> Nodes
        ensures items { result.items.items ≡ [] }
        ensures names { result.names ≡ [] }
        ensures ids { result.ids.keys ≡ [] }
        ensures addresses { result.addresses.keys ≡ [] }
    {
        Nodes {
            items: Vec::new(alloc),
            names: Names::new(alloc),
            ids: IndexSet::new(alloc),
            addresses: IndexSet::new(alloc),
        }
    }

    /// Whether a node has this id.
    pub fn has_id(&self, id: u64) -> bool
        ensures { result ≡ list_any (nat_eq id) self.now.ids.keys }
    {
        self.ids.contains(&id)
    }

    /// Whether a node has this address.
    pub fn has_address(&self, address: u128) -> bool
        ensures { result ≡ list_any (nat_eq address) self.now.addresses.keys }
    {
        self.addresses.contains(&address)
    }

    /// Adds a node of this name. After NoMemory nothing is known of the nodes.
    pub fn add(&mut self, alloc: Global, name: &str, node: Node) -> Result<(), NoMemory>
        requires name { node.name ≡ name.now }
        requires new_name { list_any (bytes_eq name.now) self.old.names ≡ false }
        requires new_id { list_any (nat_eq node.id) self.old.ids.keys ≡ false }
        requires new_address { list_any (nat_eq node.address) self.old.addresses.keys ≡ false }
        ensures items { OnOk result (self.new.items.items ≡ self.old.items.items ++ node ∷ []) }
        ensures names { OnOk result (self.new.names ≡ self.old.names ++ node.name ∷ []) }
        ensures ids { OnOk result (self.new.ids.keys ≡ self.old.ids.keys ++ node.id ∷ []) }
        ensures addresses { OnOk result (self.new.addresses.keys ≡ self.old.addresses.keys ++ node.address ∷ []) }
    {
        self.names.add(alloc, name)?;
        self.ids.insert_full(node.id)?;
        self.addresses.insert_full(node.address)?;
        self.items.push(node)?;
        Ok(())
    }
}
