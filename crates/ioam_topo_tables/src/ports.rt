//! The ports of a domain, with their names.
ghost use Rattle.std.specs.Prelude.{◌≡◌, ◌++◌, ◌∷◌, [], OnOk, false};
ghost use Rattle.std.specs.List.{list_any};
ghost use Rattle.std.specs.Str.{bytes_eq};

use crate::names::Names;
use ioam_base::memory::NoMemory;
use ioam_topo::Port;
use std::alloc::Global;

/// The most ports.
pub const MOST_PORTS: usize = 64;

/// Ports, with what no two of them may share.
#[derive(Drop)]
pub struct Ports {
    /// The ports, each numbered by its place from 0.
    pub items: Vec<Port>,
    /// Their names.
    pub names: Names,
}

impl Ports {
    /// No ports.
    pub fn new(alloc: Global) -> Ports
        ensures items { result.items.items ≡ [] }
        ensures names { result.names ≡ [] }
    {
        Ports {
            items: Vec::new(alloc),
            names: Names::new(alloc),
        }
    }

    /// Adds a port of this name. After NoMemory nothing is known of the ports.
    pub fn add(&mut self, alloc: Global, name: &str, port: Port) -> Result<(), NoMemory>
        requires name { port.name ≡ name.now }
        requires new_name { list_any (bytes_eq name.now) self.old.names ≡ false }
        ensures items { OnOk result (self.new.items.items ≡ self.old.items.items ++ port ∷ []) }
        ensures names { OnOk result (self.new.names ≡ self.old.names ++ port.name ∷ []) }
    {
        self.names.add(alloc, name)?;
        self.items.push(port)?;
        Ok(())
    }
}
