//! The routes of a domain, with what no two of them share.
ghost use Rattle.std.specs.Prelude.{◌≡◌, ◌++◌, ◌∷◌, [], OnOk, false};
ghost use Rattle.std.specs.List.{list_any};
ghost use Rattle.ioam_topo.specs.Keyed.{is_route};

use crate::links::Links;
use crate::nodes::Nodes;
use crate::ports::Ports;
use indexmap::IndexSet;
use ioam_base::memory::NoMemory;
use ioam_topo::{Prefix, Route};
use std::alloc::Global;

/// The most routes.
pub const MOST_ROUTES: usize = 16384;

/// The nodes, links and ports that routes refer to.
#[derive(Drop)]
pub struct Parts {
    /// The nodes.
    pub nodes: Nodes,
    /// The links.
    pub links: Links,
    /// The ports.
    pub ports: Ports,
}

/// Routes, with what no two of them may share.
#[derive(Drop)]
pub struct Routes {
    /// The routes, each numbered by its place from 0.
    pub items: Vec<Route>,
    /// The node and the prefix of each.
    pub taken: IndexSet<(u32, Prefix)>,
}

impl Routes {
    /// No routes.
    pub fn new(alloc: Global) -> Routes
        ensures items { result.items.items ≡ [] }
        ensures keys { result.taken.keys ≡ [] }
    {
        Routes {
            items: Vec::new(alloc),
            taken: IndexSet::new(alloc),
        }
    }

    /// Whether a node has a route for a prefix.
    pub fn is_taken(&self, node: u32, prefix: Prefix) -> bool
        ensures { result ≡ list_any (is_route node prefix) self.now.taken.keys }
    {
        self.taken.contains(&(node, prefix))
    }

    /// Adds a route. After NoMemory nothing is known of the routes.
    pub fn add(&mut self, route: Route) -> Result<(), NoMemory>
        requires { list_any (is_route route.node.0 route.prefix) self.old.taken.keys ≡ false }
        ensures items { OnOk result (self.new.items.items ≡ self.old.items.items ++ route ∷ []) }
        ensures keys { OnOk result (self.new.taken.keys ≡ self.old.taken.keys ++ (route.node.0, route.prefix) ∷ []) }
    {
        self.taken.insert_full((route.node.0, route.prefix))?;
        self.items.push(route)?;
        Ok(())
    }
}
