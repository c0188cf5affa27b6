//! The namespaces that a node lists.
ghost use Rattle.std.specs.Prelude.{◌≡◌, nat_eq};
ghost use Rattle.std.specs.List.{list_any};
ghost use Rattle.ioam_topo.specs.Spaces.{knows_space};

use ioam_data::Namespace;
use std::marker::Model;

/// The most namespaces that a node may list.
pub const MOST_SPACES: usize = 16;

/// The namespaces that a node lists, in the order of the file, which lists none twice. The node knows
/// namespace 0 whether or not it lists it. Contracts see them as a list.
#[derive(Debug, Drop)]
pub struct Spaces {
    held: Vec<Namespace>,
}

impl Model for Spaces {
    ghost use Rattle.std.specs.Prelude.{List};
    ghost use Rattle.ioam_data.specs.declared.namespace.Namespace.{Namespace};

    ghost Value = { List Namespace };

    ghost view = { λ spaces. spaces.held.items };
}

// Whether a namespace is one of these.
fn is_listed(spaces: &[Namespace], space: u16) -> bool
    ensures { result ≡ list_any (λ known. nat_eq space known.0) spaces.now }
{
    spaces.iter().any(|known| space == known.0)
}

impl Spaces {
    /// These namespaces.
    pub fn new(held: Vec<Namespace>) -> Spaces
        ensures { result ≡ held.items }
    {
        Spaces { held }
    }

    /// The namespaces.
    pub fn list(&self) -> &[Namespace]
        ensures { result.now ≡ self.now }
    {
        self.held.as_slice()
    }

    /// Whether a node that lists these knows a namespace; every node knows namespace 0.
    pub fn knows(&self, space: u16) -> bool
        ensures { result ≡ knows_space self.now space }
    {
        space == 0 || is_listed(self.list(), space)
    }
}
