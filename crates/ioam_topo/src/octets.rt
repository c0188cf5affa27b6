//! Octets that a node records.
ghost use Rattle.std.specs.Prelude.{◌≡◌};

use std::marker::Model;

/// Octets that a node records. Contracts see them as a list.
#[derive(Debug, Drop)]
pub struct Octets {
    held: Vec<u8>,
}

impl Model for Octets {
    ghost use Rattle.std.specs.Prelude.{List, ℕ};

    ghost Value = { List ℕ };

    ghost view = { λ octets. octets.held.items };
}

impl Octets {
    /// These octets.
    pub fn new(held: Vec<u8>) -> Octets
        ensures { result ≡ held.items }
    {
        Octets { held }
    }

    /// The octets.
    pub fn list(&self) -> &[u8]
        ensures { result.now ≡ self.now }
    {
        self.held.as_slice()
    }
}
