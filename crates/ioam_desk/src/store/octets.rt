//! Octets that grow.
ghost use Rattle.std.specs.Prelude.{◌≡◌, ◌++◌, [], IfOk, is_ok, if◌then◌else◌};

use ioam_base::memory::NoMemory;
use ioam_base::text;
use std::alloc::Global;
use std::marker::Model;

/// Octets that grow at their end.
#[derive(Drop)]
pub(crate) struct Octets {
    octets: Vec<u8>,
}

impl Model for Octets {
    ghost use Rattle.std.specs.Prelude.{List, ℕ};

    ghost Value = { List ℕ };

    ghost view = { λ held. held.octets.items };
}

impl Octets {
    pub(crate) fn new(alloc: Global) -> Octets
        ensures { result ≡ [] }
    {
        Octets {
            octets: Vec::new(alloc),
        }
    }

    pub(crate) fn copy(alloc: Global, octets: &[u8]) -> Result<Octets, NoMemory>
        ensures { IfOk result (λ copy. copy ≡ octets.now) }
    {
        let octets = octets.to_vec(alloc)?;
        Ok(Octets { octets })
    }

    pub(crate) fn as_slice(&self) -> &[u8]
        ensures { result.now ≡ self.now }
    {
        self.octets.as_slice()
    }

    /// Appends octets, or leaves what was there.
    pub(crate) fn append(&mut self, more: &[u8]) -> Result<(), NoMemory>
        ensures { self.new ≡ (if is_ok result then self.old ++ more.now else self.old) }
    {
        text::append(&mut self.octets, more)
    }
}
