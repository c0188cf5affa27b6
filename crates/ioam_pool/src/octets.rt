//! The octets of a core.
ghost use Rattle.std.specs.Prelude.{◌≡◌, ◌≤◌, [], length, true, is_ok, IfOk};
ghost use Rattle.ioam_pool.specs.Octets.{AreOctets, octets_of};

use ioam_base::memory::NoMemory;
use std::alloc::Global;

// How many octets stand in place.
const FEW: usize = 38;

// Octets, at most 262. Few stand in place, more in memory of their own.
#[derive(Drop)]
pub(crate) enum Octets {
    Few { size: u8, octets: [u8; FEW] },
    Many(Vec<u8>),
}

impl Octets {
    // No octets.
    pub(crate) fn none() -> Octets
        ensures octets { octets_of result ≡ [] }
        ensures are { AreOctets result }
    {
        Octets::Few {
            size: 0,
            octets: [0; FEW],
        }
    }

    // These octets, at most 262. Memory may be wanting for more than stand in place.
    pub(crate) fn new(alloc: Global, octets: &[u8]) -> Result<Octets, NoMemory>
        requires { length octets.now ≤ 262 }
        ensures few { length octets.now ≤ 38 → is_ok result ≡ true }
        ensures octets { IfOk result (λ own. octets_of own ≡ octets.now) }
        ensures are { IfOk result AreOctets }
    {
        if octets.len() > FEW {
            return Ok(Octets::Many(Vec::from_slice(alloc, octets)?));
        }
        let mut own = [0; FEW];
        own[..octets.len()].copy_from_slice(octets);
        Ok(Octets::Few {
            size: octets.len() as u8,
            octets: own,
        })
    }

    // The octets.
    pub(crate) fn as_slice(&self) -> &[u8]
        requires { AreOctets self.now }
        ensures { result.now ≡ octets_of self.now }
    {
        match self {
            Octets::Few { size, octets } => &octets[..*size as usize],
            Octets::Many(octets) => octets,
        }
    }
}
