//! Names by their places, no two equal.
ghost use Rattle.std.specs.Prelude.{◌≡◌, ◌≢◌, ◌++◌, ◌∷◌, ◌<◌, ◌^◌, [], length, OnOk, IfSome, false};
ghost use Rattle.std.specs.List.{list_any, AllPairs};
ghost use Rattle.std.specs.Str.{bytes_eq};
ghost use Rattle.ioam_topo.specs.Keyed.{place_of};

use indexmap::IndexSet;
use ioam_base::memory::NoMemory;
use std::alloc::Global;
use std::marker::Model;

// The most names of one kind, far above any table's most entries.
const MOST_NAMES: usize = 0x7fff_fffe;

/// Names, no two of them equal, each numbered by its place from 0. Contracts see them as a list.
#[derive(Drop)]
pub struct Names {
    held: IndexSet<String>,
}

impl Model for Names {
    ghost use Rattle.std.specs.Prelude.{List, ℕ, map, string_bytes, length, ◌<◌, ◌^◌};

    ghost Value = { List (List ℕ) };

    ghost view = { λ names. map string_bytes names.held.keys };

    ghost invariant = { λ names. length names.held.keys < 2 ^ 31 };
}

impl Names {
    /// No names.
    pub fn new(alloc: Global) -> Names
        ensures { result ≡ [] }
    {
        Names {
            held: IndexSet::new(alloc),
        }
    }

    /// How many there are; no two are equal.
    pub fn len(&self) -> usize
        ensures value { result ≡ length self.now }
        ensures apart { AllPairs (λ a b. a ≢ b) self.now }
    {
        self.held.len()
    }

    /// The place of a name.
    pub fn place_of(&self, name: &str) -> Option<usize>
        ensures value { result ≡ place_of self.now name.now }
        ensures within { IfSome result (λ at. at < length self.now) }
        ensures small { IfSome result (λ at. at < 2 ^ 31) }
    {
        self.held.get_index_of(name)
    }

    /// Whether a name is there.
    pub fn contains(&self, name: &str) -> bool
        ensures { result ≡ list_any (bytes_eq name.now) self.now }
    {
        self.held.contains(name)
    }

    /// Adds a name that isn't there. After NoMemory nothing is known of the names.
    pub fn add(&mut self, alloc: Global, name: &str) -> Result<(), NoMemory>
        requires { list_any (bytes_eq name.now) self.old ≡ false }
        ensures { OnOk result (self.new ≡ self.old ++ name.now ∷ []) }
    {
        let name = String::from_str(alloc, name)?;
        if self.held.len() >= MOST_NAMES {
            return Err(NoMemory);
        }
        self.held.insert_full(name)?;
        Ok(())
    }
}
