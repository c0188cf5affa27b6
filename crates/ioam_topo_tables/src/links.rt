//! The links of a domain, with their names.
ghost use Rattle.std.specs.Prelude.{◌≡◌, ◌+◌, ◌++◌, ◌∷◌, [], OnOk, false};
ghost use Rattle.std.specs.List.{list_any};
ghost use Rattle.std.specs.Str.{bytes_eq};
ghost use Rattle.ioam_topo.specs.Keyed.{count_of};

use crate::names::Names;
use ioam_base::memory::NoMemory;
use ioam_topo::Link;
use std::alloc::Global;

/// The most links.
pub const MOST_LINKS: usize = 1024;

/// Links, with what no two of them may share.
#[derive(Drop)]
pub struct Links {
    /// The links, each numbered by its place from 0.
    pub items: Vec<Link>,
    /// Their names.
    pub names: Names,
    /// How many have a tap.
    pub taps: u32,
}

impl Links {
    /// No links.
    pub fn new(alloc: Global) -> Links
        ensures items { result.items.items ≡ [] }
        ensures names { result.names ≡ [] }
        ensures taps { result.taps ≡ 0 }
    {
        Links {
            items: Vec::new(alloc),
            names: Names::new(alloc),
            taps: 0,
        }
    }

    /// Adds a link of this name. After NoMemory nothing is known of the links.
    pub fn add(&mut self, alloc: Global, name: &str, link: Link) -> Result<(), NoMemory>
        requires name { link.name ≡ name.now }
        requires new_name { list_any (bytes_eq name.now) self.old.names ≡ false }
        ensures items { OnOk result (self.new.items.items ≡ self.old.items.items ++ link ∷ []) }
        ensures names { OnOk result (self.new.names ≡ self.old.names ++ link.name ∷ []) }
        ensures taps { OnOk result (self.new.taps ≡ self.old.taps + count_of link.tap) }
    {
        let more = if link.tap.is_some() { 1 } else { 0 };
        // Never None: there are at most 1,024 links.
        let Some(taps) = self.taps.checked_add(more) else {
            return Err(NoMemory);
        };
        self.names.add(alloc, name)?;
        self.items.push(link)?;
        self.taps = taps;
        Ok(())
    }
}
