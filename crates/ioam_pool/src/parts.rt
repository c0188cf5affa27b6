//! The parts of an item, lent.
ghost use Rattle.std.specs.Prelude.{◌≡◌, ◌≤◌, ◌⊎◌, length};

use std::marker::Model;

/// The parts of an item, lent: a hop value, a core of at most 262 octets, and an extra part of 12 octets
/// or none.
#[derive(Drop)]
pub struct Parts<'a> {
    hops: u8,
    core: &'a [u8],
    extra: &'a [u8],
}

impl<'a> Model for Parts<'a> {
    ghost use Rattle.std.specs.Prelude.{◌≡◌, ◌≤◌, ◌⊎◌, length};
    ghost use Rattle.ioam_pool.specs.Entry.{Entry};

    ghost Value = { Entry };

    ghost view = { λ parts. record { hops = parts.hops; core = parts.core.now; extra = parts.extra.now } };

    ghost invariant = { λ parts. (length parts.core.now ≤ 262) × ((length parts.extra.now ≡ 0) ⊎ (length parts.extra.now ≡ 12)) };
}

impl<'a> Parts<'a> {
    ghost use Rattle.ioam_pool.specs.Entry.{Entry};

    /// These parts.
    pub fn new(hops: u8, core: &'a [u8], extra: &'a [u8]) -> Parts<'a>
        requires core { length core.now ≤ 262 }
        requires extra { (length extra.now ≡ 0) ⊎ (length extra.now ≡ 12) }
        ensures { result ≡ record { hops = hops; core = core.now; extra = extra.now } }
    {
        Parts { hops, core, extra }
    }

    // The hop value.
    pub(crate) fn hops(&self) -> u8
        ensures { result ≡ self.now.hops }
    {
        self.hops
    }

    // The octets of the core.
    pub(crate) fn core(&self) -> &'a [u8]
        ensures octets { result.now ≡ self.now.core }
        ensures size { length result.now ≤ 262 }
    {
        self.core
    }

    // The octets of the extra part, or none.
    pub(crate) fn extra(&self) -> &'a [u8]
        ensures octets { result.now ≡ self.now.extra }
        ensures size { (length result.now ≡ 0) ⊎ (length result.now ≡ 12) }
    {
        self.extra
    }
}
