//! Which calls of a desk in memory are to fail.
ghost use Rattle.std.specs.Prelude.{◌≡◌, [], ◌∷◌, ◌++◌, is_ok, if◌then◌else◌};
ghost use Rattle.ioam_desk.specs.Plan.{next_call, is_listed};

use ioam_base::memory::NoMemory;
use std::alloc::Global;

/// How many calls were counted, and which ones are to fail.
#[derive(Drop)]
pub(crate) struct Calls {
    made: u64,
    failing: Vec<u64>,
}

impl Calls {
    pub(crate) fn new(alloc: Global) -> Calls
        ensures made { result.made ≡ 0 }
        ensures failing { result.failing.items ≡ [] }
    {
        Calls {
            made: 0,
            failing: Vec::new(alloc),
        }
    }

    /// Lists a call as one that is to fail.
    pub(crate) fn list(&mut self, call: u64) -> Result<(), NoMemory>
        ensures made { self.new.made ≡ self.old.made }
        ensures failing { self.new.failing.items ≡
            (if is_ok result then self.old.failing.items ++ call ∷ []
            else self.old.failing.items) }
    {
        self.failing.push(call)?;
        Ok(())
    }

    /// Whether the next call is to fail.
    pub(crate) fn next_fails(&self) -> bool
        ensures { result ≡ is_listed (next_call self.now.made) self.now.failing.items }
    {
        let next = self.made.saturating_add(1);
        self.failing.contains(&next)
    }

    /// Counts a call.
    pub(crate) fn count(&mut self)
        ensures made { self.new.made ≡ next_call self.old.made }
        ensures failing { self.new.failing.items ≡ self.old.failing.items }
    {
        self.made = self.made.saturating_add(1);
    }
}
