//! What a worker asks before its chunk of jobs.
ghost use Rattle.std.specs.Prelude.{Bool, true, IsTrue};

/// What a worker asks before its chunk of jobs: it runs the chunk's jobs where `pass` answers true. By contract they are run
/// behind a gate that always opens, and each job is run or as it was behind any other.
pub trait Gate: Sync {
    // whether it always opens
    ghost opens: { Bool };

    /// Whether the jobs of a chunk are run, by its number from 0.
    fn pass(&self, chunk: u32) -> bool
        ensures { IsTrue opens → IsTrue result };
}

/// A gate that always opens.
#[derive(Debug)]
pub struct OpenGate;

impl Gate for OpenGate {
    ghost opens = { true };

    fn pass(&self, _chunk: u32) -> bool {
        true
    }
}
