//! Gates for the tests of workers: one at which two chunks wait for one another, and one that is shut.
//! It has no part in the program.
#![tactic(auto)]

ghost use Rattle.std.specs.Prelude.{true, false};

use ioam_batch::Gate;
use std::sync::atomic::{AtomicBool, Ordering};

// How often a chunk looks for the other.
const LOOKS: u32 = 100_000_000;

/// A gate at which two chunks wait for one another, and which then opens.
#[derive(Drop)]
pub struct Meeting {
    came: [AtomicBool; 2],
    met: [AtomicBool; 2],
}

pub fn make_meeting() -> Meeting {
    Meeting {
        came: [AtomicBool::new(false), AtomicBool::new(false)],
        met: [AtomicBool::new(false), AtomicBool::new(false)],
    }
}

impl Gate for Meeting {
    ghost opens = { true };

    fn pass(&self, chunk: u32) -> bool {
        let own = usize::from(chunk != 0);
        self.came[own].store(true, Ordering::SeqCst);
        for _ in 0..LOOKS {
            if self.came[1 - own].load(Ordering::SeqCst) {
                self.met[own].store(true, Ordering::SeqCst);
                break;
            }
        }
        true
    }
}

impl Meeting {
    /// Whether each chunk saw the other.
    pub fn has_met(&self) -> bool {
        self.met[0].load(Ordering::SeqCst) && self.met[1].load(Ordering::SeqCst)
    }
}

/// A gate that never opens.
pub struct ShutGate;

impl Gate for ShutGate {
    ghost opens = { false };

    fn pass(&self, _chunk: u32) -> bool {
        false
    }
}
