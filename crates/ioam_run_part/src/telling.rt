//! A text that is written to one file, part by part.
ghost use Rattle.std.specs.Prelude.{◌≡◌, ◌∷◌, [], IfOk, IsTrue, List, ℕ};
ghost use Rattle.ioam_desk.specs.Asked.{AsksFront};
ghost use Rattle.ioam_desk.specs.Kept.{KeepsOutputs};
ghost use Rattle.ioam_run_part.specs.Stored.{AnswersWrites, Stores, answer_of};
ghost use Rattle.ioam_run_part.specs.Telling.{Puts, stored_by};

use ioam_base::memory::NoMemory;
use ioam_base::name::Name;
use ioam_desk::{Desk, DeskFault};
use ioam_desk_outputs::Output;
use ioam_run_answer::Outcome;
use ioam_stream::{Stage, Step, Stop, Tail, run};
use std::alloc::Global;
use std::slice;

/// What a text is made of.
pub(crate) trait Source: Drop {
    // the text that is still to be said, and of how many parts it is
    ghost says: { Self → List ℕ → Type 0 };

    ghost left: { Self → ℕ };

    /// Appends the next part of the text.
    fn put(&mut self, out: &mut Vec<u8>) -> Result<Tail, NoMemory>
        ensures { IfOk result (Puts says left self.old self.new out.old.items out.new.items) };
}

// A source as a stage that reads nothing.
#[derive(Drop)]
struct Telling<T> {
    source: T,
    done: bool,
    // whether something was handed to it, which it never asks for and doesn't look at
    fed: bool,
}

impl<T: Source> Stage for Telling<T> {
    ghost use Rattle.ioam_run_part.specs.Telling.{kind, lawful};

    ghost kind = { kind T.says T.left };

    fn begin(&self, _outputs: &mut [Output]) -> Result<(), NoMemory> {
        Ok(())
    }

    fn step(&mut self, outputs: &mut [Output]) -> Result<Step, NoMemory> {
        if self.done {
            return Ok(Step::End);
        }
        match self.source.put(&mut outputs[0].gathered)? {
            Tail::Rest => Ok(Step::Taken),
            Tail::End => {
                self.done = true;
                Ok(Step::Taken)
            }
        }
    }

    fn feed(&mut self, _input: usize, _octets: &[u8]) -> Result<(), NoMemory> {
        self.fed = true;
        Ok(())
    }

    fn end(&mut self, _input: usize) {
        self.fed = true;
    }

    fn cut(&mut self, _input: usize) {}

    ghost lawful = { lawful T.says T.left };
}

// What became of the text, by how its run stopped. No input is read, so no read fails.
fn stored(stop: Stop) -> Result<(), DeskFault>
    ensures { result ≡ stored_by stop }
{
    match stop {
        Stop::Ended => Ok(()),
        Stop::WriteFault => Err(DeskFault::Failed),
        Stop::ReadFault | Stop::NoMemory => Err(DeskFault::NoMemory),
    }
}

/// Opens a file, and writes the text of a source to it.
pub(crate) fn tell<T: Source, D: Desk>(
    alloc: Global,
    desk: &mut D,
    name: &Name,
    source: T,
) -> Result<(), DeskFault>
    ensures stores { (text : List ℕ) → T.says source text
        → Stores D.tells name.now text (D.writing desk.old) (D.writing desk.new) result }
    ensures faults { AnswersWrites (D.writing desk.old) (D.writing desk.new) result }
    ensures asked { AsksFront (D.writing desk.old).side.asked (D.writing desk.new).side.asked (name.now ∷ []) }
    ensures kept { IsTrue D.tells → KeepsOutputs (D.writing desk.old) (D.writing desk.new) }
    ensures inputs { D.reading desk.new ≡ D.reading desk.old }
{
    let mut stage = Telling {
        source,
        done: false,
        fed: false,
    };
    let stop = run(alloc, desk, &[], slice::from_ref(name), &mut stage);
    stored(stop)
}

/// The answer for what became of a text.
pub(crate) fn stored_outcome(stored: Result<(), DeskFault>) -> Outcome
    ensures { result ≡ answer_of stored }
{
    match stored {
        Ok(()) => Outcome::Done,
        Err(DeskFault::Failed) => Outcome::WriteFault,
        Err(DeskFault::NoMemory) => Outcome::NoMemory,
    }
}
