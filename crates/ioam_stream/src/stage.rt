//! What a command makes of the octets of its inputs.
ghost use Rattle.std.specs.Prelude.{◌≡◌, ◌<◌, ◌≤◌, OnErr, OnOk, IfOk, length};
ghost use Rattle.ioam_desk_outputs.specs.Told.{GathersFew, GathersNothing};
ghost use Rattle.ioam_stream.specs.Stage.{Kind, Lawful, Leading, Standing, Begins, Steps, Feeds, Keeps, IsFed, IsEnded, IsCut};

use ioam_base::memory::NoMemory;
use ioam_desk_outputs::Output;

/// What a step did.
#[derive(Clone, Copy)]
pub enum Step {
    /// It took an item, or said something that comes after the last one.
    Taken,
    /// It needs more octets of the input with this index, or its end.
    More { input: usize },
    /// All is said. Why it came to an end, the stage knows.
    End,
}

/// The readers of a command's inputs, and what it makes of their items: octets for each output.
///
/// Inputs and outputs are numbered from 0. The machine calls `begin` once, then `step` until it answers `More`; then
/// `feed` with a piece of that input, or `end`; and so on until a step answers `End`. If a read fails it calls `cut` once,
/// and steps on to `End`.
pub trait Stage: Drop {
    // how many inputs and outputs there are, what the stage stands for, and which texts it says
    ghost kind: { Kind Self };

    /// Says what comes before the first item.
    fn begin(&self, outputs: &mut [Output]) -> Result<(), NoMemory>
        requires width { length outputs.old ≡ kind.width self.now }
        requires nothing { GathersNothing outputs.old }
        ensures begins { OnOk result (Begins kind self.now outputs.old outputs.new) }
        ensures few { OnOk result (GathersFew outputs.new) };

    /// Takes the next item that was handed out whole, and says what is made of it. After the last item it says what comes
    /// there, piece by piece. Before each step less than a piece waits to be written to each output.
    fn step(&mut self, outputs: &mut [Output]) -> Result<Step, NoMemory>
        requires width { length outputs.old ≡ kind.width self.old }
        requires few { GathersFew outputs.old }
        requires stands { Standing kind self.old }
        ensures steps { IfOk result (Steps kind self.old self.new outputs.old outputs.new) }
        // Something comes after what was said.
        ensures leads { OnErr result (Leading kind self.old) };

    /// Takes a piece, at most 65,536 octets, of the input that the stage waits for.
    fn feed(&mut self, input: usize, octets: &[u8]) -> Result<(), NoMemory>
        requires waits { kind.waits self.old input }
        requires some { 0 < length octets.now }
        requires few { length octets.now ≤ 65536 }
        requires stands { Standing kind self.old }
        ensures { OnOk result (Feeds kind (IsFed input octets.now) self.old self.new) };

    /// Takes note that the input that the stage waits for has ended.
    fn end(&mut self, input: usize)
        requires waits { kind.waits self.old input }
        requires stands { Standing kind self.old }
        ensures { Feeds kind (IsEnded input) self.old self.new };

    /// Takes note that a read of this input failed, and that no more can be had of any. From then on no step waits.
    fn cut(&mut self, input: usize)
        requires waits { kind.waits self.old input }
        requires stands { Standing kind self.old }
        ensures { Keeps kind IsCut self.old self.new };

    ghost lawful: { Lawful kind };
}
