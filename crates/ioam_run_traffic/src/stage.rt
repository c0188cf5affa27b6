//! The traffic of a domain as a stage: it reads the captures of the ports, and says what becomes of their records.
ghost use Rattle.std.specs.Prelude.{◌≡◌, ◌<◌, ◌^◌, All, Bool, IfOk, OnOk, length};
ghost use Rattle.ioam_stream.specs.Stage.{Standing, Steps};
ghost use Rattle.ioam_run_arrivals.specs.Forwarding.{IsOf, taken};
ghost use Rattle.ioam_run_arrivals.specs.Outlets.{outlet_count};
ghost use Rattle.ioam_topo.specs.Domain.{ports as ports_of};
ghost use Rattle.ioam_run_traffic.specs.Progress.{IsSet, Tells};
ghost use Rattle.ioam_run_traffic.specs.Stage.{IsFresh, kind};
ghost use Rattle.ioam_run_traffic.specs.declared.stage.Phase.{Phase};

use crate::halt::Halt;
use crate::progress::{Pause, Progress};
use crate::terms::Terms;
use ioam_base::memory::NoMemory;
use ioam_capture_merge::Merge;
use ioam_desk_outputs::Output;
use ioam_run_arrivals::{Forwarding, Gate, put_heads};
use ioam_stream::{Stage, Step};
use std::alloc::Global;

// The octets of a whole piece.
const PIECE: usize = 65_536;

/// What is to be done next.
#[derive(Clone, Copy)]
pub(crate) enum Phase {
    /// Records are taken.
    Taking,
    /// More is needed of the capture with this index.
    Waiting { input: usize },
    /// No record is taken any more: what waits is run, and the sums are said.
    Closing,
    /// All is said.
    Closed,
}

/// The traffic of a domain, of which some records were taken.
#[derive(Drop)]
pub(crate) struct Traffic<'a, F, G> {
    alloc: Global,
    terms: Terms<'a, F, G>,
    progress: Progress,
    // Whether the last piece that was handed to it was short, or an end: the next one may come late.
    late: bool,
    phase: Phase,
    // How it ends, once it closes and no read failed.
    pub(crate) end: Halt,
}

// Runs the jobs that wait, and appends what they leave to the outputs.
fn tell<F: Fn(&mut Forwarding, &mut [Output]) -> Result<(), NoMemory>, G>(
    terms: &Terms<'_, F, G>,
    gathered: &mut Forwarding,
    outputs: &mut [Output],
) -> Result<(), NoMemory>
    requires set { (opens : Bool) × IsSet opens (λ f p q. F.pre f p q) (λ f p q r s t. F.post f p q r s t) terms.now }
    requires of { IsOf terms.now.domain.now gathered.old }
    requires few { taken gathered.old < 2 ^ 33 }
    requires width { length outputs.old ≡ outlet_count terms.now.domain.now }
    ensures { OnOk result ((opens : Bool) → IsSet opens (λ f p q. F.pre f p q) (λ f p q r s t. F.post f p q r s t) terms.now
        → Tells opens terms.now.domain.now terms.now.readings.now outputs.old outputs.new gathered.old gathered.new) }
{
    (terms.tell)(gathered, outputs)
}

impl<'a, F: Fn(&mut Forwarding, &mut [Output]) -> Result<(), NoMemory>, G: Gate> Traffic<'a, F, G> {
    /// Nothing was handed to it.
    pub(crate) fn new(alloc: Global, terms: Terms<'a, F, G>) -> Result<Traffic<'a, F, G>, NoMemory>
        requires set { IsSet G.opens (λ f p q. F.pre f p q) (λ f p q r s t. F.post f p q r s t) terms }
        requires inside { All (λ port. port.0 < length (ports_of terms.domain.now)) terms.ports.now }
        ensures fresh { IfOk result (IsFresh G.opens (λ f p q. F.pre f p q) (λ f p q r s t. F.post f p q r s t)) }
        ensures terms { IfOk result (λ stage. stage.terms ≡ terms.entry) }
    {
        let merge = Merge::new(alloc, terms.ports.len())?;
        let gathered = Forwarding::start(alloc, terms.domain)?;
        Ok(Traffic {
            alloc,
            terms,
            progress: Progress { merge, gathered },
            late: false,
            phase: Phase::Taking,
            end: Halt::Over,
        })
    }
}

// No function here has a bound on a gate: `step` couldn't call it.
impl<'a, F: Fn(&mut Forwarding, &mut [Output]) -> Result<(), NoMemory>, G> Traffic<'a, F, G> {
    // Takes what is shown, and runs what waits if no more may.
    fn take(&mut self, outputs: &mut [Output]) -> Result<Step, NoMemory>
        requires stands { (opens : Bool) × Standing (kind opens (λ f p q. F.pre f p q) (λ f p q r s t. F.post f p q r s t)) self.old }
        requires taking { self.old.phase ≡ Phase.Taking }
        requires width { length outputs.old ≡ outlet_count self.old.terms.domain.now }
        ensures { IfOk result (λ step. (opens : Bool) → Standing (kind opens (λ f p q. F.pre f p q) (λ f p q r s t. F.post f p q r s t)) self.old
            → Steps (kind opens (λ f p q. F.pre f p q) (λ f p q r s t. F.post f p q r s t)) self.old self.new outputs.old outputs.new step) }
    {
        match self.progress.take_shown(self.alloc, &self.terms) {
            Ok(Pause::Full) => {
                tell(&self.terms, &mut self.progress.gathered, outputs)?;
                Ok(Step::Taken)
            }
            Ok(Pause::Short { input }) => {
                self.phase = Phase::Waiting { input };
                Ok(Step::Taken)
            }
            Ok(Pause::Stopped { halt }) => {
                self.end = halt;
                self.phase = Phase::Closing;
                Ok(Step::Taken)
            }
            Err(NoMemory) => Err(NoMemory),
        }
    }

    // Waits for the capture with this index. If its next octets may come late nothing waits to be run meanwhile.
    fn wait(&mut self, input: usize, outputs: &mut [Output]) -> Result<Step, NoMemory>
        requires stands { (opens : Bool) × Standing (kind opens (λ f p q. F.pre f p q) (λ f p q r s t. F.post f p q r s t)) self.old }
        requires waiting { self.old.phase ≡ Phase.Waiting input }
        requires width { length outputs.old ≡ outlet_count self.old.terms.domain.now }
        ensures { IfOk result (λ step. (opens : Bool) → Standing (kind opens (λ f p q. F.pre f p q) (λ f p q r s t. F.post f p q r s t)) self.old
            → Steps (kind opens (λ f p q. F.pre f p q) (λ f p q r s t. F.post f p q r s t)) self.old self.new outputs.old outputs.new step) }
    {
        if !self.late || self.progress.gathered.none_waits() {
            return Ok(Step::More { input });
        }
        tell(&self.terms, &mut self.progress.gathered, outputs)?;
        Ok(Step::Taken)
    }

    // Runs what waits, and says the sums.
    fn close(&mut self, outputs: &mut [Output]) -> Result<Step, NoMemory>
        requires stands { (opens : Bool) × Standing (kind opens (λ f p q. F.pre f p q) (λ f p q r s t. F.post f p q r s t)) self.old }
        requires closing { self.old.phase ≡ Phase.Closing }
        requires width { length outputs.old ≡ outlet_count self.old.terms.domain.now }
        ensures { IfOk result (λ step. (opens : Bool) → Standing (kind opens (λ f p q. F.pre f p q) (λ f p q r s t. F.post f p q r s t)) self.old
            → Steps (kind opens (λ f p q. F.pre f p q) (λ f p q r s t. F.post f p q r s t)) self.old self.new outputs.old outputs.new step) }
    {
        tell(&self.terms, &mut self.progress.gathered, outputs)?;
        self.progress.gathered.put_sums(self.terms.domain, outputs)?;
        self.phase = Phase::Closed;
        Ok(Step::Taken)
    }
}

impl<'a, F: Fn(&mut Forwarding, &mut [Output]) -> Result<(), NoMemory>, G: Gate> Stage
    for Traffic<'a, F, G> {
    ghost use Rattle.ioam_run_traffic.specs.Stage.{kind};
    ghost use Rattle.ioam_run_traffic.specs.StageLaws.{lawful};

    ghost kind = { kind G.opens (λ f p q. F.pre f p q) (λ f p q r s t. F.post f p q r s t) };

    fn begin(&self, outputs: &mut [Output]) -> Result<(), NoMemory> {
        put_heads(self.terms.domain, outputs)
    }

    fn step(&mut self, outputs: &mut [Output]) -> Result<Step, NoMemory> {
        match self.phase {
            Phase::Taking => self.take(outputs),
            Phase::Waiting { input } => self.wait(input, outputs),
            Phase::Closing => self.close(outputs),
            Phase::Closed => Ok(Step::End),
        }
    }

    fn feed(&mut self, input: usize, octets: &[u8]) -> Result<(), NoMemory> {
        self.late = octets.len() < PIECE;
        self.phase = Phase::Taking;
        self.progress.merge.feed(input, octets)
    }

    fn end(&mut self, input: usize) {
        self.late = true;
        self.phase = Phase::Taking;
        self.progress.merge.end(input);
    }

    fn cut(&mut self, _input: usize) {
        self.phase = Phase::Closing;
    }

    ghost lawful = { lawful G.opens (λ f p q. F.pre f p q) (λ f p q r s t. F.post f p q r s t) };
}
