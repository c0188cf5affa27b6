//! A generated load as a stage: it reads nothing, and says the sums of what becomes of its arrivals.
ghost use Rattle.std.specs.Prelude.{◌≡◌, ◌≤◌, IfOk, OnOk};
ghost use Rattle.ioam_run_bulk.specs.Load.{IsSet};
ghost use Rattle.ioam_run_bulk.specs.Stage.{IsFresh};

use crate::load::{Load, new_load, run_rest, take_some};
use crate::terms::Terms;
use ioam_base::memory::NoMemory;
use ioam_desk_outputs::Output;
use ioam_report::put_sums;
use ioam_run_arrivals::Forwarding;
use ioam_stream::{Stage, Step};
use std::alloc::Global;

// How many arrivals are taken in one step.
const STEP: u32 = 256;

/// A generated load, some arrivals of which were taken.
#[derive(Drop)]
pub(crate) struct Generating<'r, 'd, 's, F> {
    alloc: Global,
    terms: Terms<'r, 'd, 's, F>,
    // how many arrivals were taken
    taken: u32,
    load: Load,
    // whether the sums were said
    said: bool,
    // whether something was handed to it, which it never asks for and doesn't look at
    fed: bool,
}

impl<'r, 'd, 's, F: Fn(&mut Forwarding)> Generating<'r, 'd, 's, F> {
    /// No arrival yet.
    pub(crate) fn new(
        alloc: Global,
        terms: Terms<'r, 'd, 's, F>,
    ) -> Result<Generating<'r, 'd, 's, F>, NoMemory>
        requires { IsSet (λ f p. F.pre f p) (λ f p u q. F.post f p u q) terms }
        ensures fresh { IfOk result (IsFresh (λ f p. F.pre f p) (λ f p u q. F.post f p u q)) }
        ensures seed { IfOk result (λ stage. (stage.terms.seed ≡ terms.entry.seed) × (stage.terms.count ≡ terms.entry.count)) }
    {
        let load = new_load(alloc, terms.domain, terms.seed)?;
        Ok(Generating {
            alloc,
            terms,
            taken: 0,
            load,
            said: false,
            fed: false,
        })
    }
}

impl<'r, 'd, 's, F: Fn(&mut Forwarding)> Stage for Generating<'r, 'd, 's, F> {
    ghost use Rattle.ioam_run_bulk.specs.Stage.{kind};
    ghost use Rattle.ioam_run_bulk.specs.StageLaws.{lawful};

    ghost kind = { kind (λ f p. F.pre f p) (λ f p u q. F.post f p u q) };

    fn begin(&self, _outputs: &mut [Output]) -> Result<(), NoMemory> {
        Ok(())
    }

    fn step(&mut self, outputs: &mut [Output]) -> Result<Step, NoMemory> {
        if self.said {
            return Ok(Step::End);
        }
        let left = self.terms.count - self.taken;
        if left > 0 {
            let until = self.taken + left.min(STEP);
            take_some(&self.terms, self.alloc, self.taken, until, &mut self.load)?;
            self.taken = until;
            return Ok(Step::Taken);
        }
        run_rest(&self.terms, &mut self.load);
        put_sums(
            self.terms.domain,
            &self.load.gathered.sums,
            &mut outputs[0].gathered,
        )?;
        self.said = true;
        Ok(Step::Taken)
    }

    fn feed(&mut self, _input: usize, _octets: &[u8]) -> Result<(), NoMemory> {
        self.fed = true;
        Ok(())
    }

    fn end(&mut self, _input: usize) {
        self.fed = true;
    }

    fn cut(&mut self, _input: usize) {}

    ghost lawful = { lawful (λ f p. F.pre f p) (λ f p u q. F.post f p u q) };
}
