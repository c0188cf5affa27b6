//! The two captures, compared as their pieces come: a stage over two inputs, whose lines are REPORT.
ghost use Rattle.std.specs.Prelude.{◌≡◌, ◌∷◌, ◌+◌, ◌<◌, ◌++◌, [], IfOk, List, None, length, true, false};
ghost use Rattle.ioam_desk_outputs.specs.Told.{Adds};
ghost use Rattle.ioam_desk_outputs.specs.declared.output.Output.{Output};
ghost use Rattle.ioam_ip.specs.Chain.{IsSound};
ghost use Rattle.ioam_ip.specs.Packet.{IsPacket};
ghost use Rattle.ioam_stream.specs.Stage.{Standing, Steps};
ghost use Rattle.ioam_run_audit.specs.Comparing.{FateOf, IsFresh, behind, kind, place_of, said_behind};
ghost use Rattle.ioam_run_audit.specs.Lines.{line_of};
ghost use Rattle.ioam_run_audit.specs.declared.comparison.Lookahead.{Lookahead};
ghost use Rattle.ioam_run_audit.specs.declared.comparison.Phase.{Phase};
ghost use Rattle.ioam_run_audit.specs.declared.cursor.End.{End};

use crate::counts::Counts;
use crate::cursor::{Cursor, End, Next};
use crate::ending::{put_behind, verdict_by};
use crate::fate::Fate;
use crate::lines::put_line;
use crate::seat::Seat;
use ioam_base::memory::NoMemory;
use ioam_desk_outputs::Output;
use ioam_node::Reason;
use ioam_stream::{Stage, Step};
use std::alloc::Global;

/// What is known of the next packet of AFTER.
#[derive(Clone, Copy)]
pub(crate) enum Lookahead {
    /// Nothing: it has to be asked for.
    Asked,
    /// It is held.
    Held,
    /// The record has none, so that it is none that was sent on.
    Unfit,
    /// There is none.
    Over,
}

/// What is still to be done.
#[derive(Clone, Copy)]
pub(crate) enum Phase {
    /// Records are taken.
    Judging,
    /// The sums are to be said.
    Closing,
    /// All is said.
    Closed,
}

/// The two captures, compared as their pieces come.
#[derive(Drop)]
pub(crate) struct Comparison<'a> {
    seat: Seat<'a>,
    pub(crate) before: Cursor,
    pub(crate) after: Cursor,
    ahead: Lookahead,
    counts: Counts,
    phase: Phase,
}

impl<'a> Comparison<'a> {
    /// Nothing was taken yet.
    pub(crate) fn new(alloc: Global, seat: &Seat<'a>) -> Result<Comparison<'a>, NoMemory>
        ensures fresh { IfOk result IsFresh }
        ensures seat { IfOk result (λ stage. place_of stage.seat ≡ place_of seat.now) }
    {
        Ok(Comparison {
            seat: *seat,
            before: Cursor::new(alloc)?,
            after: Cursor::new(alloc)?,
            ahead: Lookahead::Asked,
            counts: Counts {
                sent: 0,
                gone: 0,
                skipped: 0,
            },
            phase: Phase::Judging,
        })
    }

    // Looks at what comes next of AFTER.
    fn look_ahead(&mut self) -> Result<Step, NoMemory>
        requires stands { Standing kind self.old }
        requires asked { self.old.ahead ≡ Lookahead.Asked }
        requires judging { self.old.phase ≡ Phase.Judging }
        ensures { IfOk result (λ step. (outputs : List Output) → length outputs ≡ 1 → Steps kind self.old self.new outputs outputs step) }
    {
        match self.after.next() {
            Ok(Next::Record(None)) => self.ahead = Lookahead::Held,
            Ok(Next::Record(Some(_))) => self.ahead = Lookahead::Unfit,
            Ok(Next::Over(_)) => self.ahead = Lookahead::Over,
            Ok(Next::More) => return Ok(Step::More { input: 1 }),
            Err(NoMemory) => return Err(NoMemory),
        }
        Ok(Step::Taken)
    }

    // What becomes of the packet of BEFORE that was taken, or why it has none.
    fn fate(&self, why: Option<Reason>) -> Fate
        requires packet { why ≡ None → IsPacket self.now.before.packet.items }
        requires sound { why ≡ None → IsSound self.now.before.packet.items }
        requires few { self.now.counts.sent < 16777216 }
        ensures { FateOf self.now why result }
    {
        if let Some(why) = why {
            return Fate::Skipped(why);
        }
        match self.ahead {
            Lookahead::Held => {}
            _ => return Fate::Gone,
        }
        if self.seat.can_send(&self.before.packet, &self.after.packet) {
            Fate::Sent(self.counts.sent + 1)
        } else {
            Fate::Gone
        }
    }

    // Counts it.
    fn count(&mut self, fate: Fate)
        requires few { self.old.counts.sent + self.old.counts.gone + self.old.counts.skipped < 16777216 }
        ensures { self.new ≡ behind fate self.old }
    {
        match fate {
            Fate::Sent(_) => {
                self.counts.sent += 1;
                self.ahead = Lookahead::Asked;
            }
            Fate::Gone => self.counts.gone += 1,
            Fate::Skipped(_) => self.counts.skipped += 1,
        }
    }

    // Takes the next packet of BEFORE, and says what becomes of it.
    fn judge(&mut self, outputs: &mut [Output]) -> Result<Step, NoMemory>
        requires stands { Standing kind self.old }
        requires known { self.old.ahead ≡ Lookahead.Asked → ⊥ }
        requires judging { self.old.phase ≡ Phase.Judging }
        requires more { self.old.before.end ≡ End.Open }
        requires width { length outputs.old ≡ 1 }
        ensures { IfOk result (Steps kind self.old self.new outputs.old outputs.new) }
    {
        let why = match self.before.next() {
            Ok(Next::Record(why)) => why,
            Ok(Next::Over(_)) => return Ok(Step::Taken),
            Ok(Next::More) => return Ok(Step::More { input: 0 }),
            Err(NoMemory) => return Err(NoMemory),
        };
        let fate = self.fate(why);
        match put_line(self.before.taken, fate, &mut outputs[0].gathered) {
            Ok(()) => {}
            Err(NoMemory) => return Err(NoMemory),
        }
        self.count(fate);
        Ok(Step::Taken)
    }

    // Passes over a packet of AFTER that is left after BEFORE, if there is one.
    fn pass(&mut self) -> Step
        requires stands { Standing kind self.old }
        requires known { self.old.ahead ≡ Lookahead.Asked → ⊥ }
        requires judging { self.old.phase ≡ Phase.Judging }
        requires none { self.old.before.end ≡ End.Open → ⊥ }
        ensures { (outputs : List Output) → length outputs ≡ 1 → Steps kind self.old self.new outputs outputs result }
    {
        match self.ahead {
            Lookahead::Over => self.phase = Phase::Closing,
            _ => self.ahead = Lookahead::Asked,
        }
        Step::Taken
    }

    // Says the sums, and the verdict if both captures were read whole.
    fn close(&mut self, outputs: &mut [Output]) -> Result<Step, NoMemory>
        requires stands { Standing kind self.old }
        requires closing { self.old.phase ≡ Phase.Closing }
        requires width { length outputs.old ≡ 1 }
        ensures { IfOk result (Steps kind self.old self.new outputs.old outputs.new) }
    {
        let verdict = verdict_by(
            self.counts,
            self.after.taken,
            self.before.end,
            self.after.end,
        );
        match put_behind(self.counts, verdict, &mut outputs[0].gathered) {
            Ok(()) => {}
            Err(NoMemory) => return Err(NoMemory),
        }
        self.phase = Phase::Closed;
        Ok(Step::Taken)
    }
}

impl<'a> Stage for Comparison<'a> {
    ghost use Rattle.ioam_run_audit.specs.Comparing.{kind, lawful};

    ghost kind = { kind };

    fn begin(&self, _outputs: &mut [Output]) -> Result<(), NoMemory> {
        Ok(())
    }

    fn step(&mut self, outputs: &mut [Output]) -> Result<Step, NoMemory> {
        match self.phase {
            Phase::Judging => {}
            Phase::Closing => return self.close(outputs),
            Phase::Closed => return Ok(Step::End),
        }
        if let Lookahead::Asked = self.ahead {
            return self.look_ahead();
        }
        if let End::Open = self.before.end {
            return self.judge(outputs);
        }
        Ok(self.pass())
    }

    fn feed(&mut self, input: usize, octets: &[u8]) -> Result<(), NoMemory> {
        if input == 0 {
            self.before.feed(octets)
        } else {
            self.after.feed(octets)
        }
    }

    fn end(&mut self, input: usize) {
        if input == 0 {
            self.before.finish();
        } else {
            self.after.finish();
            self.ahead = Lookahead::Over;
        }
    }

    fn cut(&mut self, _input: usize) {
        self.phase = Phase::Closing;
    }

    ghost lawful = { lawful };
}
