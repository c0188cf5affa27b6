//! A stage over one input, whose items are taken one by one, and whose tail is said in parts.
ghost use Rattle.std.specs.Prelude.{◌≡◌, ◌<◌, ◌≤◌, IfOk, OnOk, length};
ghost use Rattle.ioam_desk_outputs.specs.Told.{GathersFew, GathersNothing};
ghost use Rattle.ioam_stream.specs.Conversion.{Closes, Converts, Finishes, IsClosing, IsFresh, Opens, Refills, Sound, StandsSo, StopsSo, Takes};
ghost use Rattle.ioam_stream.specs.Stage.{Ended, Handed};

use crate::stage::{Stage, Step};
use ioam_base::memory::NoMemory;
use ioam_desk_outputs::Output;

/// What became of the next item.
#[derive(Clone, Copy)]
pub enum Took {
    /// It was taken.
    Item,
    /// It isn't whole yet.
    More,
    /// Whatever follows, none is taken any more. Why, the converter knows.
    Stop,
}

/// What is left of the tail.
#[derive(Clone, Copy)]
pub enum Tail {
    /// More is to be said.
    Rest,
    /// All is said.
    End,
}

/// A reader of one input, and what is made of its items.
pub trait Converter: Drop {
    // what the converter stands for, and which texts it says
    ghost does: { Converts Self };

    /// Says what comes before the first item.
    fn begin(&self, outputs: &mut [Output]) -> Result<(), NoMemory>
        requires width { length outputs.old ≡ does.width }
        requires nothing { GathersNothing outputs.old }
        ensures opens { OnOk result (Opens does self.now outputs.old outputs.new) }
        ensures few { OnOk result (GathersFew outputs.new) };

    /// Takes the next item, and says what is made of it.
    fn take(&mut self, outputs: &mut [Output]) -> Result<Took, NoMemory>
        requires stands { StandsSo does self.old }
        requires width { length outputs.old ≡ does.width }
        requires few { GathersFew outputs.old }
        ensures takes { IfOk result (Takes does self.old self.new outputs.old outputs.new) }
        ensures room { OnOk result (does.room self.new ≡ does.room self.old) };

    /// Takes a piece of the input.
    fn feed(&mut self, octets: &[u8]) -> Result<(), NoMemory>
        requires stands { StandsSo does self.old }
        requires waits { does.waits self.old }
        requires some { 0 < length octets.now }
        requires few { length octets.now ≤ 65536 }
        ensures { OnOk result (Refills does octets.now self.old self.new) };

    /// Takes note that the input has ended.
    fn finish(&mut self)
        requires stands { StandsSo does self.old }
        requires waits { does.waits self.old }
        ensures { Finishes does Ended self.old self.new };

    /// Takes note that no more can be had of the input.
    fn cut(&mut self)
        requires stands { StandsSo does self.old }
        requires waits { does.waits self.old }
        ensures { Finishes does Handed self.old self.new };

    /// Says what comes after the last item, or its next part. Before each call less than a piece waits to be written.
    fn close(&mut self, outputs: &mut [Output]) -> Result<Tail, NoMemory>
        requires stops { StopsSo does self.old }
        requires width { length outputs.old ≡ does.width }
        requires few { GathersFew outputs.old }
        ensures { IfOk result (Closes does self.old self.new outputs.old outputs.new) };

    ghost sound: { Sound does };
}

/// What is still to be done.
#[derive(Clone, Copy)]
pub(crate) enum Phase {
    Taking,
    Closing,
    Closed,
}

/// A converter as a stage.
#[derive(Drop)]
pub struct Conversion<C> {
    pub converter: C,
    phase: Phase,
    ended: bool,
}

impl<C: Converter> Conversion<C> {
    /// Nothing was taken yet.
    pub fn new(converter: C) -> Conversion<C>
        requires { C.does.fresh converter }
        ensures fresh { IsFresh C.does result }
        ensures same { result.converter ≡ converter }
    {
        Conversion {
            converter,
            phase: Phase::Taking,
            ended: false,
        }
    }

    // Says what comes after the last item, or its next part.
    fn close(&mut self, outputs: &mut [Output]) -> Result<Step, NoMemory>
        requires stops { StopsSo C.does self.old.converter }
        requires width { length outputs.old ≡ C.does.width }
        requires few { GathersFew outputs.old }
        ensures { IfOk result (IsClosing C.does self.old self.new outputs.old outputs.new) }
    {
        self.phase = match self.converter.close(outputs)? {
            Tail::Rest => Phase::Closing,
            Tail::End => Phase::Closed,
        };
        Ok(Step::Taken)
    }
}

impl<C: Converter> Stage for Conversion<C> {
    ghost use Rattle.ioam_stream.specs.Conversion.{kind};
    ghost use Rattle.ioam_stream.specs.ConversionLaws.{lawful};

    ghost kind = { kind C.does };

    fn begin(&self, outputs: &mut [Output]) -> Result<(), NoMemory> {
        self.converter.begin(outputs)
    }

    fn step(&mut self, outputs: &mut [Output]) -> Result<Step, NoMemory> {
        match self.phase {
            Phase::Taking => match self.converter.take(outputs)? {
                Took::Item => Ok(Step::Taken),
                Took::More => Ok(Step::More { input: 0 }),
                Took::Stop => self.close(outputs),
            },
            Phase::Closing => self.close(outputs),
            Phase::Closed => Ok(Step::End),
        }
    }

    fn feed(&mut self, _input: usize, octets: &[u8]) -> Result<(), NoMemory> {
        self.converter.feed(octets)
    }

    fn end(&mut self, _input: usize) {
        self.converter.finish();
        self.ended = true;
        self.phase = Phase::Closing;
    }

    fn cut(&mut self, _input: usize) {
        self.converter.cut();
        self.phase = Phase::Closing;
    }

    ghost lawful = { lawful C.does C.sound };
}
