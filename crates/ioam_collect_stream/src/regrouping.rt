//! EXPORTS, read in pieces while its records are regrouped, and then what is said of them.
ghost use Rattle.std.specs.Prelude.{◌≡◌, [], IfOk};
ghost use Rattle.ioam_collect.specs.Collected as collected;
ghost use Rattle.ioam_run_answer.specs.Bounds.{answered};
ghost use Rattle.ioam_collect_stream.specs.Gathering.{most_held};
ghost use Rattle.ioam_collect_stream.specs.Regrouping.{IsFresh, answer_of, cause_of};

use crate::ahead::Ahead;
use crate::report::Report;
use crate::step::{Limit, Pause, take_shown};
use ioam_base::memory::NoMemory;
use ioam_collect::Collector;
use ioam_desk_outputs::Output;
use ioam_dex::{ExportFault, ExportReader};
use ioam_run_answer::{Outcome, answered};
use ioam_stream::{Converter, Stop, Tail, Took};
use std::alloc::Global;

/// Why no record of EXPORTS is regrouped any more.
#[derive(Clone, Copy)]
pub enum Cause {
    /// Nothing stopped it before the end of the input.
    End,
    /// At this offset of the input a record is faulty.
    Bad { at: u64, fault: ExportFault },
    /// There is a record past a limit.
    Limit { limit: Limit },
}

/// EXPORTS, the collector of its records, and what is said of it.
#[derive(Drop)]
pub struct Regrouping<'a, T> {
    reader: ExportReader,
    ahead: Ahead,
    // lent until the first part of what is said of it
    collector: Option<&'a mut Collector>,
    report: Option<T>,
    /// Why no record is regrouped any more.
    pub cause: Cause,
}

impl<'a, T: Report<'a>> Regrouping<'a, T> {
    /// No record was read yet.
    pub fn new(alloc: Global, collector: &'a mut Collector) -> Result<Regrouping<'a, T>, NoMemory>
        requires none { collected.Stands collector.old [] }
        requires limit { collector.old.limit ≡ most_held }
        ensures { IfOk result IsFresh }
    {
        Ok(Regrouping {
            reader: ExportReader::new(alloc)?,
            ahead: Ahead::new(alloc)?,
            collector: Some(collector),
            report: None,
            cause: Cause::End,
        })
    }
}

// What stopped it at the end of the input, of which the last record may be cut.
fn end_cause(cut: Option<(u64, ExportFault)>) -> Cause
    ensures { result ≡ cause_of cut }
{
    match cut {
        Some((at, fault)) => Cause::Bad { at, fault },
        None => Cause::End,
    }
}

/// The answer of a run that stopped so.
pub fn answer(stop: Stop, cause: Cause) -> Outcome
    ensures { result ≡ answered stop (answer_of cause) }
{
    let ended = match cause {
        Cause::End => Outcome::Done,
        Cause::Bad { at, fault } => Outcome::Exports { at, fault },
        Cause::Limit { limit } => Outcome::Records {
            limit: limit.records(),
        },
    };
    answered(stop, ended)
}

impl<'a, T: Report<'a>> Converter for Regrouping<'a, T> {
    ghost use Rattle.ioam_collect_stream.specs.Regrouping.{does, sound};

    ghost does = { does T.tells T.rest T.left T.most };

    fn begin(&self, _outputs: &mut [Output]) -> Result<(), NoMemory> {
        Ok(())
    }

    fn take(&mut self, _outputs: &mut [Output]) -> Result<Took, NoMemory> {
        let Some(collector) = &mut self.collector else {
            unreachable!()
        };
        match take_shown(&mut self.reader, &mut self.ahead, collector)? {
            Pause::More => Ok(Took::More),
            Pause::Bad { at, fault } => {
                self.cause = Cause::Bad { at, fault };
                Ok(Took::Stop)
            }
            Pause::Limit { limit } => {
                self.cause = Cause::Limit { limit };
                Ok(Took::Stop)
            }
        }
    }

    fn feed(&mut self, octets: &[u8]) -> Result<(), NoMemory> {
        self.ahead.feed(octets);
        self.reader.feed(octets)
    }

    fn finish(&mut self) {
        self.cause = end_cause(self.reader.finish());
    }

    fn cut(&mut self) {}

    fn close(&mut self, outputs: &mut [Output]) -> Result<Tail, NoMemory> {
        let out = &mut outputs[0].gathered;
        if let Some(collector) = self.collector.take() {
            self.report = Some(T::begin(collector, out)?);
            return Ok(Tail::Rest);
        }
        let Some(report) = &mut self.report else {
            unreachable!()
        };
        report.put(out)
    }

    ghost sound = { sound T.tells T.rest T.left T.most T.none T.of_none };
}
