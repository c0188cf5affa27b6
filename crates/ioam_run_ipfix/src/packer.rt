//! EXPORTS, read in pieces while its records are packed into messages.
ghost use Rattle.std.specs.Prelude.{◌≡◌, ◌∷◌, [], IfOk, OnOk, length};
ghost use Rattle.ioam_desk_outputs.specs.Told.{Adds};
ghost use Rattle.ioam_dex.specs.Reader.{Stands};
ghost use Rattle.ioam_ipfix.specs.Written.{messages_text};
ghost use Rattle.ioam_run_answer.specs.Bounds.{answered};
ghost use Rattle.ioam_run_ipfix.specs.Packer.{IsFresh, answer_of, cause_of, does, sound};
ghost use Rattle.ioam_run_ipfix.specs.Packing.{IsPacked};

use crate::packing::Packing;
use ioam_base::memory::NoMemory;
use ioam_desk_outputs::Output;
use ioam_dex::{ExportFault, ExportReader, MOST_RECORDS, Shown};
use ioam_ipfix::put_templates;
use ioam_run_answer::{Outcome, answered};
use ioam_stream::{Converter, Stop, Tail, Took};
use std::alloc::Global;

/// Why no record of EXPORTS is packed any more.
#[derive(Clone, Copy)]
pub(crate) enum Cause {
    /// Nothing stopped it before the end of the input.
    End,
    /// At this offset of the input a record is faulty.
    Bad { at: u64, fault: ExportFault },
    /// Another record follows the most that may be read.
    Limit,
}

/// EXPORTS, and what is packed of its records.
#[derive(Drop)]
pub(crate) struct Packer {
    reader: ExportReader,
    packing: Packing,
    /// Why no record is packed any more.
    pub cause: Cause,
}

impl Packer {
    /// No record was read yet.
    pub(crate) fn new(alloc: Global) -> Result<Packer, NoMemory>
        ensures { IfOk result IsFresh }
    {
        Ok(Packer {
            reader: ExportReader::new(alloc)?,
            packing: Packing::new(alloc)?,
            cause: Cause::End,
        })
    }
}

/// The answer of a run that stopped so.
pub(crate) fn answer(stop: Stop, cause: Cause) -> Outcome
    ensures { result ≡ answered stop (answer_of cause) }
{
    let ended = match cause {
        Cause::End => Outcome::Done,
        Cause::Bad { at, fault } => Outcome::Exports { at, fault },
        Cause::Limit => Outcome::Records {
            limit: MOST_RECORDS,
        },
    };
    answered(stop, ended)
}

// What stopped it at the end of the input, of which the last item may be cut.
fn end_cause(cut: Option<(u64, ExportFault)>) -> Cause
    ensures { result ≡ cause_of cut }
{
    match cut {
        Some((at, fault)) => Cause::Bad { at, fault },
        None => Cause::End,
    }
}

impl Converter for Packer {
    ghost does = { does };

    fn begin(&self, outputs: &mut [Output]) -> Result<(), NoMemory> {
        put_templates(&mut outputs[0].gathered)
    }

    fn take(&mut self, outputs: &mut [Output]) -> Result<Took, NoMemory> {
        match self.reader.show() {
            Shown::Record(octets) => {
                if self.packing.taken() >= u64::from(MOST_RECORDS) {
                    self.cause = Cause::Limit;
                    return Ok(Took::Stop);
                }
                self.packing.add(octets, &mut outputs[0].gathered)?;
                Ok(Took::Item)
            }
            Shown::More => Ok(Took::More),
            Shown::Bad { at, fault } => {
                self.cause = Cause::Bad { at, fault };
                Ok(Took::Stop)
            }
        }
    }

    fn feed(&mut self, octets: &[u8]) -> Result<(), NoMemory> {
        self.reader.feed(octets)
    }

    fn finish(&mut self) {
        self.cause = end_cause(self.reader.finish());
    }

    fn cut(&mut self) {}

    fn close(&mut self, outputs: &mut [Output]) -> Result<Tail, NoMemory> {
        self.packing.put_rest(&mut outputs[0].gathered)?;
        Ok(Tail::End)
    }

    ghost sound = { sound };
}
