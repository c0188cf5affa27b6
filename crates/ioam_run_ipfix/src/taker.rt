//! IN, read in pieces while the records of its messages are written.
ghost use Rattle.std.specs.Prelude.{◌≡◌, ◌+◌, IfOk, length};
ghost use Rattle.ioam_run_answer.specs.Bounds.{answered};
ghost use Rattle.ioam_run_ipfix.specs.Taker.{IsFresh, Shows, answer_of, cause_of, does, sound};

use ioam_base::memory::NoMemory;
use ioam_base::text::append;
use ioam_desk_outputs::Output;
use ioam_dex::{ExportRoom, MOST_RECORD, MOST_RECORDS};
use ioam_ipfix::{IpfixFault, IpfixReader, IpfixShown, put_record};
use ioam_run_answer::{Outcome, answered};
use ioam_stream::{Converter, Stop, Tail, Took};
use std::alloc::Global;

/// The most messages that are read: one with templates, and one for each of the most records.
const MOST_MESSAGES: u32 = MOST_RECORDS + 1;

/// Why no record of IN is taken any more.
#[derive(Clone, Copy)]
pub(crate) enum Cause {
    /// Nothing stopped it before the end of the input.
    End,
    /// At this offset of the input a message is faulty.
    Bad { at: u64, fault: IpfixFault },
    /// Another message follows the most that may be read.
    Messages,
    /// Another record follows the most that may be read.
    Records,
}

/// IN, room for a record of it, and how many records were taken.
#[derive(Drop)]
pub(crate) struct Taker {
    reader: IpfixReader,
    room: ExportRoom,
    given: u64,
    /// Why no record is taken any more.
    pub cause: Cause,
}

/// What the reader shows next.
#[derive(Clone, Copy)]
pub(crate) enum Shown {
    /// A record, whose octets were put.
    Record,
    More,
    Bad { at: u64, fault: IpfixFault },
}

impl Taker {
    /// No record was taken yet.
    pub(crate) fn new(alloc: Global) -> Result<Taker, NoMemory>
        ensures { IfOk result IsFresh }
    {
        Ok(Taker {
            reader: IpfixReader::new(alloc)?,
            room: ExportRoom::new(alloc, MOST_RECORD)?,
            given: 0,
            cause: Cause::End,
        })
    }
}

/// The answer of a run that stopped so.
pub(crate) fn answer(stop: Stop, cause: Cause) -> Outcome
    ensures { result ≡ answered stop (answer_of cause) }
{
    let ended = match cause {
        Cause::End => Outcome::Done,
        Cause::Bad { at, fault } => Outcome::Ipfix { at, fault },
        Cause::Messages => Outcome::Packets {
            limit: MOST_MESSAGES,
        },
        Cause::Records => Outcome::Records {
            limit: MOST_RECORDS,
        },
    };
    answered(stop, ended)
}

// Puts the octets of the next record into the room, if there is one.
fn show(reader: &mut IpfixReader, room: &mut ExportRoom) -> Shown
    requires room { room.old.spare + length room.old.octets ≡ 274 }
    ensures shows { Shows reader.old reader.new room.new.octets result }
    ensures room { room.new.spare + length room.new.octets ≡ 274 }
{
    room.clear();
    match reader.show() {
        IpfixShown::Record { id, octets } => {
            put_record(id, octets, room);
            Shown::Record
        }
        IpfixShown::More => Shown::More,
        IpfixShown::Bad { at, fault } => Shown::Bad { at, fault },
    }
}

// What stopped it at the end of the input, of which the last item may be cut.
fn end_cause(cut: Option<(u64, IpfixFault)>) -> Cause
    ensures { result ≡ cause_of cut }
{
    match cut {
        Some((at, fault)) => Cause::Bad { at, fault },
        None => Cause::End,
    }
}

impl Converter for Taker {
    ghost does = { does };

    fn begin(&self, _outputs: &mut [Output]) -> Result<(), NoMemory> {
        Ok(())
    }

    // The count of messages is looked at first: a message comes before its records, also one that is faulty after others
    // without a record.
    fn take(&mut self, outputs: &mut [Output]) -> Result<Took, NoMemory> {
        let shown = show(&mut self.reader, &mut self.room);
        if self.reader.messages() > u64::from(MOST_MESSAGES) {
            self.cause = Cause::Messages;
            return Ok(Took::Stop);
        }
        match shown {
            Shown::Record => {
                if self.given >= u64::from(MOST_RECORDS) {
                    self.cause = Cause::Records;
                    return Ok(Took::Stop);
                }
                append(&mut outputs[0].gathered, self.room.octets())?;
                self.given += 1;
                Ok(Took::Item)
            }
            Shown::More => Ok(Took::More),
            Shown::Bad { at, fault } => {
                self.cause = Cause::Bad { at, fault };
                Ok(Took::Stop)
            }
        }
    }

    fn feed(&mut self, octets: &[u8]) -> Result<(), NoMemory> {
        self.reader.feed(octets)
    }

    fn finish(&mut self) {
        self.cause = end_cause(self.reader.finish());
    }

    fn cut(&mut self) {}

    fn close(&mut self, _outputs: &mut [Output]) -> Result<Tail, NoMemory> {
        Ok(Tail::End)
    }

    ghost sound = { sound };
}
