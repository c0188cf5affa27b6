//! One of the two captures, of which records are taken one by one.
ghost use Rattle.std.specs.Prelude.{◌≡◌, ◌+◌, ◌≤◌, ◌<◌, ◌^◌, IfOk, OnOk, length, true};
ghost use Rattle.ioam_capture.specs.Reader.{Waits};
ghost use Rattle.ioam_capture.specs.Reading.{fed};
ghost use Rattle.ioam_pcap.specs.Ending.{ending_of};
ghost use Rattle.ioam_run_audit.specs.Cursors.{HasEnded, IsFed, IsFresh, NextOf, Steps, end_of};

use crate::held::hold;
use ioam_base::memory::NoMemory;
use ioam_capture::{Reader, Step};
use ioam_node::Reason;
use ioam_pcap::CapFault;
use ioam_run_stream::MOST_PACKETS;
use std::alloc::Global;

/// Why no record is taken of a capture any more.
#[derive(Clone, Copy)]
pub(crate) enum End {
    /// There may be more.
    Open,
    /// It has ended.
    Whole,
    /// At this offset, in octets, it is faulty.
    Bad { at: u64, fault: CapFault },
    /// As many records were taken as may be, and there is another.
    Limit,
}

/// What comes next of a capture.
#[derive(Clone, Copy)]
pub(crate) enum Next {
    /// A record was taken: its packet is held, or this is why it has none.
    Record(Option<Reason>),
    /// The octets that were handed out show no more.
    More,
    /// No record is taken any more, and why.
    Over(End),
}

/// One of the two captures, of which records are taken one by one.
#[derive(Drop)]
pub(crate) struct Cursor {
    /// The octets that were handed out and not yet taken.
    pub(crate) reader: Reader,
    /// How many records were taken.
    pub(crate) taken: u32,
    /// The packet of the last one that had one.
    pub(crate) packet: Vec<u8>,
    /// Why no record is taken any more.
    pub(crate) end: End,
    /// Whether the input has ended.
    pub(crate) ended: bool,
}

// Takes the next record that the octets fed so far show.
fn step(reader: &mut Reader, taken: &mut u32, held: &mut Vec<u8>) -> Result<Next, NoMemory>
    requires few { taken.old ≤ 16777216 }
    ensures stepped { IfOk result (Steps reader.old reader.new taken.old taken.new held.new.items) }
    ensures fed { fed reader.new ≡ fed reader.old }
{
    match reader.next() {
        Step::Packet { link, packet } => {
            if *taken >= MOST_PACKETS {
                return Ok(Next::Over(End::Limit));
            }
            let why = hold(link, &packet, held)?;
            *taken += 1;
            Ok(Next::Record(why))
        }
        Step::More => Ok(Next::More),
        Step::Bad { at, fault } => Ok(Next::Over(End::Bad { at, fault })),
        Step::NoMemory => Err(NoMemory),
    }
}

// How a capture ended of which this is left over.
fn end_of(cut: Option<(u64, CapFault)>) -> End
    ensures { result ≡ end_of (ending_of cut) }
{
    match cut {
        Some((at, fault)) => End::Bad { at, fault },
        None => End::Whole,
    }
}

impl Cursor {
    /// Nothing was taken yet.
    pub(crate) fn new(alloc: Global) -> Result<Cursor, NoMemory>
        ensures { IfOk result IsFresh }
    {
        Ok(Cursor {
            reader: Reader::new(alloc)?,
            taken: 0,
            packet: Vec::new(alloc),
            end: End::Open,
            ended: false,
        })
    }

    /// Takes the next record that was handed out whole; its packet is held in place of the one before. No more than
    /// 16,777,216 records are taken.
    pub(crate) fn next(&mut self) -> Result<Next, NoMemory>
        requires few { self.old.taken ≤ 16777216 }
        ensures next { IfOk result (NextOf self.old self.new) }
        ensures fed { OnOk result (fed self.new.reader ≡ fed self.old.reader) }
        ensures ended { OnOk result (self.new.ended ≡ self.old.ended) }
    {
        let next = match step(&mut self.reader, &mut self.taken, &mut self.packet) {
            Ok(next) => next,
            Err(NoMemory) => return Err(NoMemory),
        };
        if let Next::Over(end) = next {
            self.end = end;
        }
        Ok(next)
    }

    /// Takes a piece of the capture.
    pub(crate) fn feed(&mut self, octets: &[u8]) -> Result<(), NoMemory>
        requires room { fed self.old.reader + length octets.now < 2 ^ 63 }
        ensures { OnOk result (IsFed self.old self.new octets.now) }
    {
        self.reader.feed(octets)
    }

    /// Takes note that the capture has ended.
    pub(crate) fn finish(&mut self)
        requires waits { Waits self.old.reader }
        ensures { HasEnded self.old self.new }
    {
        self.end = end_of(self.reader.finish());
        self.ended = true;
    }
}
