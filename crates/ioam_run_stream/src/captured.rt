//! A capture whose records are gathered, as what the machine converts.
ghost use Rattle.std.specs.Prelude.{◌≡◌, ◌≤◌, IfOk, OnOk, length};
ghost use Rattle.ioam_capture.specs.Reading.{fed};
ghost use Rattle.ioam_desk_outputs.specs.Told.{GathersFew};
ghost use Rattle.ioam_pcap.specs.Ending.{ending_of};
ghost use Rattle.ioam_run_stream.specs.Captured.{IsFresh, Nexts, end_of};
ghost use Rattle.ioam_run_stream.specs.Promise.{most_packets};

use crate::gather::Gather;
use ioam_base::memory::NoMemory;
use ioam_capture::{Reader, Step};
use ioam_desk_outputs::Output;
use ioam_pcap::CapFault;
use ioam_stream::{Converter, Tail, Took};
use std::alloc::Global;

/// The most records that are taken of a capture by a command over it alone.
pub const MOST_PACKETS: u32 = 1 << 24;

/// Why no record is taken any more.
#[derive(Clone, Copy)]
pub(crate) enum End {
    // There may be more.
    Open,
    // The capture was read to its end, and is whole.
    Whole,
    // At this offset the capture is faulty.
    Bad { at: u64, fault: CapFault },
    // There are more records than may be taken.
    Limit,
}

/// A capture, what is gathered of its records, no more than `limit`, and why no record is taken any more.
#[derive(Drop)]
pub(crate) struct Captured<G> {
    pub(crate) reader: Reader,
    pub(crate) gathered: G,
    pub(crate) limit: u32,
    pub(crate) end: End,
}

// What became of the next record.
#[derive(Clone, Copy)]
enum Next {
    Record,
    More,
    Bad { at: u64, fault: CapFault },
    Limit,
}

// Takes the next record that the octets fed so far show, if no more than `limit` were taken.
fn take_next<G: Gather>(
    reader: &mut Reader,
    gathered: &mut G,
    outputs: &mut [Output],
    limit: u32,
) -> Result<Next, NoMemory>
    requires few { (G.count gathered.old ≤ limit) × (limit ≤ most_packets) }
    requires width { length outputs.old ≡ G.width }
    requires waiting { GathersFew outputs.old }
    ensures next { IfOk result (Nexts G.gathers G.count limit reader.old reader.new gathered.old gathered.new outputs.old outputs.new) }
    ensures fed { fed reader.new ≡ fed reader.old }
{
    match reader.next() {
        Step::Packet { link, packet } => {
            if gathered.taken() >= u64::from(limit) {
                return Ok(Next::Limit);
            }
            gathered.take(link, &packet, outputs)?;
            Ok(Next::Record)
        }
        Step::More => Ok(Next::More),
        Step::Bad { at, fault } => Ok(Next::Bad { at, fault }),
        Step::NoMemory => Err(NoMemory),
    }
}

// Why no record is taken after the end of a capture, of which the last record may be cut.
fn end_of(cut: Option<(u64, CapFault)>) -> End
    ensures { result ≡ end_of (ending_of cut) }
{
    match cut {
        Some((at, fault)) => End::Bad { at, fault },
        None => End::Whole,
    }
}

impl<G: Gather> Captured<G> {
    /// Nothing was taken yet.
    pub(crate) fn new(alloc: Global, gathered: G, limit: u32) -> Result<Captured<G>, NoMemory>
        requires begins { G.fresh gathered }
        requires limit { limit ≤ most_packets }
        ensures fresh { IfOk result (λ captured. IsFresh G.gathers G.count G.width G.fresh G.texts captured) }
        ensures gathered { IfOk result (λ captured. captured.gathered ≡ gathered) }
        ensures limit { IfOk result (λ captured. captured.limit ≡ limit) }
    {
        let reader = match Reader::new(alloc) {
            Ok(reader) => reader,
            Err(NoMemory) => return Err(NoMemory),
        };
        Ok(Captured {
            reader,
            gathered,
            limit,
            end: End::Open,
        })
    }
}

impl<G: Gather> Converter for Captured<G> {
    ghost use Rattle.ioam_run_stream.specs.Captured.{does};
    ghost use Rattle.ioam_run_stream.specs.CapturedLaws.{sound};

    ghost does = { does G.gathers G.count G.width G.fresh G.texts };

    fn begin(&self, outputs: &mut [Output]) -> Result<(), NoMemory> {
        self.gathered.begin(outputs)
    }

    fn take(&mut self, outputs: &mut [Output]) -> Result<Took, NoMemory> {
        match take_next(&mut self.reader, &mut self.gathered, outputs, self.limit) {
            Ok(Next::Record) => Ok(Took::Item),
            Ok(Next::More) => Ok(Took::More),
            Ok(Next::Bad { at, fault }) => {
                self.end = End::Bad { at, fault };
                Ok(Took::Stop)
            }
            Ok(Next::Limit) => {
                self.end = End::Limit;
                Ok(Took::Stop)
            }
            Err(NoMemory) => Err(NoMemory),
        }
    }

    fn feed(&mut self, octets: &[u8]) -> Result<(), NoMemory> {
        self.reader.feed(octets)
    }

    fn finish(&mut self) {
        self.end = end_of(self.reader.finish());
    }

    fn cut(&mut self) {}

    fn close(&mut self, outputs: &mut [Output]) -> Result<Tail, NoMemory> {
        self.gathered.put_sums(outputs)?;
        Ok(Tail::End)
    }

    ghost sound = { sound G.gathers G.count G.width G.fresh G.texts G.heads G.sums G.begins G.ends G.heads_sized G.sized };
}
