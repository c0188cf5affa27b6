//! A reader of captures of either form that is fed in pieces.
ghost use Rattle.std.specs.Prelude.{◌≡◌, ◌+◌, ◌≤◌, ◌<◌, ◌^◌, ◌++◌, [], List, ℕ, length, IfOk, OnErr, OnOk};
ghost use Rattle.std.specs.Borrow.{sem};
ghost use Rattle.ioam_pcap.specs.declared.capture.CapFault.TheVariants.{Short};
ghost use Rattle.ioam_capture.specs.Reading.{Front};
ghost use Rattle.ioam_capture.specs.Reader.{IsDue};

use crate::blocks::{due_packet, next_packet};
use crate::classic::{due_classic, next_classic};
use crate::form::{Form, begin};
use crate::turns::Due;
use ioam_base::memory::NoMemory;
use ioam_pcap::{CapFault, Link, Packet};
use std::alloc::Global;
use std::marker::Model;

/// What a reader shows next of its capture.
#[derive(Clone, Copy, Debug)]
pub enum Step<'a> {
    /// A record was read; its octets begin at this layer.
    Packet { link: Link, packet: Packet<'a> },
    /// More octets are needed, or the capture's end.
    More,
    /// At this place, in octets from the capture's first, it is faulty.
    Bad { at: u64, fault: CapFault },
    /// An interface block of a pcapng capture can't be kept for want of memory; nothing of it is
    /// lost.
    NoMemory,
}

/// Reads a capture of the classic form or of the form pcapng out of any pieces of it: which of them
/// its first four octets say.
///
/// Where `next` answers `More` it holds back less than the greatest record of a classic capture, of
/// 262,160 octets, or the greatest block of a pcapng capture, of 16,777,216. It keeps what it holds back,
/// and until it is fed again the octets that it took since it was fed last.
#[derive(Drop)]
pub struct Reader {
    form: Form,
}

impl Model for Reader {
    ghost use Rattle.ioam_capture.specs.Inside.{seen, IsFew};
    ghost use Rattle.ioam_capture.specs.Reading.{Reading};

    ghost Value = { Reading };

    ghost view = { λ r. seen r.form };

    ghost invariant = { λ r. IsFew r.form };
}

impl Reader {
    ghost use Rattle.ioam_pcap.specs.Ending.{ending_of};
    ghost use Rattle.ioam_pcap.specs.Entries.{Taken};
    ghost use Rattle.ioam_capture.specs.Reads.{Reads, ReadsOnly};
    ghost use Rattle.ioam_capture.specs.Reading.{HasBlocks, HoldsFew, fed, fresh, held, most_held, pending};
    ghost use Rattle.ioam_capture.specs.Reader.{IsDue, IsFace, IsFed, KeepsFault, KeepsOn, RestsSo, SaysFault, Stands, Waits};

    /// A reader that was fed nothing.
    pub fn new(alloc: Global) -> Result<Reader, NoMemory>
        ensures exact { IfOk result (λ reader. reader ≡ fresh) }
        ensures stands { IfOk result (λ reader. Stands reader [] []) }
    {
        let held = Vec::with_capacity(alloc, 4)?;
        Ok(Reader {
            form: Form::Front { alloc, held },
        })
    }

    /// How many octets were fed in all.
    pub fn fed(&self) -> u64
        ensures { result ≡ fed self.now }
    {
        match &self.form {
            Form::Front { held, .. } => held.len() as u64,
            Form::Classic(reader) => reader.fed(),
            Form::Ng(reader) => reader.fed(),
        }
    }

    /// Feeds the next octets of the capture, of which there are below 2^63 in all.
    pub fn feed(&mut self, piece: &[u8]) -> Result<(), NoMemory>
        requires { fed self.old + length piece.now < 2 ^ 63 }
        ensures ok { OnOk result (IsFed self.old piece.now self.new) }
        ensures few { OnOk result (HoldsFew self.old → length (pending self.new) < most_held self.new + length piece.now) }
        ensures stands { OnOk result ((octets : List ℕ) (taken : List Taken) → Stands self.old octets taken
            → Stands self.new (octets ++ piece.now) taken) }
        // A fault of what is due stays, whatever is fed.
        ensures faulty { OnOk result (KeepsFault self.old self.new) }
        ensures err { OnErr result (self.new ≡ self.old) }
        // It keeps what was pending and the piece: none of the octets that it gave or passed.
        ensures held { OnOk result (held self.new ≡ length (pending self.old) + length piece.now) }
    {
        match &mut self.form {
            Form::Front { alloc, held } => {
                if held.len() + piece.len() < 4 {
                    held.extend_from_slice(piece)?;
                } else {
                    let form = begin(*alloc, held, piece)?;
                    self.form = form;
                }
                Ok(())
            }
            Form::Classic(reader) => reader.feed(piece),
            Form::Ng(reader) => reader.feed(piece),
        }
    }

    /// The next record of the capture; what stands before it (a head, blocks without a packet) is
    /// passed. After `Bad` every call answers the same, also where more is fed in between.
    pub fn next(&mut self) -> Step<'_>
        ensures* rests { sem 𝓛 (RestsSo self.entry result) }
        // A capture of the classic form wants no memory.
        ensures memory { result ≡ Step.NoMemory → HasBlocks self.old }
        ensures faulty { SaysFault self.old result }
    {
        match &mut self.form {
            Form::Front { .. } => Step::More,
            Form::Classic(reader) => next_classic(reader),
            Form::Ng(reader) => next_packet(reader),
        }
    }

    /// What is due of the capture, by the octets that were fed; `ended` says that these are all of
    /// it. What stands before the next record is passed. Where that can't be kept for want of memory
    /// nothing of it is lost.
    pub fn due(&mut self, ended: bool) -> Result<Due, NoMemory>
        ensures due { IfOk result (IsDue self.old ended) }
        ensures stands { KeepsOn self.old self.new }
        ensures faulty { KeepsFault self.old self.new }
        ensures few { IfOk result (λ due. due ≡ Due.More → HoldsFew self.new) }
        ensures fed { fed self.new ≡ fed self.old }
        ensures kept { length (pending self.new) ≤ length (pending self.old) }
        ensures held { held self.new ≡ held self.old }
        // Memory is wanted only for an interface block of a capture in the form pcapng, which is due then.
        ensures memory { OnErr result (IsFace self.new) }
    {
        match &mut self.form {
            Form::Front { held, .. } => Ok(due_front(held, ended)),
            Form::Classic(reader) => Ok(due_classic(reader, ended)),
            Form::Ng(reader) => due_packet(reader, ended),
        }
    }

    /// What an ended capture leaves over, once `next` answered `More`: nothing where its head was
    /// read and its last record or block is whole, else the place of what is cut, and how many
    /// octets of it are there.
    pub fn finish(&self) -> Option<(u64, CapFault)>
        requires { Waits self.now }
        ensures reads { (octets : List ℕ) (taken : List Taken) → Stands self.now octets taken
            → Reads octets taken (ending_of result) }
        // Nothing else is read of the octets, in whatever pieces they were fed.
        ensures only { (octets : List ℕ) (taken : List Taken) → Stands self.now octets taken
            → ReadsOnly octets taken (ending_of result) }
    {
        self.left_over()
    }

    // What an ended capture leaves over, by the rules alone.
    fn left_over(&self) -> Option<(u64, CapFault)>
        requires { Waits self.now }
        ensures { (octets : List ℕ) (taken : List Taken) → Stands self.now octets taken
            → Reads octets taken (ending_of result) }
    {
        match &self.form {
            Form::Front { held, .. } => Some((0, short(held))),
            Form::Classic(reader) => reader.finish(),
            Form::Ng(reader) => reader.finish(),
        }
    }
}

// The fault of a capture of fewer than four octets.
fn short(held: &[u8]) -> CapFault
    requires { length held.now < 4 }
    ensures { result ≡ Short (length held.now) }
{
    CapFault::Short {
        have: held.len() as u32,
    }
}

// What is due of a capture of which fewer than four octets were fed.
fn due_front(held: &[u8], ended: bool) -> Due
    requires { length held.now < 4 }
    ensures { IsDue (Front held.now) ended result }
{
    if !ended {
        return Due::More;
    }
    Due::Bad {
        at: 0,
        fault: short(held),
    }
}
