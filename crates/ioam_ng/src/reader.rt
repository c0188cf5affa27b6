//! A reader of captures in the form pcapng that is fed in pieces.
ghost use Rattle.std.specs.Prelude.{◌≡◌, ◌+◌, ◌≤◌, ◌<◌, ◌^◌, ◌++◌, [], List, ℕ, length, drop, IfOk, IsSome, MatchOption, OnErr, OnOk};
ghost use Rattle.std.specs.Borrow.{sem};

use crate::block::{Block, BlockStep, Content, block_step};
use crate::codes::PACKET_FRONT;
use crate::face::Face;
use ioam_base::fed::Fed;
use ioam_base::memory::NoMemory;
use ioam_pcap::{CapFault, Link, Order, Packet};
use std::alloc::Global;
use std::marker::Model;

/// What a reader shows next of its capture.
#[derive(Clone, Copy, Debug)]
pub enum NgStep<'a> {
    /// A packet was read; this is the layer that the packets of its interface begin at.
    Packet { link: Link, packet: Packet<'a> },
    /// More octets are needed, or the capture's end.
    More,
    /// At this place, in octets from the capture's first, a block is faulty.
    Bad { at: u64, fault: CapFault },
    /// An interface can't be kept for want of memory; its block is not yet taken.
    NoMemory,
}

/// What is due behind the blocks without a packet: enough to choose among several captures.
#[derive(Clone, Copy, Debug, PartialEq, Eq)]
pub enum NgLook {
    /// A packet with this time, in nanoseconds.
    Packet { time: u64 },
    /// More octets are needed, or the capture's end.
    More,
    /// At this place, in octets from the capture's first, a block is faulty.
    Bad { at: u64, fault: CapFault },
}

/// What stands behind the blocks without a packet, or one of these that was passed.
#[derive(Clone, Copy)]
enum Found {
    Packet(Block),
    Passed,
    More,
    Bad(CapFault),
    NoMemory,
}

/// Reads a capture in the form pcapng out of any pieces of it.
///
/// It keeps the octets that were fed and not yet taken, and the interfaces of the section. Where
/// `next` answers `More` these octets are fewer than the 16,777,216 of the largest block. Of those that
/// it took it keeps at most as many more, twice the largest block and 32,768.
#[derive(Drop)]
pub struct NgReader {
    octets: Fed,
    // blocks that were taken
    count: u32,
    order: Option<Order>,
    faces: Vec<Face>,
}

impl Model for NgReader {
    ghost use Rattle.std.specs.Prelude.{length};
    ghost use Rattle.ioam_ng.specs.Reading.{Reading};

    ghost Value = { Reading };

    ghost view = { λ r. record { known = record { count = r.count; order = r.order; faces = r.faces.items }; start = r.octets.start; pending = r.octets.pending; given = length r.octets.given } };
}

impl NgReader {
    ghost use Rattle.ioam_pcap.specs.declared.capture.CapFault.TheVariants.{Short};
    ghost use Rattle.ioam_pcap.specs.Ending.{ending_of};
    ghost use Rattle.ioam_pcap.specs.Entries.{Taken};
    ghost use Rattle.ioam_ng.specs.BlockSteps.{TellsBlock};
    ghost use Rattle.ioam_ng.specs.Reading.{fresh, fed, held};
    ghost use Rattle.ioam_ng.specs.Reads.{Reads, ReadsOnly};
    ghost use Rattle.ioam_ng.specs.Reader.{Stands, Waits, KeepsFault, StaysFaulty, Skips, IsDue, IsFace, HoldsFace, Shows, Steps, RestsSo, IsMoved};

    /// A reader that was fed nothing.
    pub fn new(alloc: Global) -> Result<NgReader, NoMemory>
        ensures exact { IfOk result (λ reader. reader ≡ fresh) }
        ensures stands { IfOk result (λ reader. Stands reader [] []) }
    {
        Ok(NgReader {
            octets: Fed::new(alloc)?,
            count: 0,
            order: None,
            faces: Vec::new(alloc),
        })
    }

    /// How many octets were fed in all.
    pub fn fed(&self) -> u64
        ensures { result ≡ fed self.now }
    {
        self.octets.fed()
    }

    /// Feeds the next octets of the capture, of which there are below 2^63 in all. It keeps none of the
    /// octets that it gave or passed.
    pub fn feed(&mut self, piece: &[u8]) -> Result<(), NoMemory>
        requires { fed self.old + length piece.now < 2 ^ 63 }
        ensures ok { OnOk result (self.new
            ≡ record self.old { pending = self.old.pending ++ piece.now; given = 0 }) }
        ensures stands { OnOk result ((octets : List ℕ) (taken : List Taken)
            → Stands self.old octets taken
            → Stands self.new (octets ++ piece.now) taken) }
        // A fault of what is due stays, whatever is fed.
        ensures faulty { OnOk result (KeepsFault self.old self.new) }
        ensures err { OnErr result (self.new ≡ self.old) }
        // It keeps what was pending and the piece.
        ensures held { OnOk result (held self.new ≡ length self.old.pending + length piece.now) }
    {
        self.octets.feed(piece)
    }

    // What the octets show of the block that is due.
    fn look(&self) -> BlockStep
        ensures { TellsBlock self.now.known self.now.pending result }
    {
        block_step(self.count, self.order, &self.faces, self.octets.pending())
    }

    // Takes a block.
    fn keep(&mut self, block: Block) -> Result<(), NoMemory>
        requires fits { block.size ≤ length self.old.pending }
        requires count { self.old.known.count < 33554432 }
        ensures ok { OnOk result (IsMoved self.old block self.new) }
        ensures held { OnOk result (held self.new ≡ held self.old) }
        ensures err { OnErr result ((self.new ≡ self.old) × HoldsFace block.content) }
    {
        match block.content {
            Content::Section => self.faces.clear(),
            Content::Face(face) => self.faces.push(face)?,
            Content::Packet(_) | Content::Other => {}
        }
        self.order = Some(block.order);
        self.count += 1;
        self.octets.take(block.size as usize);
        Ok(())
    }

    // Looks at the block that is due, and passes it where it has no packet.
    fn step(&mut self) -> Found
        ensures { Steps self.old self.new result }
    {
        match self.look() {
            BlockStep::Cut => Found::More,
            BlockStep::Bad(fault) => Found::Bad(fault),
            BlockStep::Whole(block) => match block.content {
                Content::Packet(_) => Found::Packet(block),
                Content::Section | Content::Face(_) | Content::Other => match self.keep(block) {
                    Ok(()) => Found::Passed,
                    Err(NoMemory) => Found::NoMemory,
                },
            },
        }
    }

    // Passes the blocks without a packet.
    fn advance(&mut self) -> Found
        ensures skips { Skips self.old self.new }
        ensures due { IsDue self.new result }
    {
        'passing: loop {
            match self.step() {
                Found::Passed => {}
                found => return found,
            }
        }
    }

    /// Passes the blocks without a packet that are due, and tells what is due then. Without memory
    /// an interface block is due that could not be kept.
    pub fn pass(&mut self) -> Result<NgLook, NoMemory>
        ensures stands { (octets : List ℕ) (taken : List Taken)
            → Stands self.old octets taken
            → Stands self.new octets taken }
        ensures fed { fed self.new ≡ fed self.old }
        ensures kept { length self.new.pending ≤ length self.old.pending }
        ensures held { held self.new ≡ held self.old }
        // Nothing is passed where what is due has a fault.
        ensures faulty { StaysFaulty self.old self.new }
        ensures shows { IfOk result (λ look. Shows self.new look) }
        ensures err { OnErr result (IsFace self.new) }
    {
        match self.advance() {
            Found::Packet(block) => match block.content {
                Content::Packet(head) => Ok(NgLook::Packet { time: head.time }),
                Content::Section | Content::Face(_) | Content::Other => Ok(NgLook::More),
            },
            Found::Passed | Found::More => Ok(NgLook::More),
            Found::Bad(fault) => Ok(NgLook::Bad {
                at: self.octets.start(),
                fault,
            }),
            Found::NoMemory => Err(NoMemory),
        }
    }

    /// The next packet of the capture; the blocks without one that stand before it are passed, and
    /// nothing behind its block is. After `Bad` every call answers the same.
    pub fn next(&mut self) -> NgStep<'_>
        ensures* { sem 𝓛 (RestsSo self.entry result) }
    {
        match self.advance() {
            Found::Packet(block) => match block.content {
                Content::Packet(head) => {
                    let size = block.size as usize;
                    self.order = Some(block.order);
                    self.count += 1;
                    self.octets.take(size);
                    let octets = self.octets.taken(size - PACKET_FRONT);
                    NgStep::Packet {
                        link: head.link,
                        packet: Packet {
                            time: head.time,
                            original: head.original,
                            octets: &octets[..head.captured as usize],
                        },
                    }
                }
                Content::Section | Content::Face(_) | Content::Other => NgStep::More,
            },
            Found::Passed => NgStep::More,
            Found::More => NgStep::More,
            Found::Bad(fault) => NgStep::Bad {
                at: self.octets.start(),
                fault,
            },
            Found::NoMemory => NgStep::NoMemory,
        }
    }

    /// What an ended capture leaves over, once `next` answered `More`: nothing where a section
    /// block was read and the last block is whole, else the place of the block that is cut, and how
    /// many octets of it are there.
    pub fn finish(&self) -> Option<(u64, CapFault)>
        requires { Waits self.now }
        ensures left { MatchOption result
            (IsSome self.now.known.order × (self.now.pending ≡ []))
            (λ cut. (cut ≡ (self.now.start, Short (length self.now.pending)))
            × (IsSome self.now.known.order → 0 < length self.now.pending)) }
        ensures reads { (octets : List ℕ) (taken : List Taken) → Stands self.now octets taken
            → Reads octets taken (ending_of result) }
        // Nothing else is read of the octets, in whatever pieces they were fed.
        ensures only { (octets : List ℕ) (taken : List Taken) → Stands self.now octets taken
            → ReadsOnly octets taken (ending_of result) }
    {
        self.left_over()
    }

    // What an ended capture leaves over, by the rules alone.
    fn left_over(&self) -> Option<(u64, CapFault)>
        requires { Waits self.now }
        ensures left { MatchOption result
            (IsSome self.now.known.order × (self.now.pending ≡ []))
            (λ cut. (cut ≡ (self.now.start, Short (length self.now.pending)))
            × (IsSome self.now.known.order → 0 < length self.now.pending)) }
        ensures reads { (octets : List ℕ) (taken : List Taken) → Stands self.now octets taken
            → Reads octets taken (ending_of result) }
    {
        let have = self.octets.pending().len();
        if self.order.is_some() && have == 0 {
            return None;
        }
        Some((self.octets.start(), CapFault::Short { have: have as u32 }))
    }
}
