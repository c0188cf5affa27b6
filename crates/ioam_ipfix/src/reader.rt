//! Messages, read out of any pieces of them.

ghost use Rattle.std.specs.Prelude.{◌≡◌, ◌+◌, ◌<◌, ◌^◌, ◌++◌, [], List, ℕ, length, IfOk, MatchOption, OnErr, OnOk};
ghost use Rattle.std.specs.Borrow.{sem};

use crate::data::read_data;
use crate::fault::IpfixFault;
use crate::message::{HeadStep, head_step, take_message};
use crate::place::Place;
use ioam_base::fed::Fed;
use ioam_base::memory::NoMemory;
use ioam_dex::Export;
use std::alloc::Global;
use std::marker::Model;

/// Places that it has room for: a message, of 65,535 octets at most, has fewer records, of 8 at
/// least.
const PLACES: usize = 8_192;

/// What a reader shows next of its input.
#[derive(Clone, Copy, Debug)]
pub enum IpfixStep<'a> {
    /// A record was read, in a message that is without a fault.
    Export(Export<'a>),
    /// More octets are needed, or the input's end.
    More,
    /// At this place of the input begins a message that is faulty.
    Bad { at: u64, fault: IpfixFault },
}

/// What a reader shows next of its input, where a record is shown by the octets of its message.
#[derive(Clone, Copy, Debug)]
pub enum IpfixShown<'a> {
    /// These octets begin with a data record of this template, in a message that is without a fault.
    Record { id: u16, octets: &'a [u8] },
    /// More octets are needed, or the input's end.
    More,
    /// At this place of the input begins a message that is faulty.
    Bad { at: u64, fault: IpfixFault },
}

// What stands behind the messages whose records were all given, or one of these that was taken.
#[derive(Clone, Copy)]
enum Found {
    Due,
    Taken,
    More,
    Bad(IpfixFault),
}

/// Reads messages out of any pieces of them. Each is checked whole before its first record is given.
///
/// It keeps the octets that were fed and not yet taken, and those of messages that it took until it is
/// fed again: then it keeps of these the message alone whose records are due, of 65,535 octets at most.
/// So where each piece is fed after `next` answered `More` it keeps less than one message and one piece.
#[derive(Drop)]
pub struct IpfixReader {
    octets: Fed,
    // how many octets the message has that was taken last: the pending ones begin with it
    size: usize,
    known: [bool; 8],
    // messages that were taken
    messages: u64,
    // where the records of the message stand, and how many of them were given
    places: Vec<Place>,
    given: usize,
}

impl Model for IpfixReader {
    ghost use Rattle.std.specs.Prelude.{◌+◌, ◌<◌, ◌≤◌, ◌^◌, take, drop, length, vec_capacity};
    ghost use Rattle.ioam_ipfix.specs.Places.{AllPlaces, records_at};
    ghost use Rattle.ioam_ipfix.specs.Reading.{Reading, while_due};

    ghost Value = { Reading };

    ghost view = { λ r. record {
      known = r.known;
      messages = r.messages;
      due = records_at (take r.size r.octets.pending) (drop r.given r.places.items);
      start = r.octets.start + r.size;
      pending = drop r.size r.octets.pending;
      given = length r.octets.given + r.size;
      owed = while_due (records_at (take r.size r.octets.pending) (drop r.given r.places.items)) r.size;
    } };

    ghost invariant = { λ r. (r.size ≤ length r.octets.pending)
        × (r.octets.start + length r.octets.pending < 2 ^ 63)
        × (r.messages ≤ r.octets.start + r.size)
        × (8192 ≤ vec_capacity r.places)
        × (r.given ≤ length r.places.items)
        × AllPlaces (take r.size r.octets.pending) (drop r.given r.places.items) };
}

impl IpfixReader {
    ghost use Rattle.ioam_ipfix.specs.declared.fault.IpfixFault.TheVariants.{Short};
    ghost use Rattle.ioam_dex.specs.Record.{Record};
    ghost use Rattle.ioam_ipfix.specs.Reading.{fresh, fed, held, with_piece};
    ghost use Rattle.ioam_ipfix.specs.Reader.{Stands, Waits, KeepsFault, Advances, Steps, RestsSo, ReadsSo, ending_of};
    ghost use Rattle.ioam_ipfix.specs.Showing.{ShowsSo};

    /// A reader that was fed nothing.
    pub fn new(alloc: Global) -> Result<IpfixReader, NoMemory>
        ensures exact { IfOk result (λ reader. reader ≡ fresh) }
        ensures stands { IfOk result (λ reader. Stands reader [] []) }
    {
        let octets = Fed::new(alloc)?;
        let places = Vec::with_capacity(alloc, PLACES)?;
        Ok(IpfixReader {
            octets,
            size: 0,
            known: [false; 8],
            messages: 0,
            places,
            given: 0,
        })
    }

    /// How many octets were fed in all.
    pub fn fed(&self) -> u64
        ensures { result ≡ fed self.now }
    {
        self.octets.fed()
    }

    /// How many messages were taken: with a record just given its own is the last of them.
    pub fn messages(&self) -> u64
        ensures { result ≡ self.now.messages }
    {
        self.messages
    }

    // The place in the input of the first octet behind the message that was taken last.
    fn start(&self) -> u64
        ensures { result ≡ self.now.start }
    {
        self.octets.start() + self.size as u64
    }

    // How many octets the message has whose records are due.
    fn owed(&self) -> usize
        ensures { result ≡ self.now.owed }
    {
        if self.given < self.places.len() {
            self.size
        } else {
            0
        }
    }

    // What `feed` does, apart from its clauses, so that how many octets of messages that were taken are kept
    // is said by `held` alone: `rest` leaves it open. What is owed no longer is let go of.
    fn feed_piece(&mut self, piece: &[u8]) -> Result<(), NoMemory>
        requires { fed self.old + length piece.now < 2 ^ 63 }
        ensures rest { OnOk result (self.new ≡ record (with_piece piece.now self.old) { given = self.new.given }) }
        ensures err { OnErr result (self.new ≡ self.old) }
        ensures held { OnOk result (held self.new ≡ self.old.owed + length self.old.pending + length piece.now) }
    {
        let owed = self.owed();
        let gone = self.size - owed;
        self.octets.take(gone);
        self.size -= gone;
        self.octets.feed(piece)?;
        Ok(())
    }

    /// Feeds the next octets of the input, of which there are below 2^63 in all. Of the octets of
    /// messages that it took it keeps those alone of the message whose records are due.
    pub fn feed(&mut self, piece: &[u8]) -> Result<(), NoMemory>
        requires { fed self.old + length piece.now < 2 ^ 63 }
        ensures ok { OnOk result (self.new ≡ with_piece piece.now self.old) }
        ensures stands { OnOk result ((octets : List ℕ) (given : List Record)
            → Stands self.old octets given
            → Stands self.new (octets ++ piece.now) given) }
        // A fault of what is due stays, whatever is fed.
        ensures faulty { OnOk result (KeepsFault self.old self.new) }
        ensures err { OnErr result (self.new ≡ self.old) }
        // It keeps the message whose records are due, what was pending and the piece.
        ensures held { OnOk result (held self.new ≡ self.old.owed + length self.old.pending + length piece.now) }
    {
        self.feed_piece(piece)?;
        Ok(())
    }

    // Looks at the message that is due, and takes it where it is whole and without a fault.
    fn step(&mut self) -> Found
        requires { self.old.due ≡ [] }
        ensures { Steps self.old self.new result }
    {
        self.octets.take(self.size);
        self.size = 0;
        self.places.clear();
        self.given = 0;
        let pending = self.octets.pending();
        match head_step(pending) {
            HeadStep::Cut => Found::More,
            HeadStep::Bad(fault) => Found::Bad(fault),
            HeadStep::Whole(size) => {
                match take_message(&pending[..size], self.known, &mut self.places) {
                    Ok(known) => {
                        self.known = known;
                        self.size = size;
                        self.messages += 1;
                        Found::Taken
                    }
                    Err(fault) => {
                        self.places.clear();
                        Found::Bad(fault)
                    }
                }
            }
        }
    }

    // Takes messages up to one with a record.
    fn advance(&mut self) -> Found
        ensures { Advances self.old self.new result }
    {
        'taking: loop {
            if self.given < self.places.len() {
                return Found::Due;
            }
            match self.step() {
                Found::Taken => {}
                Found::Due => return Found::Due,
                Found::More => return Found::More,
                Found::Bad(fault) => return Found::Bad(fault),
            }
        }
    }

    /// The next record of the input. After `Bad` every call answers the same.
    pub fn next(&mut self) -> IpfixStep<'_>
        ensures* { sem 𝓛 (RestsSo self.entry result) }
    {
        match self.advance() {
            Found::Due => {
                let place = self.places[self.given];
                self.given += 1;
                let from = usize::from(place.from);
                let to = usize::from(place.to);
                IpfixStep::Export(read_data(place.id, &self.octets.pending()[from..to]))
            }
            Found::Taken => IpfixStep::More,
            Found::More => IpfixStep::More,
            Found::Bad(fault) => IpfixStep::Bad {
                at: self.start(),
                fault,
            },
        }
    }

    /// The octets of the next record of the input. After `Bad` every call answers the same.
    pub fn show(&mut self) -> IpfixShown<'_>
        ensures* { sem 𝓛 (ShowsSo self.entry result) }
    {
        match self.advance() {
            Found::Due => {
                let place = self.places[self.given];
                self.given += 1;
                let from = usize::from(place.from);
                let to = usize::from(place.to);
                IpfixShown::Record {
                    id: place.id,
                    octets: &self.octets.pending()[from..to],
                }
            }
            Found::Taken => IpfixShown::More,
            Found::More => IpfixShown::More,
            Found::Bad(fault) => IpfixShown::Bad {
                at: self.start(),
                fault,
            },
        }
    }

    /// What an ended input leaves over, once `next` answered `More`: nothing where its last message is
    /// whole, else the place of the message that is cut, and how many octets of it are there.
    pub fn finish(&self) -> Option<(u64, IpfixFault)>
        requires { Waits self.now }
        ensures left { MatchOption result (self.now.pending ≡ [])
            (λ cut. (cut ≡ (self.now.start, Short (length self.now.pending))) × (0 < length self.now.pending)) }
        // What was given is read of the octets that were fed, in whatever pieces, and nothing else.
        ensures reads { (octets : List ℕ) (given : List Record) → Stands self.now octets given
            → ReadsSo octets given (ending_of result) }
    {
        let have = self.octets.pending().len() - self.size;
        if have == 0 {
            return None;
        }
        Some((self.start(), IpfixFault::Short { have: have as u32 }))
    }
}
