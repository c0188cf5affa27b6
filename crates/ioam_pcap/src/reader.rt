//! A reader of classic captures that is fed in pieces.
ghost use Rattle.std.specs.Prelude.{◌≡◌, ◌+◌, ◌≤◌, ◌<◌, ◌^◌, ◌++◌, [], List, ℕ, length, drop, IfOk, IsSome, MatchOption, OnErr, OnOk};
ghost use Rattle.std.specs.Borrow.{sem};

use crate::capture::{CapFault, CapLook, CapStep, Packet};
use crate::entry::{EntryStep, entry_step};
use crate::form::Form;
use crate::head::{HeadStep, head_step};
use ioam_base::fed::Fed;
use ioam_base::memory::NoMemory;
use ioam_ip::Layer;
use std::alloc::Global;
use std::marker::Model;

/// Reads a classic capture file out of any pieces of it.
///
/// It keeps the octets that were fed and not yet taken, and those that it gave until it is fed again.
/// Where `next` answers `More` fewer are pending than the 262,160 of the greatest record, so that a
/// reader which is fed only then keeps less than a record and a piece.
#[derive(Drop)]
pub struct CaptureReader {
    octets: Fed,
    form: Option<Form>,
}

impl Model for CaptureReader {
    ghost use Rattle.std.specs.Prelude.{length};
    ghost use Rattle.ioam_pcap.specs.Reading.{Reading};

    ghost Value = { Reading };

    ghost view = { λ r. record { form = r.form; start = r.octets.start; pending = r.octets.pending; given = length r.octets.given } };
}

impl CaptureReader {
    ghost use Rattle.ioam_pcap.specs.declared.capture.CapFault.TheVariants.{Short};
    ghost use Rattle.ioam_pcap.specs.Ending.{ending_of};
    ghost use Rattle.ioam_pcap.specs.Entries.{Entry};
    ghost use Rattle.ioam_pcap.specs.Reads.{Reads, ReadsOnly};
    ghost use Rattle.ioam_pcap.specs.Reader.{Stands, HoldsFew, Waits, Looks, KeepsFault, RestsSo, fresh, fed, held, link_of};

    /// A reader that was fed nothing.
    pub fn new(alloc: Global) -> Result<CaptureReader, NoMemory>
        ensures exact { IfOk result (λ reader. reader ≡ fresh) }
        ensures stands { IfOk result (λ reader. Stands reader [] []) }
    {
        Ok(CaptureReader {
            octets: Fed::new(alloc)?,
            form: None,
        })
    }

    /// How many octets were fed in all.
    pub fn fed(&self) -> u64
        ensures { result ≡ fed self.now }
    {
        self.octets.fed()
    }

    /// The layer that the packets begin at, once the head was read.
    pub fn link(&self) -> Option<Layer>
        ensures { result ≡ link_of self.now }
    {
        let form = self.form?;
        Some(form.link)
    }

    /// Feeds the next octets of the capture, of which there are below 2^63 in all. It keeps none of the
    /// octets that it gave.
    pub fn feed(&mut self, piece: &[u8]) -> Result<(), NoMemory>
        requires { fed self.old + length piece.now < 2 ^ 63 }
        ensures ok { OnOk result (self.new
            ≡ record self.old { pending = self.old.pending ++ piece.now; given = 0 }) }
        ensures stands { OnOk result ((octets : List ℕ) (entries : List Entry)
            → Stands self.old octets entries
            → Stands self.new (octets ++ piece.now) entries) }
        // A fault of what is due stays, whatever is fed.
        ensures faulty { OnOk result (KeepsFault self.old self.new) }
        ensures err { OnErr result (self.new ≡ self.old) }
        // It keeps what was pending and the piece.
        ensures held { OnOk result (held self.new ≡ length self.old.pending + length piece.now) }
    {
        self.octets.feed(piece)
    }

    /// The next thing of the capture. After `Bad` every call answers the same.
    pub fn next(&mut self) -> CapStep<'_>
        ensures* { sem 𝓛 (RestsSo self.entry result) }
    {
        let at = self.octets.start();
        let pending = self.octets.pending();
        match self.form {
            None => match head_step(pending) {
                HeadStep::Whole(form) => {
                    self.form = Some(form);
                    self.octets.take(24);
                    CapStep::Head { link: form.link }
                }
                HeadStep::Cut => CapStep::More,
                HeadStep::Bad(fault) => CapStep::Bad { at, fault },
            },
            Some(form) => match entry_step(form, pending) {
                EntryStep::Whole(head) => {
                    let captured = head.captured as usize;
                    self.octets.take(16 + captured);
                    CapStep::Packet(Packet {
                        time: head.time,
                        original: head.original,
                        octets: self.octets.taken(captured),
                    })
                }
                EntryStep::Cut => CapStep::More,
                EntryStep::Bad(fault) => CapStep::Bad { at, fault },
            },
        }
    }

    /// What `next` will answer, while no more octets are fed.
    pub fn look(&self) -> CapLook
        ensures waits { result ≡ CapLook.More → Waits self.now }
        ensures few { result ≡ CapLook.More → HoldsFew self.now }
        ensures headed { (time size : ℕ) → result ≡ CapLook.Packet time size → self.now.form ≡ None → ⊥ }
        ensures shows { (octets : List ℕ) (entries : List Entry) → Stands self.now octets entries
            → Looks octets self.now result }
    {
        let at = self.octets.start();
        let pending = self.octets.pending();
        match self.form {
            None => match head_step(pending) {
                HeadStep::Whole(form) => CapLook::Head { link: form.link },
                HeadStep::Cut => CapLook::More,
                HeadStep::Bad(fault) => CapLook::Bad { at, fault },
            },
            Some(form) => match entry_step(form, pending) {
                EntryStep::Whole(head) => CapLook::Packet {
                    time: head.time,
                    size: head.captured,
                },
                EntryStep::Cut => CapLook::More,
                EntryStep::Bad(fault) => CapLook::Bad { at, fault },
            },
        }
    }

    /// What an ended capture leaves over, once `next` answered `More`: nothing where its head was
    /// read and its last record is whole, else the place of the head or the record that is cut, and
    /// how many octets of it are there.
    pub fn finish(&self) -> Option<(u64, CapFault)>
        requires { Waits self.now }
        ensures left { MatchOption result
            (IsSome self.now.form × (self.now.pending ≡ []))
            (λ cut. (cut ≡ (self.now.start, Short (length self.now.pending)))
            × (IsSome self.now.form → 0 < length self.now.pending)) }
        ensures reads { (octets : List ℕ) (entries : List Entry) → Stands self.now octets entries
            → Reads octets (link_of self.now) entries (ending_of result) }
        // Nothing else is read of the octets, in whatever pieces they were fed.
        ensures only { (octets : List ℕ) (entries : List Entry) → Stands self.now octets entries
            → ReadsOnly octets (link_of self.now) entries (ending_of result) }
    {
        self.left_over()
    }

    // What an ended capture leaves over, by the rules alone.
    fn left_over(&self) -> Option<(u64, CapFault)>
        requires { Waits self.now }
        ensures left { MatchOption result
            (IsSome self.now.form × (self.now.pending ≡ []))
            (λ cut. (cut ≡ (self.now.start, Short (length self.now.pending)))
            × (IsSome self.now.form → 0 < length self.now.pending)) }
        ensures reads { (octets : List ℕ) (entries : List Entry) → Stands self.now octets entries
            → Reads octets (link_of self.now) entries (ending_of result) }
    {
        let have = self.octets.pending().len();
        if self.form.is_some() && have == 0 {
            return None;
        }
        Some((self.octets.start(), CapFault::Short { have: have as u32 }))
    }
}
