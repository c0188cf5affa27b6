//! An options header that is laid out option by option (RFC 8200 section 4.2).
ghost use Rattle.std.specs.Prelude.{◌≡◌, ◌↔◌, ◌+◌, ◌*◌, ◌%◌, ◌<◌, ◌≤◌, List, [], ◌∷◌, ◌++◌, length, take, is_ok, if◌then◌else◌, OnOk, OnErr, IfOk, IsTrue};
ghost use Rattle.ioam_ip.specs.Findings.{is_ioam_type};
ghost use Rattle.ioam_ip.specs.Layout.{padding, gap_before, with_option, padded, finished, placed, AddsOption, KeepsOptions, IsSized};
ghost use Rattle.ioam_ip.specs.Options.{AreOptions};
ghost use Rattle.ioam_ip.specs.Sizes.{size_with};

use crate::option_type::{PADN, is_ioam_type};
use ioam_base::memory::NoMemory;
use ioam_base::text::append;
use std::alloc::Global;
use std::marker::Model;

/// The most octets that a header is laid out to.
pub const MOST_OCTETS: usize = 2048;

// An IOAM option stands at a multiple of so many octets (RFC 9486 section 3).
const ALIGNMENT: usize = 4;

/// Why an option isn't added.
#[derive(Clone, Copy, Debug, PartialEq, Eq)]
pub enum LayoutFault {
    /// The header with the option, padded to a multiple of 8 octets, would pass 2,048 octets.
    Full,
    /// No memory could be had.
    NoMemory,
}

/// An options header with the options added so far, which contracts see as its octets: the next
/// header value, a length octet that is still 0, and the options with their paddings.
#[derive(Debug, Drop)]
pub struct Layout {
    octets: Vec<u8>,
}

impl Model for Layout {
    ghost use Rattle.std.specs.Prelude.{ℕ, List, ◌≤◌, length};

    ghost Value = { List ℕ };

    ghost view = { λ l. l.octets.items };

    ghost invariant = { λ l. (2 ≤ length l.octets.items) × (length l.octets.items ≤ 2048) };
}

impl Layout {
    /// A header without options. `next` is the value that names what follows it. `NoMemory`: none
    /// could be had for it.
    pub fn new(alloc: Global, next: u8) -> Result<Layout, NoMemory>
        ensures octets { IfOk result (λ laid. laid ≡ next ∷ 0 ∷ []) }
        ensures options { IfOk result (λ laid. AreOptions laid []) }
    {
        let mut octets = Vec::new(alloc);
        append(&mut octets, &[next, 0])?;
        Ok(Layout { octets })
    }

    /// Adds an option with its data behind those that are there. An IOAM option (type 0x11 or 0x31)
    /// is put at a multiple of 4 octets from the header's first (RFC 9486 section 3); no other is
    /// aligned. Padding is Pad1 for one octet and PadN with zeros for more. Full comes exactly where
    /// the header, padded to a multiple of 8 octets, would pass 2,048 octets. After an `Err` the
    /// header is as before. An option takes its data and at most 5 octets: its type, its length and
    /// up to 3 of padding.
    #[tactic(auto, using(crate::proofs::LayLaws::length_with_option))]
    pub fn add(&mut self, kind: u8, body: &[u8]) -> Result<(), LayoutFault>
        requires kind { 1 < kind }
        requires short { length body.now ≤ 255 }
        ensures full { (result ≡ Err LayoutFault.Full) ↔ (2048 < padded (length (with_option self.old kind body.now))) }
        ensures octets { OnOk result (self.new ≡ with_option self.old kind body.now) }
        ensures options { OnOk result (AddsOption self.old self.new (placed self.old kind body.now)) }
        ensures size { length (with_option self.old kind body.now) ≤ length self.old + length body.now + 5 }
        ensures aligned { IsTrue (is_ioam_type kind) → (placed self.old kind body.now).at % 4 ≡ 0 }
        ensures err { OnErr result (self.new ≡ self.old) }
    {
        let size = self.octets.len();
        let gap = gap_before(size, kind);
        if size + gap + 2 + body.len() > MOST_OCTETS {
            return Err(LayoutFault::Full);
        }
        match append_option(&mut self.octets, gap, kind, body) {
            Ok(()) => Ok(()),
            Err(_) => {
                self.octets.truncate(size);
                Err(LayoutFault::NoMemory)
            }
        }
    }

    /// The whole header, padded to a multiple of 8 octets, with its Hdr Ext Len, which counts units
    /// of 8 octets past the first 8 (RFC 8200 section 4.3). The layout is given up on either answer.
    pub fn finish(self) -> Result<Vec<u8>, NoMemory>
        ensures octets { IfOk result (λ head. head.items ≡ finished self) }
        ensures options { IfOk result (λ head. KeepsOptions self head.items) }
        ensures size { IfOk result (λ head. IsSized head.items (length self)) }
        ensures short { IfOk result (λ head. length head.items ≤ 2048) }
    {
        let Layout { mut octets } = self;
        let size = octets.len();
        let whole = padded(size);
        pad(&mut octets, whole - size)?;
        octets[1] = (whole / 8 - 1) as u8;
        Ok(octets)
    }
}

/// The size of a header with an option of this type and so many octets of data behind `size`
/// octets: padding, type, length and data.
pub fn size_with(size: usize, kind: u8, data_size: usize) -> usize
    requires small { size ≤ 4096 }
    requires short { data_size ≤ 255 }
    ensures { result ≡ size_with size kind data_size }
{
    size + gap_before(size, kind) + 2 + data_size
}

/// A size padded to a multiple of 8 octets.
pub fn padded(size: usize) -> usize
    requires { size ≤ 4096 }
    ensures { result ≡ padded size }
{
    (size + 7) / 8 * 8
}

/// The octets of padding in front of an option of this type behind `size` octets of its header, 0 to 3:
/// an IOAM option stands at a multiple of 4 octets (RFC 9486 section 3), any other anywhere.
pub fn gap_before(size: usize, kind: u8) -> usize
    ensures value { result ≡ gap_before size kind }
    ensures small { result < 4 }
{
    if is_ioam_type(kind) {
        (ALIGNMENT - size % ALIGNMENT) % ALIGNMENT
    } else {
        0
    }
}

// Appends padding of up to 8 octets: Pad1 for one, PadN with zeros for more (RFC 8200 section 4.2). Without
// memory nothing is appended.
fn pad(octets: &mut Vec<u8>, count: usize) -> Result<(), NoMemory>
    requires { count ≤ 8 }
    ensures { octets.new.items ≡ (if is_ok result then octets.old.items ++ padding count else octets.old.items) }
{
    match count {
        0 => Ok(()),
        1 => append(octets, &[0]),
        2 => append(octets, &[PADN, 0]),
        3 => append(octets, &[PADN, 1, 0]),
        4 => append(octets, &[PADN, 2, 0, 0]),
        5 => append(octets, &[PADN, 3, 0, 0, 0]),
        6 => append(octets, &[PADN, 4, 0, 0, 0, 0]),
        7 => append(octets, &[PADN, 5, 0, 0, 0, 0, 0]),
        _ => append(octets, &[PADN, 6, 0, 0, 0, 0, 0, 0]),
    }
}

// Appends an option behind its padding; an `Err` may leave a part of it.
fn append_option(octets: &mut Vec<u8>, gap: usize, kind: u8, body: &[u8]) -> Result<(), NoMemory>
    requires gap { gap ≤ 8 }
    requires short { length body.now ≤ 255 }
    ensures ok { OnOk result (octets.new.items ≡ octets.old.items ++ (padding gap ++ (kind ∷ length body.now ∷ body.now))) }
    ensures kept { take (length octets.old.items) octets.new.items ≡ octets.old.items }
{
    pad(octets, gap)?;
    append(octets, &[kind, body.len() as u8])?;
    append(octets, body)
}
