//! The options of an interface block.
ghost use Rattle.std.specs.Prelude.{◌≡◌, ◌+◌, ◌≤◌, ◌<◌, ◌∷◌, [], length, take, drop, slice_index, IsFalse, List};
ghost use Rattle.std.specs.Option.{option_or};
ghost use Rattle.ioam_ng.specs.Face.{face_in, face_with};
ghost use Rattle.ioam_ng.specs.Steps.{TellsOption};
ghost use Rattle.ioam_ng.specs.Options.{Item, is_end, is_past, item_in, item_size, resolution_in, offset_in};

use crate::codes::{NO_MORE, OFFSET, RESOLUTION};
use crate::face::Face;
use crate::numbers::{long_at, short_at};
use ioam_pcap::Order;

// What the options so far say.
#[derive(Clone, Copy)]
pub struct Said {
    pub resolution: Option<u8>,
    pub offset: Option<u64>,
}

// No option stands at the front.
fn is_end(order: Order, octets: &[u8]) -> bool
    ensures { result ≡ is_end order octets.now }
{
    octets.len() < 4 || short_at(order, octets, 0) == NO_MORE
}

// The octets that the option at the front takes.
fn item_size(order: Order, octets: &[u8]) -> usize
    requires { 4 ≤ length octets.now }
    ensures size { result ≡ item_size order octets.now }
{
    4 + (usize::from(short_at(order, octets, 2)) + 3) / 4 * 4
}

// What stands at the front of an interface's options.
#[derive(Clone, Copy)]
enum OptionStep {
    End,
    Past,
    Next { found: Said, size: usize },
}

impl Said {
    // With a value of a code behind these.
    fn with(self, order: Order, code: u16, value: &[u8]) -> Said
        ensures resolution { (items : List Item) → option_or result.resolution (resolution_in order items)
            ≡ option_or self.resolution (resolution_in order (record { code = code; value = value.now } ∷ items)) }
        ensures offset { (items : List Item) → option_or result.offset (offset_in order items)
            ≡ option_or self.offset (offset_in order (record { code = code; value = value.now } ∷ items)) }
    {
        let mut found = self;
        if code == RESOLUTION && value.len() == 1 && found.resolution.is_none() {
            found.resolution = Some(value[0]);
        }
        if code == OFFSET && value.len() == 8 && found.offset.is_none() {
            found.offset = Some(long_at(order, value, 0));
        }
        found
    }

    // What an option at the front of the octets adds to these.
    fn step(self, order: Order, octets: &[u8]) -> OptionStep
        ensures { TellsOption order self octets.now result }
    {
        if is_end(order, octets) {
            return OptionStep::End;
        }
        let size = item_size(order, octets);
        if octets.len() < size {
            return OptionStep::Past;
        }
        let to = 4 + usize::from(short_at(order, octets, 2));
        let found = self.with(order, short_at(order, octets, 0), &octets[4..to]);
        OptionStep::Next { found, size }
    }

    // The interface of which they say this.
    fn face(self, order: Order, kind: u16) -> Face
        ensures { result ≡ face_with order kind self.resolution self.offset [] }
    {
        Face {
            kind,
            resolution: self.resolution.unwrap_or(6),
            offset: self.offset.unwrap_or(0),
        }
    }
}

/// The interface of a link type with these octets of options; None where an option passes them.
pub fn face_in(order: Order, kind: u16, octets: &[u8]) -> Option<Face>
    ensures { result ≡ face_in order kind octets.now }
{
    let mut found = Said {
        resolution: None,
        offset: None,
    };
    let mut at = 0;
    'options: for step in 0..octets.len() {
        match found.step(order, &octets[at..]) {
            OptionStep::End => return Some(found.face(order, kind)),
            OptionStep::Past => return None,
            OptionStep::Next { found: next, size } => {
                found = next;
                at += size;
            }
        }
    }
    Some(found.face(order, kind))
}
