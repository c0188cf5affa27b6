//! Sets (RFC 7011 section 3.3), checked: templates and data records one behind the other.

ghost use Rattle.std.specs.Prelude.{◌≡◌, ℕ, ◌+◌, ◌-◌, ◌*◌, ◌≤◌, ◌<◌, ◌↔◌, IsTrue, List, ◌++◌, length, take, drop, MatchResult, slice_index_or, false, vec_len, vec_capacity};
ghost use Rattle.ioam_base.specs.Chain.{Stops};
ghost use Rattle.ioam_ipfix.specs.Faults.{IsUnsized, HasStuckTemplate, HasStuckRecord, IsStuckAs, IsStuck};
ghost use Rattle.ioam_ipfix.specs.Places.{slice, AllPlaces, HasRoomFor};
ghost use Rattle.ioam_ipfix.specs.Sets.{spot, set_kind, IsPadding, IsSized};
ghost use Rattle.ioam_ipfix.specs.Steps.{TellsTemplate, AddsTemplates, AddsRecords, AddsContent, AddsSet};
ghost use Rattle.ioam_ipfix.specs.Templates.{IsTemplate};
ghost use Rattle.ioam_base.specs.Octets.{u16_at};

use crate::data::{DataStep, all_zero, data_step};
use crate::fault::IpfixFault;
use crate::kind::{FIRST_TEMPLATE, LAST_TEMPLATE, SetKind, set_kind};
use crate::place::Place;
use crate::template::template;
use ioam_base::octets::u16_at;

/// What octets where a template is due show.
#[derive(Clone, Copy)]
pub(crate) enum TemplateStep {
    Whole { id: u16, size: usize },
    Padding,
    Bad(IpfixFault),
}

// Whether octets begin with a part.
fn begins(octets: &[u8], part: &[u8]) -> bool
    ensures yes { IsTrue result → octets.now ≡ part.now ++ drop (length part.now) octets.now }
    ensures no { (rest : List ℕ) → octets.now ≡ part.now ++ rest → IsTrue result }
{
    octets.starts_with(part)
}

// What octets where a template is due show.
fn template_step(octets: &[u8]) -> TemplateStep
    ensures { TellsTemplate octets.now result }
{
    if octets.len() < 4 {
        if all_zero(octets) {
            return TemplateStep::Padding;
        }
        return TemplateStep::Bad(IpfixFault::Length {
            found: octets.len() as u16,
        });
    }
    let id = u16_at(octets, 0);
    if id < FIRST_TEMPLATE || id > LAST_TEMPLATE {
        return TemplateStep::Bad(IpfixFault::Template { found: id });
    }
    let known = template(id);
    let size = known.octets().len();
    if begins(octets, known.octets()) {
        TemplateStep::Whole { id, size }
    } else {
        TemplateStep::Bad(IpfixFault::Template { found: id })
    }
}

// Takes the templates of a set.
fn take_templates(content: &[u8], known: &mut [bool; 8]) -> Result<(), IpfixFault>
    ensures { MatchResult result (λ _. AddsTemplates content.now known.old known.new) (λ fault. HasStuckTemplate content.now fault) }
{
    let mut at = 0;
    'templates: loop {
        match template_step(&content[at..]) {
            TemplateStep::Whole { id, size } => {
                known[usize::from(id - FIRST_TEMPLATE)] = true;
                at += size;
            }
            TemplateStep::Padding => return Ok(()),
            TemplateStep::Bad(fault) => return Err(fault),
        }
    }
}

// Notes the places of a set's data records, from one place of its message to another.
fn note_records(
    message: &[u8],
    from: usize,
    to: usize,
    id: u16,
    places: &mut Vec<Place>,
) -> Result<(), IpfixFault>
    requires id { IsTemplate id }
    requires inside { (from ≤ to) × (to ≤ length message.now) × (length message.now < 65536) }
    requires room { HasRoomFor from (vec_len places.old) (vec_capacity places.old) }
    requires places { AllPlaces message.now places.old.items }
    ensures room { HasRoomFor to (vec_len places.new) (vec_capacity places.new) }
    ensures found { MatchResult result (λ _. AddsRecords id message.now (slice from to message.now) places.old.items places.new.items)
        (λ fault. HasStuckRecord from id (slice from to message.now) fault) }
{
    let mut at = from;
    'records: loop {
        match data_step(id, &message[at..to]) {
            DataStep::Whole(size) => {
                // never refused: there is room for the places of as many records as a message can have
                places
                    .push(Place {
                        from: at as u16,
                        to: to as u16,
                        id,
                    })
                    .unwrap();
                at += size;
            }
            DataStep::Padding => return Ok(()),
            DataStep::Bad => return Err(IpfixFault::Field { at: at as u32 }),
        }
    }
}

// Takes what a set holds, which stands at a place of its message and ends at another.
fn take_content(
    message: &[u8],
    at: usize,
    to: usize,
    id: u16,
    known: &mut [bool; 8],
    places: &mut Vec<Place>,
) -> Result<(), IpfixFault>
    requires inside { (at + 4 ≤ to) × (to ≤ length message.now) × (length message.now < 65536) }
    requires room { HasRoomFor at (vec_len places.old) (vec_capacity places.old) }
    requires places { AllPlaces message.now places.old.items }
    ensures room { HasRoomFor to (vec_len places.new) (vec_capacity places.new) }
    ensures found { MatchResult result (λ _. AddsContent id message.now (slice (at + 4) to message.now) known.old known.new places.old.items places.new.items)
        (λ fault. IsStuckAs (set_kind id) at known.old id (slice (at + 4) to message.now) fault) }
{
    match set_kind(id) {
        SetKind::Templates => take_templates(&message[at + 4..to], known),
        SetKind::Data => {
            if !known[usize::from(id - FIRST_TEMPLATE)] {
                return Err(IpfixFault::Template { found: id });
            }
            note_records(message, at + 4, to, id, places)
        }
        SetKind::Skipped => Ok(()),
        SetKind::Reserved => Err(IpfixFault::Set { found: id }),
    }
}

// The size of the set that stands in front.
fn set_size(rest: &[u8]) -> Result<usize, IpfixFault>
    requires { length rest.now < 65536 }
    ensures { MatchResult result (λ size. IsSized rest.now × (size ≡ u16_at rest.now 2)) (λ fault. IsUnsized rest.now fault) }
{
    if rest.len() < 4 {
        return Err(IpfixFault::Length {
            found: rest.len() as u16,
        });
    }
    let found = u16_at(rest, 2);
    let size = usize::from(found);
    if size < 4 || size > rest.len() {
        return Err(IpfixFault::Length { found });
    }
    Ok(size)
}

/// Takes the set that stands at a place of its message, and answers its size.
pub(crate) fn take_set(
    message: &[u8],
    at: usize,
    known: &mut [bool; 8],
    places: &mut Vec<Place>,
) -> Result<usize, IpfixFault>
    requires inside { (at < length message.now) × (length message.now < 65536) }
    requires room { HasRoomFor at (vec_len places.old) (vec_capacity places.old) }
    requires places { AllPlaces message.now places.old.items }
    ensures room { 8192 ≤ vec_capacity places.new }
    ensures found { MatchResult result (λ size. AddsSet message.now at size known.old known.new places.old.items places.new.items
        × HasRoomFor (at + size) (vec_len places.new) (vec_capacity places.new))
        (λ fault. IsStuck at (spot known.old (drop at message.now)) fault) }
{
    let rest = &message[at..];
    let size = set_size(rest)?;
    take_content(message, at, at + size, u16_at(rest, 0), known, places)?;
    Ok(size)
}
