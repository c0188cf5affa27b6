//! Messages (RFC 7011 section 3.1), checked.

ghost use Rattle.std.specs.Prelude.{◌≡◌, ◌≤◌, ◌<◌, [], length, MatchResult, vec_capacity};
ghost use Rattle.ioam_ipfix.specs.Faults.{IsStuckInside};
ghost use Rattle.ioam_ipfix.specs.Steps.{TellsHead, TakesMessage};

use crate::fault::IpfixFault;
use crate::place::Place;
use crate::set::take_set;
use ioam_base::octets::u16_at;

/// The octets in front of a message's sets.
pub(crate) const HEAD: usize = 16;

/// What octets where a message is due show of its head.
#[derive(Clone, Copy)]
pub(crate) enum HeadStep {
    /// A message of so many octets is there.
    Whole(usize),
    Cut,
    Bad(IpfixFault),
}

/// What octets where a message is due show of its head.
pub(crate) fn head_step(octets: &[u8]) -> HeadStep
    ensures { TellsHead octets.now result }
{
    if octets.len() < 2 {
        return HeadStep::Cut;
    }
    let version = u16_at(octets, 0);
    if version != 10 {
        return HeadStep::Bad(IpfixFault::Version { found: version });
    }
    if octets.len() < 4 {
        return HeadStep::Cut;
    }
    let found = u16_at(octets, 2);
    let size = usize::from(found);
    if size < HEAD {
        return HeadStep::Bad(IpfixFault::Length { found });
    }
    if octets.len() < size {
        return HeadStep::Cut;
    }
    HeadStep::Whole(size)
}

/// Takes all sets of a message: answers which templates are known behind it, and notes the places of
/// its records.
pub(crate) fn take_message(
    message: &[u8],
    known: [bool; 8],
    places: &mut Vec<Place>,
) -> Result<[bool; 8], IpfixFault>
    requires inside { (16 ≤ length message.now) × (length message.now < 65536) }
    requires none { places.old.items ≡ [] }
    requires room { 8192 ≤ vec_capacity places.old }
    ensures room { 8192 ≤ vec_capacity places.new }
    ensures found { MatchResult result (λ behind. TakesMessage message.now known behind places.new.items) (λ fault. IsStuckInside known message.now fault) }
{
    let mut behind = known;
    let mut at = HEAD;
    'sets: while at < message.len() {
        let size = take_set(message, at, &mut behind, places)?;
        at += size;
    }
    Ok(behind)
}
