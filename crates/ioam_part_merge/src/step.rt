//! Steps along two parts.
ghost use Rattle.std.specs.Prelude.{◌≡◌, ◌<◌, [], IfSome, List, MatchOption};
ghost use Rattle.ioam_collect.specs.Entry.{Entry};
ghost use Rattle.ioam_collect.specs.declared.key.Key.{Key};
ghost use Rattle.ioam_part_merge.specs.Walk.{Comes, Goes, NextIs, StepsSo, left, sides, taken_of};

use crate::side::Side;
use crate::turn::{Turn, next_turn};
use ioam_dex::RecordRef;

/// What a step along two parts finds.
#[derive(Clone, Copy)]
pub(crate) enum Step<'a> {
    /// Nothing is left.
    Done,
    /// A record is left out.
    Without,
    /// The octets of the record that comes next.
    Taken(&'a [u8]),
}

// The step that takes a record.
fn taken(export: Option<RecordRef<'_>>) -> Step<'_>
    ensures { result ≡ taken_of export.entry }
{
    match export {
        Some(export) => Step::Taken(export.octets),
        None => Step::Done,
    }
}

// One step.
fn step_on<'a>(first: &mut Side<'a>, second: &mut Side<'a>) -> Step<'a>
    ensures steps { (ps : List (Key × Entry)) → Comes (sides first.old second.old) ps → StepsSo ps result (sides first.new second.new) }
    ensures fewer { Goes result (left (sides first.new second.new) < left (sides first.old second.old)) }
{
    match next_turn(first, second) {
        Turn::Done => Step::Done,
        Turn::First => taken(first.take()),
        Turn::Second => taken(second.take()),
        Turn::Both => {
            second.take();
            taken(first.take())
        }
        Turn::WithoutFirst => {
            first.take();
            Step::Without
        }
        Turn::WithoutSecond => {
            second.take();
            Step::Without
        }
    }
}

/// The octets of the record that comes next.
pub(crate) fn next_of<'a>(first: &mut Side<'a>, second: &mut Side<'a>) -> Option<&'a [u8]>
    ensures next { (ps : List (Key × Entry)) → Comes (sides first.old second.old) ps
        → MatchOption result (ps ≡ []) (λ octets. NextIs ps octets.now (sides first.new second.new)) }
    ensures fewer { IfSome result (λ octets. left (sides first.new second.new) < left (sides first.old second.old)) }
{
    'steps: loop {
        match step_on(first, second) {
            Step::Done => return None,
            Step::Without => {}
            Step::Taken(octets) => return Some(octets),
        }
    }
}
