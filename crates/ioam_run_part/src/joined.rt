//! Two parts, joined and written as one.
ghost use Rattle.std.specs.Prelude.{◌≡◌, ◌≢◌, ◌∷◌, [], IfOk, IsTrue, List, MatchResult};
ghost use Rattle.ioam_desk.specs.Asked.{AsksFront};
ghost use Rattle.ioam_desk.specs.Kept.{KeepsOutputs};
ghost use Rattle.ioam_run_answer.specs.Record.{Record};
ghost use Rattle.ioam_collect.specs.Keyed.{keyed};
ghost use Rattle.ioam_collect.specs.Unite.{united};
ghost use Rattle.ioam_part.specs.Part.{IsPart};
ghost use Rattle.ioam_run_part.specs.Joined.{Counts, IsPlan, PutsRecords, RefusesJoined, SaysJoined, WritesJoined, left_of};

use crate::telling::{Source, stored_outcome, tell};
use ioam_base::memory::NoMemory;
use ioam_base::name::Name;
use ioam_base::text::append;
use ioam_collect::MOST_HELD;
use ioam_desk::{Desk, PIECE};
use ioam_part_merge::{PartOctets, Walk, count_both, head_of};
use ioam_run_answer::Outcome;
use ioam_stream::Tail;
use std::alloc::Global;

// A walk along two parts, and how many records come of it, until that is said.
#[derive(Drop)]
struct Joined<'a> {
    count: Option<u32>,
    walk: Walk<'a>,
}

// Appends the records that come next of a walk, until a full piece waits or none is left.
fn put_records(walk: &mut Walk<'_>, out: &mut Vec<u8>) -> Result<Tail, NoMemory>
    ensures { IfOk result (PutsRecords walk.old walk.new out.old.items out.new.items) }
{
    'records: loop {
        match walk.next() {
            Some(octets) => append(out, octets)?,
            None => return Ok(Tail::End),
        }
        if out.len() >= PIECE {
            return Ok(Tail::Rest);
        }
    }
}

impl<'a> Source for Joined<'a> {
    ghost says = { λ joined text. SaysJoined joined.count joined.walk text };

    ghost left = { λ joined. left_of joined.count joined.walk };

    fn put(&mut self, out: &mut Vec<u8>) -> Result<Tail, NoMemory> {
        match self.count {
            Some(count) => {
                self.count = None;
                append(out, head_of(count).octets())?;
                Ok(Tail::Rest)
            }
            None => put_records(&mut self.walk, out),
        }
    }
}

// How many records two parts hold together. None if they are too many.
fn count_of(one: &PartOctets, two: &PartOctets) -> Option<u32>
    ensures { (xs ys : List Record) → IsPart one.now xs → IsPart two.now ys → Counts (united (keyed xs) (keyed ys)) result }
{
    let mut walk = Walk::new(one, two);
    count_both(&mut walk)
}

// What is written of both, or the answer where there is nothing.
fn make_plan<'a>(one: &'a PartOctets, two: &'a PartOctets) -> Result<Joined<'a>, Outcome>
    ensures { (xs ys : List Record) → IsPart one.now xs → IsPart two.now ys
        → MatchResult result (λ plan. IsPlan xs ys plan.count plan.walk) (RefusesJoined xs ys) }
{
    match count_of(one, two) {
        Some(count) => Ok(Joined {
            count: Some(count),
            walk: Walk::new(one, two),
        }),
        None => Err(Outcome::Records { limit: MOST_HELD }),
    }
}

/// Opens a name, and writes there the part of the records that either of two parts has. Where they are more than 1,048,576,
/// the name isn't opened.
pub(crate) fn write_joined<'a, D: Desk>(
    alloc: Global,
    first: &'a PartOctets,
    second: &'a PartOctets,
    part: &Name,
    desk: &mut D,
) -> Outcome
    ensures writes { (xs ys : List Record) → IsPart first.now xs → IsPart second.now ys
        → WritesJoined D.tells part.now xs ys (D.writing desk.old) (D.writing desk.new) result }
    ensures faults { result ≢ Outcome.WriteFault → (D.writing desk.new).side.faults ≡ (D.writing desk.old).side.faults }
    ensures asked { AsksFront (D.writing desk.old).side.asked (D.writing desk.new).side.asked (part.now ∷ []) }
    ensures kept { IsTrue D.tells → KeepsOutputs (D.writing desk.old) (D.writing desk.new) }
    ensures inputs { D.reading desk.new ≡ D.reading desk.old }
{
    match make_plan(first, second) {
        Ok(plan) => stored_outcome(tell(alloc, desk, part, plan)),
        Err(answer) => answer,
    }
}
