//! Two parts that are walked side by side.
ghost use Rattle.std.specs.Prelude.{◌≡◌, ◌<◌, [], IfSome, List, MatchOption};
ghost use Rattle.ioam_dex.specs.Record.{Record};
ghost use Rattle.ioam_collect.specs.Entry.{Entry};
ghost use Rattle.ioam_collect.specs.Keyed.{keyed};
ghost use Rattle.ioam_collect.specs.Unite.{united};
ghost use Rattle.ioam_collect.specs.declared.key.Key.{Key};
ghost use Rattle.ioam_part.specs.Part.{IsPart};

use crate::keeper::PartOctets;
use crate::side::Side;
use crate::step::next_of;
use std::marker::Model;

/// Two parts that are walked side by side: the records that either has, each once and in their order. Of a record that one
/// tells with its visit and the other without, the one with it comes.
#[derive(Drop)]
pub struct Walk<'a> {
    first: Side<'a>,
    second: Side<'a>,
}

impl<'a> Model for Walk<'a> {
    ghost use Rattle.ioam_part_merge.specs.Walk.{Walking};

    ghost Value = { Walking };

    ghost view = { λ walk. record { first = walk.first; second = walk.second } };
}

impl<'a> Walk<'a> {
    ghost use Rattle.ioam_part_merge.specs.Walk.{Comes, NextIs, left};

    /// A walk along two parts. It takes no memory.
    pub fn new(one: &'a PartOctets, two: &'a PartOctets) -> Walk<'a>
        ensures { (xs ys : List Record) → IsPart one.now xs → IsPart two.now ys → Comes result (united (keyed xs) (keyed ys)) }
    {
        Walk {
            first: Side::new(one.records()),
            second: Side::new(two.records()),
        }
    }

    /// The octets of the record that comes next. It takes no memory.
    pub fn next(&mut self) -> Option<&'a [u8]>
        ensures next { (ps : List (Key × Entry)) → Comes self.old ps → MatchOption result (ps ≡ []) (λ octets. NextIs ps octets.now self.new) }
        ensures fewer { IfSome result (λ octets. left self.new < left self.old) }
    {
        next_of(&mut self.first, &mut self.second)
    }
}
