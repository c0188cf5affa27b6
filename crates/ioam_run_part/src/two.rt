//! Two files that are read as parts, one after the other.
ghost use Rattle.std.specs.Prelude.{◌≡◌, IfErr, List};
ghost use Rattle.ioam_desk.specs.Desk.{holds};
ghost use Rattle.ioam_run_part.specs.Two.{AnswersTwo, ReadsTwo, TriesTwo};

use crate::unread::{read_flat, unread_outcome};
use ioam_base::name::Name;
use ioam_desk::Desk;
use ioam_part_merge::PartOctets;
use ioam_run_answer::Outcome;
use std::alloc::Global;

/// Opens and reads one file as a part, and then another, unless the first is none: the octets of each, or the answer.
pub(crate) fn read_two<D: Desk>(
    alloc: Global,
    one: &Name,
    two: &Name,
    desk: &mut D,
) -> Result<(PartOctets, PartOctets), Outcome>
    ensures reads { ReadsTwo D.tells (holds (D.writing desk.old) one.now) (holds (D.writing desk.old) two.now) one.now two.now
        (D.reading desk.old) (D.reading desk.new) result }
    ensures tries { TriesTwo D.tells (holds (D.writing desk.old) one.now) (holds (D.writing desk.old) two.now) one.now two.now (D.reading desk.old) (D.reading desk.new) }
    ensures faults { IfErr result (AnswersTwo (D.reading desk.old) (D.reading desk.new)) }
    ensures outputs { D.writing desk.new ≡ D.writing desk.old }
{
    let first = match read_flat(alloc, desk, one) {
        Ok(part) => part,
        Err(why) => return Err(unread_outcome(alloc, one, why)),
    };
    match read_flat(alloc, desk, two) {
        Ok(second) => Ok((first, second)),
        Err(why) => Err(unread_outcome(alloc, two, why)),
    }
}
