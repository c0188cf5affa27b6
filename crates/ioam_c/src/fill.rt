//! What a transit node writes into a trace, in place.
ghost use Rattle.std.specs.Prelude.{IsTrue};
ghost use Rattle.ioam_trace.specs.Filling.{AddsElement};
ghost use Rattle.ioam_c.specs.Fill.{Fills, FillsSo, is_view, seen_of};

use crate::status::{VIEW, filled_status};
use crate::view::{IoamView, is_view, seen_by};
use ioam_trace::fill;

/// Adds in place the data of a node to the octets of a pre-allocated trace, those after the IOAM-Option-Type (RFC 9197 section 4.4.1).
/// `OK`: RemainingLen is less by the element's words, and the element is in the last of the free words. `OVERFLOWED`: the element didn't
/// fit, and only Overflow was set. `ALREADY_OVER`: Overflow was set. `UNSUITED`: the octets are no trace to which a node adds an element.
/// `VIEW`: a number of the view exceeds its limit. The last three leave the octets as they are.
#[unsafe(no_mangle)]
pub extern "C" fn ioam_fill(octets: &mut [u8], view: &IoamView) -> u32
    ensures fills { Fills view.now octets.old octets.new result }
    // The same by cases.
    ensures cases { IsTrue (is_view view.now) → FillsSo (seen_of view.now) octets.old octets.new result }
    // A trace that an entry node began holds one element more, or Overflow.
    ensures adds { IsTrue (is_view view.now) → AddsElement octets.old (seen_of view.now) octets.new }
{
    if !is_view(view) {
        return VIEW;
    }
    filled_status(fill(octets, &seen_by(view)))
}
