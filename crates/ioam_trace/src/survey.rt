//! What is found of octets that should be a trace.
ghost use Rattle.std.specs.Prelude.{◌≡◌, if◌then◌else◌};
ghost use Rattle.ioam_trace.specs.Head.{remaining_of};
ghost use Rattle.ioam_trace.specs.Read.{Surveys};

use crate::area::end_of;
use crate::fault::TraceFault;
use crate::head::{HEAD_OCTETS, TraceHead};

// The words between the header and the elements.
fn free_words(remaining: u8, is_incremental: bool) -> u8
    ensures { result ≡ (if is_incremental then 0 else remaining) }
{
    if is_incremental { 0 } else { remaining }
}

// The header of octets that are a trace with the free words that RemainingLen tells, or where
// `is_incremental` with none; else their first fault.
pub(crate) fn survey(octets: &[u8], is_incremental: bool) -> Result<TraceHead, TraceFault>
    ensures { Surveys (if is_incremental then 0 else remaining_of octets.now) octets.now result }
{
    let have = octets.len();
    if have < HEAD_OCTETS || have % 4 != 0 {
        return Err(TraceFault::Short { have });
    }
    let head = TraceHead::read(octets);
    let free = free_words(head.remaining, is_incremental);
    let start = HEAD_OCTETS + 4 * usize::from(free);
    if start > have {
        return Err(TraceFault::Space { remaining: free });
    }
    if !head.kind.fits(head.node_len) {
        return Err(TraceFault::NodeLen {
            found: head.node_len,
            wanted: head.kind.words() + head.kind.undefined(),
        });
    }
    let end = start + end_of(head.kind, head.node_len, &octets[start..]);
    if end < have {
        return Err(TraceFault::Element { at: end });
    }
    Ok(head)
}
