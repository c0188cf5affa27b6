//! What is said after the lines.
ghost use Rattle.std.specs.Prelude.{◌≡◌, ◌<◌, ◌≤◌, ◌+◌, ◌^◌, ◌++◌, OnOk};
ghost use Rattle.ioam_run_audit.specs.Comparing.{behind_of, left_of, verdict_by};

use crate::counts::Counts;
use crate::cursor::End;
use crate::lines::{put_sums, put_verdict};
use ioam_base::memory::NoMemory;

// The number of the first packet of AFTER that is left, where `taken` were taken.
fn left_of(counts: Counts, taken: u32) -> Option<u32>
    requires some { counts.sent ≤ taken }
    requires few { taken ≤ 16777216 }
    ensures { result ≡ left_of counts.sent taken }
{
    if taken == counts.sent {
        None
    } else {
        Some(counts.sent + 1)
    }
}

/// If both captures were read whole, the number of the first packet of AFTER that is left, if one is, where `taken` were taken.
pub(crate) fn verdict_by(counts: Counts, taken: u32, how: End, last: End) -> Option<Option<u32>>
    requires some { counts.sent ≤ taken }
    requires few { taken ≤ 16777216 }
    ensures { result ≡ verdict_by counts taken how last }
{
    match (how, last) {
        (End::Whole, End::Whole) => Some(left_of(counts, taken)),
        _ => None,
    }
}

/// Adds the sums, and the verdict if there is one.
pub(crate) fn put_behind(
    counts: Counts,
    verdict: Option<Option<u32>>,
    out: &mut Vec<u8>,
) -> Result<(), NoMemory>
    requires { counts.sent + counts.gone + counts.skipped < 2 ^ 32 }
    ensures { OnOk result (out.new.items ≡ out.old.items ++ behind_of counts verdict) }
{
    put_sums(counts, out)?;
    match verdict {
        Some(left) => put_verdict(left, out),
        None => Ok(()),
    }
}
