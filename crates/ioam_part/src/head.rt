//! The head of a part: its mark and its count.
ghost use Rattle.std.specs.Prelude.{◌≡◌, ◌++◌, ◌≤◌, ◌<◌, List, ℕ, length, MatchResult};
ghost use Rattle.ioam_part.specs.Part.{head_octets, most_records};
ghost use Rattle.ioam_part.specs.Faults.{HasFault};

use crate::fault::PartFault;
use ioam_base::buffer::Buffer;
use ioam_base::octets::{u32_at, u64_at};
use ioam_collect::MOST_HELD;

/// The octets of the mark and the count.
pub const HEAD_SIZE: usize = 12;

/// The octets of the mark.
pub(crate) const MARK_SIZE: usize = 8;

// IOAMPART.
const MARK: u64 = 0x494f_414d_5041_5254;

/// The head of a part of so many records.
pub fn head_of(count: u32) -> Buffer
    ensures { result ≡ head_octets count }
{
    let mut head = Buffer::new();
    head.eight(MARK);
    head.four(count);
    head
}

/// The count that a head says, or its fault and the place of that.
pub(crate) fn count_of(head: &[u8]) -> Result<u32, (u64, PartFault)>
    requires { length head.now ≡ 12 }
    ensures { MatchResult result
        (λ count. (head.now ≡ head_octets count) × (count ≤ most_records))
        (λ bad. (more : List ℕ) → HasFault (head.now ++ more) bad.0 bad.1) }
{
    if u64_at(head, 0) != MARK {
        return Err((0, PartFault::Mark));
    }
    let found = u32_at(head, MARK_SIZE);
    if found > MOST_HELD {
        return Err((MARK_SIZE as u64, PartFault::Count { found }));
    }
    Ok(found)
}

/// The fault of octets that end inside the head.
pub(crate) fn cut_of(head: &[u8]) -> (u64, PartFault)
    requires { length head.now < 12 }
    ensures { HasFault head.now result.0 result.1 }
{
    let len = head.len();
    if len < MARK_SIZE {
        return (0, PartFault::Short { have: len as u32 });
    }
    if u64_at(head, 0) != MARK {
        return (0, PartFault::Mark);
    }
    let have = (len - MARK_SIZE) as u32;
    (MARK_SIZE as u64, PartFault::Short { have })
}
