//! Shares in percent.
ghost use Rattle.std.specs.Prelude.{◌≡◌, ◌<◌, ◌≤◌, ◌^◌, ◌++◌, OnOk};
ghost use Rattle.ioam_delay_lines.specs.Shares.{share_text, share_words, tenths_of};

use ioam_base::memory::NoMemory;
use ioam_base::text::{append, append_decimal};

// Shares are of less.
const MOST: u128 = 1 << 116;

/// Appends which part of a whole something is, in percent to a tenth, a half up; or `-`, if the whole is 0, below the
/// part, or 2^116 or more.
pub fn put_share(part: u128, whole: u128, out: &mut Vec<u8>) -> Result<(), NoMemory>
    ensures { OnOk result (out.new.items ≡ out.old.items ++ share_text part whole) }
{
    if 0 < whole && part <= whole && whole < MOST {
        put_tenths(tenths(part, whole), out)
    } else {
        append(out, b"-")
    }
}

// Appends tenths of a percent as percent.
fn put_tenths(tenths: u64, out: &mut Vec<u8>) -> Result<(), NoMemory>
    ensures { OnOk result (out.new.items ≡ out.old.items ++ share_words tenths) }
{
    append_decimal(out, tenths / 10)?;
    append(out, b".")?;
    append_decimal(out, tenths % 10)
}

// The tenths of a percent.
fn tenths(part: u128, whole: u128) -> u64
    requires some { 0 < whole }
    requires within { part ≤ whole }
    requires fits { whole < 2 ^ 116 }
    ensures { result ≡ tenths_of part whole }
{
    ((2_000 * part + whole) / (2 * whole)) as u64
}
