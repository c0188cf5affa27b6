//! The lines of REPORT.
ghost use Rattle.std.specs.Prelude.{◌≡◌, ◌+◌, ◌<◌, ◌^◌, ◌++◌, OnOk, decimal};
ghost use Rattle.ioam_run_audit.specs.Lines.{line_of, verdict_as, sums_line, verdict_line};
ghost use Rattle.ioam_run_audit.specs.Comparing.{sums_as};

use crate::counts::Counts;
use crate::fate::Fate;
use ioam_base::memory::NoMemory;
use ioam_base::text::{append, append_decimal};
use ioam_report::reason_text;

/// `N sent M`, `N gone` or `N skip REASON`.
pub(crate) fn put_line(number: u32, fate: Fate, out: &mut Vec<u8>) -> Result<(), NoMemory>
    ensures { OnOk result (out.new.items ≡ out.old.items ++ line_of number fate) }
{
    append_decimal(out, u64::from(number))?;
    match fate {
        Fate::Sent(sent) => {
            append(out, b" sent ")?;
            append_decimal(out, u64::from(sent))?;
        }
        Fate::Gone => append(out, b" gone")?,
        Fate::Skipped(why) => {
            append(out, b" skip ")?;
            append(out, reason_text(why).as_bytes())?;
        }
    }
    append(out, b"\n")
}

// A number behind a word.
fn put_count(word: &[u8], count: u32, out: &mut Vec<u8>) -> Result<(), NoMemory>
    ensures { OnOk result (out.new.items ≡ out.old.items ++ (word.now ++ decimal count)) }
{
    append(out, word)?;
    append_decimal(out, u64::from(count))
}

/// `packets N sent N gone N skipped N`.
pub(crate) fn put_sums(counts: Counts, out: &mut Vec<u8>) -> Result<(), NoMemory>
    requires { counts.sent + counts.gone + counts.skipped < 2 ^ 32 }
    ensures { OnOk result (out.new.items ≡ out.old.items
        ++ sums_line (sums_as counts)) }
{
    let total = counts.sent + counts.gone + counts.skipped;
    put_count(b"packets ", total, out)?;
    put_count(b" sent ", counts.sent, out)?;
    put_count(b" gone ", counts.gone, out)?;
    put_count(b" skipped ", counts.skipped, out)?;
    append(out, b"\n")?;
    Ok(())
}

/// `verdict yes`, or `verdict no M`.
pub(crate) fn put_verdict(left: Option<u32>, out: &mut Vec<u8>) -> Result<(), NoMemory>
    ensures { OnOk result (out.new.items ≡ out.old.items ++ verdict_line (verdict_as left)) }
{
    match left {
        None => append(out, b"verdict yes\n"),
        Some(number) => {
            append(out, b"verdict no ")?;
            append_decimal(out, u64::from(number))?;
            append(out, b"\n")
        }
    }
}
