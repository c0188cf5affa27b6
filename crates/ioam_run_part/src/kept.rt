//! The lines of what a collector holds.
ghost use Rattle.std.specs.Prelude.{◌≡◌, ◌≤◌, ◌++◌, List, OnOk, length};
ghost use Rattle.ioam_collect.specs.Collected.{Stands};
ghost use Rattle.ioam_run_answer.specs.Record.{Record};
ghost use Rattle.ioam_part.specs.Part.{AreInOrder};
ghost use Rattle.ioam_run_part.specs.KeptText.{AreLines, kept_line, kept_text, part_lines};

use crate::telling::Source;
use ioam_base::memory::NoMemory;
use ioam_base::text::{append, append_decimal};
use ioam_collect::Collector;
use ioam_report_groups::put_lines;
use ioam_stream::Tail;

// Appends the line that says how many records are kept.
fn put_count(count: u32, out: &mut Vec<u8>) -> Result<(), NoMemory>
    ensures { OnOk result (out.new.items ≡ out.old.items ++ kept_line count) }
{
    append(out, b"kept ")?;
    append_decimal(out, u64::from(count))?;
    append(out, b"\n")
}

// Appends the lines of a collector's groups, and one that says how many records it holds. Without memory something may
// have been appended.
fn put_kept(collector: &Collector, out: &mut Vec<u8>) -> Result<(), NoMemory>
    ensures text { OnOk result (out.new.items ≡ out.old.items ++ kept_text collector.now) }
    // Where the collector stands for the records of a part, these are their lines.
    ensures lines { (xs : List Record) → AreInOrder xs → length xs ≤ 1048576 → Stands collector.now xs → kept_text collector.now ≡ part_lines xs }
{
    put_lines(collector, out)?;
    put_count(collector.held(), out)
}

/// What a collector holds, as lines.
#[derive(Drop)]
pub(crate) struct Lines {
    pub(crate) collector: Collector,
}

impl Source for Lines {
    ghost says = { λ lines text. AreLines lines.collector text };

    ghost left = { λ lines. 0 };

    fn put(&mut self, out: &mut Vec<u8>) -> Result<Tail, NoMemory> {
        put_kept(&self.collector, out)?;
        Ok(Tail::End)
    }
}
