//! The texts of `filter`, gathered record by record.
ghost use Rattle.std.specs.Prelude.{◌≡◌, ◌+◌, ◌<◌, ◌^◌, [], ◌++◌, OnOk};
ghost use Rattle.ioam_run_capture.specs.FilterText.{verdict_line, sums_line};
ghost use Rattle.ioam_run_capture.specs.Verdict.{Verdict};

use crate::judge::{Judgement, judge};
use ioam_base::memory::NoMemory;
use ioam_base::text::{append, append_decimal};
use ioam_desk_outputs::Output;
use ioam_node::Reason;
use ioam_pcap::{Link, Packet, put_head, put_record};
use ioam_report::reason_text;
use ioam_run_stream::Gather;

// The places of the two outputs.
const OUT: usize = 0;

const REPORT: usize = 1;

/// How many packets are kept and dropped so far. Its outputs are the capture of the kept packets and
/// the report.
#[derive(Drop)]
pub struct Filtering {
    pub kept: u64,
    pub dropped: u64,
}

impl Gather for Filtering {
    ghost use Rattle.ioam_run_capture.specs.FilterText.{FilterTexts};
    ghost use Rattle.ioam_run_capture.specs.Filtering.{Gathers, heads, sums, taken, IsFresh, IsFresh-none, Gathers-begins, Gathers-ends, heads-sized, sums-sized};

    ghost width = { 2 };

    ghost gathers = { λ begun. Gathers };

    ghost count = { taken };

    ghost fresh = { IsFresh };

    ghost heads = { heads };

    ghost sums = { sums };

    ghost texts = { λ begun. FilterTexts };

    fn begin(&self, outputs: &mut [Output]) -> Result<(), NoMemory> {
        put_head(&mut outputs[OUT].gathered)?;
        Ok(())
    }

    fn taken(&self) -> u64 {
        self.kept + self.dropped
    }

    fn take(
        &mut self,
        link: Link,
        captured: &Packet<'_>,
        outputs: &mut [Output],
    ) -> Result<(), NoMemory> {
        let number = self.kept + self.dropped + 1;
        match judge(link, captured) {
            Judgement::Kept(octets) => {
                put_record(captured.time, octets, &mut outputs[OUT].gathered)?;
                put_kept(number, &mut outputs[REPORT].gathered)?;
                self.kept += 1;
            }
            Judgement::Dropped(reason) => {
                put_dropped(number, reason, &mut outputs[REPORT].gathered)?;
                self.dropped += 1;
            }
        }
        Ok(())
    }

    fn put_sums(&self, outputs: &mut [Output]) -> Result<(), NoMemory> {
        put_sums(self.kept, self.dropped, &mut outputs[REPORT].gathered)
    }

    ghost begins = { Gathers-begins };

    ghost none = { IsFresh-none };

    ghost ends = { λ begun. Gathers-ends };

    ghost heads_sized = { heads-sized };

    ghost sized = { sums-sized };
}

// `N kept`
fn put_kept(number: u64, out: &mut Vec<u8>) -> Result<(), NoMemory>
    ensures { OnOk result (out.new.items ≡ out.old.items ++ verdict_line number (Verdict.Keeps [])) }
{
    append_decimal(out, number)?;
    append(out, b" kept\n")
}

// `N drop REASON`
fn put_dropped(number: u64, reason: Reason, out: &mut Vec<u8>) -> Result<(), NoMemory>
    ensures { OnOk result (out.new.items ≡ out.old.items ++ verdict_line number (Verdict.Drops reason)) }
{
    append_decimal(out, number)?;
    append(out, b" drop ")?;
    append(out, reason_text(reason).as_bytes())?;
    append(out, b"\n")
}

// `packets N kept N dropped N`
fn put_sums(kept: u64, dropped: u64, out: &mut Vec<u8>) -> Result<(), NoMemory>
    requires { kept + dropped < 2 ^ 32 }
    ensures { OnOk result (out.new.items ≡ out.old.items ++ sums_line kept dropped) }
{
    append(out, b"packets ")?;
    append_decimal(out, kept + dropped)?;
    append(out, b" kept ")?;
    append_decimal(out, kept)?;
    append(out, b" dropped ")?;
    append_decimal(out, dropped)?;
    append(out, b"\n")
}
