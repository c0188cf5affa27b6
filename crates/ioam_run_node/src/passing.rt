//! The texts of `node`, gathered record by record.
ghost use Rattle.std.specs.Prelude.{◌≡◌, ◌+◌, ◌<◌, ◌^◌, ◌++◌, OnOk};
ghost use Rattle.ioam_run_node.specs.NodeText.{drop_line, sums_line};

use crate::judging::Judged;
use crate::names::{OUT, REPORT};
use crate::post::Post;
use crate::sending::Sent;
use ioam_base::memory::NoMemory;
use ioam_base::text::{append, append_decimal};
use ioam_desk_outputs::Output;
use ioam_node::Reason;
use ioam_pcap::{Link, Packet, put_head};
use ioam_report::reason_text;
use ioam_run_stream::Gather;
use std::alloc::Global;
use std::mem;

/// How many packets a node has sent and dropped so far, and the memory of the last that it sent, which the
/// next one takes. The outputs are the capture of the packets that it sends, the report, and the export records.
#[derive(Drop)]
pub struct Passing<'a> {
    pub(crate) alloc: Global,
    pub(crate) post: Post<'a>,
    pub(crate) sent: u64,
    pub(crate) dropped: u64,
    pub(crate) spare: Sent,
}

impl Gather for Passing<'_> {
    ghost use Rattle.ioam_run_node.specs.Passing.{Gathers, Texts, heads, sums, taken, IsFresh, IsFresh-none, Gathers-begins, Gathers-ends, heads-sized, sums-sized};

    ghost width = { 3 };

    ghost gathers = { Gathers };

    ghost count = { taken };

    ghost fresh = { IsFresh };

    ghost heads = { heads };

    ghost sums = { sums };

    ghost texts = { Texts };

    fn begin(&self, outputs: &mut [Output]) -> Result<(), NoMemory> {
        put_head(&mut outputs[OUT].gathered)?;
        Ok(())
    }

    fn taken(&self) -> u64 {
        self.sent + self.dropped
    }

    fn take(
        &mut self,
        link: Link,
        captured: &Packet<'_>,
        outputs: &mut [Output],
    ) -> Result<(), NoMemory> {
        let number = self.sent + self.dropped + 1;
        match self.post.judge(link, captured) {
            Judged::Goes(way, packet) => {
                let spare = mem::replace(&mut self.spare, Sent::none(self.alloc));
                let time = captured.time;
                let sent = self
                    .post
                    .send(self.alloc, spare, number, time, way, packet, outputs)?;
                self.spare = sent;
                self.sent += 1;
            }
            Judged::Drops(reason) => {
                put_drop(number, reason, &mut outputs[REPORT].gathered)?;
                self.dropped += 1;
            }
        }
        Ok(())
    }

    fn put_sums(&self, outputs: &mut [Output]) -> Result<(), NoMemory> {
        put_sums(self.sent, self.dropped, &mut outputs[REPORT].gathered)
    }

    ghost begins = { Gathers-begins };

    ghost none = { IsFresh-none };

    ghost ends = { Gathers-ends };

    ghost heads_sized = { heads-sized };

    ghost sized = { sums-sized };
}

// `N drop REASON`
fn put_drop(number: u64, reason: Reason, out: &mut Vec<u8>) -> Result<(), NoMemory>
    ensures { OnOk result (out.new.items ≡ out.old.items ++ drop_line number reason) }
{
    append_decimal(out, number)?;
    append(out, b" drop ")?;
    append(out, reason_text(reason).as_bytes())?;
    append(out, b"\n")
}

// `packets N out N dropped N`
fn put_sums(sent: u64, dropped: u64, out: &mut Vec<u8>) -> Result<(), NoMemory>
    requires { sent + dropped < 2 ^ 32 }
    ensures { OnOk result (out.new.items ≡ out.old.items ++ sums_line sent dropped) }
{
    append(out, b"packets ")?;
    append_decimal(out, sent + dropped)?;
    append(out, b" out ")?;
    append_decimal(out, sent)?;
    append(out, b" dropped ")?;
    append_decimal(out, dropped)?;
    append(out, b"\n")
}
