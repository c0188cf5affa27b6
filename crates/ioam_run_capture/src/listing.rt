//! The text of a command that lists something of each packet, gathered record by record.
ghost use Rattle.std.specs.Prelude.{◌≡◌, ◌++◌, List, OnOk};
ghost use Rattle.ioam_run_stream.specs.Reader.{taken_of};
ghost use Rattle.ioam_ip.specs.Packet.{IsPacket};
ghost use Rattle.ioam_run_capture.specs.Listing.{IsFresh};
ghost use Rattle.ioam_run_capture.specs.ListText.{EntryLines, PacketLines, skip_line, packets_line};

use crate::packet_text::PacketText;
use ioam_base::memory::NoMemory;
use ioam_base::text::{append, append_decimal};
use ioam_desk_outputs::Output;
use ioam_ip::{Walk, walk};
use ioam_node::{Reason, packet_or_reason};
use ioam_pcap::{Link, Packet};
use ioam_report::reason_text;
use ioam_run_stream::{Gather, framed};
use std::marker::PhantomData;

/// How many packets were listed so far. Its output is the report.
#[derive(Drop)]
pub struct Listing<L> {
    pub packets: u64,
    /// What is written of each packet.
    pub text: PhantomData<L>,
}

/// Before the first packet.
pub fn none_listed<L: PacketText>() -> Listing<L>
    ensures { IsFresh result }
{
    Listing {
        packets: 0,
        text: PhantomData,
    }
}

impl<L: PacketText> Gather for Listing<L> {
    ghost use Rattle.ioam_run_capture.specs.Listing.{Lists, heads, sums, listed, IsFresh, IsFresh-none, Lists-begins, Lists-ends, heads-sized, sums-sized};
    ghost use Rattle.ioam_run_capture.specs.ListText.{ListTexts};

    ghost width = { 1 };

    ghost gathers = { λ begun. Lists L.tells };

    ghost count = { listed };

    ghost fresh = { IsFresh };

    ghost heads = { heads };

    ghost sums = { sums };

    ghost texts = { λ begun. ListTexts L.tells };

    fn begin(&self, _outputs: &mut [Output]) -> Result<(), NoMemory> {
        Ok(())
    }

    fn taken(&self) -> u64 {
        self.packets
    }

    fn take(
        &mut self,
        link: Link,
        captured: &Packet<'_>,
        outputs: &mut [Output],
    ) -> Result<(), NoMemory> {
        put_entry::<L>(self.packets + 1, link, captured, &mut outputs[0].gathered)?;
        self.packets += 1;
        Ok(())
    }

    fn put_sums(&self, outputs: &mut [Output]) -> Result<(), NoMemory> {
        put_count(self.packets, &mut outputs[0].gathered)
    }

    ghost begins = { Lists-begins L.tells };

    ghost none = { IsFresh-none };

    ghost ends = { λ begun. Lists-ends L.tells };

    ghost heads_sized = { heads-sized };

    ghost sized = { sums-sized };
}

// `packets N`
fn put_count(packets: u64, out: &mut Vec<u8>) -> Result<(), NoMemory>
    ensures { OnOk result (out.new.items ≡ out.old.items ++ packets_line packets) }
{
    append(out, b"packets ")?;
    append_decimal(out, packets)?;
    append(out, b"\n")
}

// Appends the lines of one record.
fn put_entry<L: PacketText>(
    number: u64,
    link: Link,
    captured: &Packet<'_>,
    out: &mut Vec<u8>,
) -> Result<(), NoMemory>
    ensures { OnOk result ((text : List _) × EntryLines L.tells number (taken_of link captured.now) text
        × (out.new.items ≡ out.old.items ++ text)) }
{
    match packet_or_reason(framed(link, captured)) {
        Ok(packet) => put_packet::<L>(number, packet, out),
        Err(reason) => put_skip(number, reason, out),
    }
}

// Appends the lines of one packet.
fn put_packet<L: PacketText>(number: u64, packet: &[u8], out: &mut Vec<u8>) -> Result<(), NoMemory>
    requires { IsPacket packet.now }
    ensures { OnOk result ((text : List _) × PacketLines L.tells number packet.now text
        × (out.new.items ≡ out.old.items ++ text)) }
{
    match walk(packet) {
        Walk::Whole { .. } => {
            append_decimal(out, number)?;
            L::put(packet, out)
        }
        Walk::Bad { .. } => put_skip(number, Reason::Chain, out),
    }
}

// `N skip REASON`
fn put_skip(number: u64, reason: Reason, out: &mut Vec<u8>) -> Result<(), NoMemory>
    ensures { OnOk result (out.new.items ≡ out.old.items ++ skip_line number reason) }
{
    append_decimal(out, number)?;
    append(out, b" skip ")?;
    append(out, reason_text(reason).as_bytes())?;
    append(out, b"\n")
}
