//! What becomes of a packet that comes to a node.
ghost use Rattle.std.specs.Prelude.{◌≡◌, ◌≤◌, ◌↔◌, IsTrue, IfOk, length};
ghost use Rattle.ioam_run_stream.specs.Reader.{taken_of};
ghost use Rattle.ioam_ip.specs.Chain.{IsSound};
ghost use Rattle.ioam_ip.specs.ChainOptions.{CarriesIoam};
ghost use Rattle.ioam_ip.specs.Packet.{IsPacket};
ghost use Rattle.ioam_topo.specs.Domain.{links, ports};
ghost use Rattle.ioam_topo.specs.Forward.{IsWayFrom};
ghost use Rattle.ioam_run_node.specs.Judged.{IsFit, passage_of};
ghost use Rattle.ioam_run_node.specs.Passage.{Passage, HasPassage, PacketPassage, hops_of, passage_by, way_for};
ghost use Rattle.ioam_run_node.specs.Seat.{seat_of};

use crate::post::Post;
use ioam_ip::{Walk, header, walk};
use ioam_node::{Reason, packet_or_reason, transit};
use ioam_pcap::{Link, Packet};
use ioam_run_stream::framed;
use ioam_topo::Way;

/// A packet that goes on, or the first reason why it is dropped.
#[derive(Clone, Copy)]
pub enum Judged<'a> {
    /// The packet, without what follows it in its frame, and its way.
    Goes(Way, &'a [u8]),
    /// Why it is dropped.
    Drops(Reason),
}

impl Post<'_> {
    /// What becomes of a record of a capture, whose octets begin at this layer.
    pub(crate) fn judge<'p>(&self, link: Link, captured: &Packet<'p>) -> Judged<'p>
        ensures passage { HasPassage (seat_of self.now) (taken_of link captured.now) (passage_of captured.now.time result) }
        ensures fit { IsFit (seat_of self.now) captured.now.octets.now result }
    {
        match packet_or_reason(framed(link, captured)) {
            Ok(packet) => self.judge_packet(packet),
            Err(reason) => Judged::Drops(reason),
        }
    }

    // What becomes of a packet, whenever it came.
    fn judge_packet<'p>(&self, packet: &'p [u8]) -> Judged<'p>
        requires { IsPacket packet.now }
        ensures passage { (time : _) → PacketPassage (seat_of self.now) time packet.now (passage_of time result) }
        ensures fit { IsFit (seat_of self.now) packet.now result }
    {
        match walk(packet) {
            Walk::Bad { .. } => Judged::Drops(Reason::Chain),
            Walk::Whole { ioam, .. } => self.judge_whole(ioam, packet),
        }
    }

    // What becomes of a packet whose chain is whole.
    fn judge_whole<'p>(&self, ioam: bool, packet: &'p [u8]) -> Judged<'p>
        requires packet { IsPacket packet.now }
        requires sound { IsSound packet.now }
        requires ioam { IsTrue ioam ↔ CarriesIoam packet.now }
        ensures passage { (time : _) → passage_of time result ≡ passage_by time packet.now (way_for (seat_of self.now) ioam packet.now) }
        ensures fit { IsFit (seat_of self.now) packet.now result }
    {
        match self.way_for(ioam, packet) {
            Ok(way) => Judged::Goes(way, packet),
            Err(reason) => Judged::Drops(reason),
        }
    }

    // Where a packet goes, or why it doesn't.
    fn way_for(&self, ioam: bool, packet: &[u8]) -> Result<Way, Reason>
        requires { IsPacket packet.now }
        ensures value { result ≡ way_for (seat_of self.now) ioam packet.now }
        ensures hops { IfOk result (λ _. 2 ≤ hops_of packet.now) }
        ensures inside { IfOk result (IsWayFrom (links self.now.domain.now) (ports self.now.domain.now) self.now.node.0) }
    {
        let Some(header) = header(packet) else {
            unreachable!()
        };
        if header.target == self.domain.node(self.node).address {
            return Err(Reason::Local);
        }
        transit(
            self.domain,
            self.node,
            ioam,
            header.hops,
            header.target,
            packet.len(),
        )
    }
}
