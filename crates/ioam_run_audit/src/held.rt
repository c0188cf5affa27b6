//! The packet of a record of a capture, copied.
ghost use Rattle.std.specs.Prelude.{◌≡◌, IfOk};
ghost use Rattle.ioam_capture.specs.Reader.{taken_of};
ghost use Rattle.ioam_ip.specs.Packet.{IsPacket};
ghost use Rattle.ioam_run_audit.specs.Cursors.{IsHeld, IsHeldSo};

use ioam_base::memory::NoMemory;
use ioam_ip::{Walk, walk};
use ioam_node::{Reason, packet_or_reason};
use ioam_pcap::{Link, Packet};
use ioam_run_stream::framed;

/// Holds a copy of the packet of a record, whose octets begin at this layer, in place of what was held; or says why the
/// record has none.
pub(crate) fn hold(
    link: Link,
    captured: &Packet<'_>,
    held: &mut Vec<u8>,
) -> Result<Option<Reason>, NoMemory>
    ensures { IfOk result (IsHeld (taken_of link captured.now) held.new.items) }
{
    match packet_or_reason(framed(link, captured)) {
        Ok(packet) => hold_packet(packet, held),
        Err(why) => Ok(Some(why)),
    }
}

// The same of a packet, unless its chain isn't whole.
fn hold_packet(packet: &[u8], held: &mut Vec<u8>) -> Result<Option<Reason>, NoMemory>
    requires { IsPacket packet.now }
    ensures { IfOk result (IsHeldSo packet.now held.new.items) }
{
    match walk(packet) {
        Walk::Bad { .. } => Ok(Some(Reason::Chain)),
        Walk::Whole { .. } => {
            held.clear();
            held.extend_from_slice(packet)?;
            Ok(None)
        }
    }
}
