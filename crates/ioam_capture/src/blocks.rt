//! The next packet of a capture in the form pcapng, and what is due of it; blocks without a packet
//! are passed.
ghost use Rattle.std.specs.Prelude.{◌≡◌, ◌≤◌, IfOk, OnErr, length};
ghost use Rattle.std.specs.Borrow.{sem};
ghost use Rattle.ioam_ng.specs.Reader.{Waits, HoldsFew, IsFace};
ghost use Rattle.ioam_ng.specs.Reading.{fed, held};
ghost use Rattle.ioam_capture.specs.Reading.{Ng};
ghost use Rattle.ioam_capture.specs.Reader.{IsDue, KeepsFault, KeepsOn, RestsNg, SaysFault};

use crate::reader::Step;
use crate::turns::Due;
use ioam_base::memory::NoMemory;
use ioam_ng::{NgLook, NgReader, NgStep};

/// The next packet of a capture.
pub(crate) fn next_packet(reader: &mut NgReader) -> Step<'_>
    ensures* rests { sem 𝓛 (RestsNg reader.entry result) }
    ensures faulty { SaysFault (Ng reader.old) result }
{
    match reader.next() {
        NgStep::Packet { link, packet } => Step::Packet { link, packet },
        NgStep::More => Step::More,
        NgStep::Bad { at, fault } => Step::Bad { at, fault },
        NgStep::NoMemory => Step::NoMemory,
    }
}

// What is due where more octets are needed.
fn waiting(reader: &NgReader, ended: bool) -> Due
    requires { Waits reader.now }
    ensures { IsDue (Ng reader.now) ended result }
{
    if !ended {
        return Due::More;
    }
    match reader.finish() {
        None => Due::End,
        Some((at, fault)) => Due::Bad { at, fault },
    }
}

/// What is due of a capture.
pub(crate) fn due_packet(reader: &mut NgReader, ended: bool) -> Result<Due, NoMemory>
    ensures due { IfOk result (IsDue (Ng reader.old) ended) }
    ensures stands { KeepsOn (Ng reader.old) (Ng reader.new) }
    ensures faulty { KeepsFault (Ng reader.old) (Ng reader.new) }
    ensures few { IfOk result (λ due. due ≡ Due.More → HoldsFew reader.new) }
    ensures fed { fed reader.new ≡ fed reader.old }
    ensures kept { length reader.new.pending ≤ length reader.old.pending }
    ensures held { held reader.new ≡ held reader.old }
    ensures memory { OnErr result (IsFace reader.new) }
{
    match reader.pass()? {
        NgLook::Packet { time } => Ok(Due::Record { time }),
        NgLook::More => Ok(waiting(reader, ended)),
        NgLook::Bad { at, fault } => Ok(Due::Bad { at, fault }),
    }
}
