//! The next record of a classic capture, and what is due of it; its head is passed.
ghost use Rattle.std.specs.Prelude.{◌≡◌, ◌≤◌, None, Some, length};
ghost use Rattle.std.specs.Borrow.{sem};
ghost use Rattle.ioam_pcap.specs.Reader.{Waits, HoldsFew, fed, held, link_of};
ghost use Rattle.ioam_capture.specs.Reading.{Classic};
ghost use Rattle.ioam_capture.specs.Reader.{IsDue, KeepsFault, KeepsOn, RestsClassic, SaysFault};

use crate::reader::Step;
use crate::turns::Due;
use ioam_pcap::{CapLook, CapStep, CaptureReader, Link};

// The next record of a capture whose head was read.
fn next_record(reader: &mut CaptureReader, link: Link) -> Step<'_>
    requires { link_of reader.old ≡ Some link }
    ensures* rests { sem 𝓛 (RestsClassic reader.entry result) }
    ensures memory { result ≡ Step.NoMemory → ⊥ }
    ensures faulty { SaysFault (Classic reader.old) result }
{
    match reader.next() {
        CapStep::Packet(packet) => Step::Packet { link, packet },
        CapStep::More => Step::More,
        CapStep::Bad { at, fault } => Step::Bad { at, fault },
        // A head isn't read twice.
        CapStep::Head { .. } => unreachable!(),
    }
}

/// The next record of a capture.
pub(crate) fn next_classic(reader: &mut CaptureReader) -> Step<'_>
    ensures* rests { sem 𝓛 (RestsClassic reader.entry result) }
    ensures memory { result ≡ Step.NoMemory → ⊥ }
    ensures faulty { SaysFault (Classic reader.old) result }
{
    if let Some(link) = reader.link() {
        return next_record(reader, link);
    }
    match reader.next() {
        CapStep::Head { link } => next_record(reader, link),
        CapStep::More => Step::More,
        CapStep::Bad { at, fault } => Step::Bad { at, fault },
        // No record is read before the head.
        CapStep::Packet(_) => unreachable!(),
    }
}

// What is due where more octets are needed.
fn waiting(reader: &CaptureReader, ended: bool) -> Due
    requires { Waits reader.now }
    ensures due { IsDue (Classic reader.now) ended result }
    ensures few { result ≡ Due.More → HoldsFew reader.now }
{
    if !ended {
        return Due::More;
    }
    match reader.finish() {
        None => Due::End,
        Some((at, fault)) => Due::Bad { at, fault },
    }
}

// What is due behind the head.
fn due_record(reader: &CaptureReader, ended: bool) -> Due
    requires { link_of reader.now ≡ None → ⊥ }
    ensures due { IsDue (Classic reader.now) ended result }
    ensures few { result ≡ Due.More → HoldsFew reader.now }
{
    match reader.look() {
        CapLook::Packet { time, .. } => Due::Record { time },
        CapLook::Bad { at, fault } => Due::Bad { at, fault },
        CapLook::More => waiting(reader, ended),
        // A head isn't due twice.
        CapLook::Head { .. } => Due::End,
    }
}

/// What is due of a capture.
pub(crate) fn due_classic(reader: &mut CaptureReader, ended: bool) -> Due
    ensures due { IsDue (Classic reader.old) ended result }
    ensures stands { KeepsOn (Classic reader.old) (Classic reader.new) }
    ensures faulty { KeepsFault (Classic reader.old) (Classic reader.new) }
    ensures few { result ≡ Due.More → HoldsFew reader.new }
    ensures fed { fed reader.new ≡ fed reader.old }
    ensures kept { length reader.new.pending ≤ length reader.old.pending }
    ensures held { held reader.new ≡ held reader.old }
{
    if reader.link().is_some() {
        return due_record(reader, ended);
    }
    match reader.next() {
        CapStep::Head { .. } => due_record(reader, ended),
        CapStep::More => waiting(reader, ended),
        CapStep::Bad { at, fault } => Due::Bad { at, fault },
        // No record is read before the head.
        CapStep::Packet(_) => unreachable!(),
    }
}
