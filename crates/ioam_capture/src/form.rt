//! The forms of captures, by their first four octets.
ghost use Rattle.std.specs.Prelude.{◌≡◌, ◌+◌, ◌≤◌, ◌<◌, ◌^◌, ◌++◌, IfOk, length};
ghost use Rattle.ioam_capture.specs.Begins.{Begins, begun_classic, begun_ng, is_section};

use ioam_base::memory::NoMemory;
use ioam_base::octets::u32_at;
use ioam_ng::{NgReader, SECTION};
use ioam_pcap::CaptureReader;
use std::alloc::Global;

/// A capture whose form isn't known yet, or the reader of its form.
#[derive(Drop)]
pub(crate) enum Form {
    /// Fewer than four octets were fed.
    Front { alloc: Global, held: Vec<u8> },
    Classic(CaptureReader),
    Ng(NgReader),
}

// Whether the octets of these two, one behind the other, begin with a section block, as a capture in
// the form pcapng does.
fn is_section(alloc: Global, held: &[u8], piece: &[u8]) -> Result<bool, NoMemory>
    requires few { length held.now < 4 }
    requires four { 4 ≤ length held.now + length piece.now }
    ensures { IfOk result (λ is. is ≡ is_section (held.now ++ piece.now)) }
{
    let mut first = Vec::with_capacity(alloc, 4)?;
    first.extend_from_slice(held)?;
    first.extend_from_slice(&piece[..4 - held.len()])?;
    Ok(u32_at(&first, 0) == SECTION)
}

// A reader of a classic capture that was fed these two, one behind the other.
fn begin_classic(alloc: Global, held: &[u8], piece: &[u8]) -> Result<CaptureReader, NoMemory>
    requires { length held.now + length piece.now < 2 ^ 63 }
    ensures { IfOk result (λ reader. reader ≡ begun_classic (held.now ++ piece.now)) }
{
    let mut reader = CaptureReader::new(alloc)?;
    reader.feed(held)?;
    reader.feed(piece)?;
    Ok(reader)
}

// A reader of a capture in the form pcapng that was fed these two, one behind the other.
fn begin_ng(alloc: Global, held: &[u8], piece: &[u8]) -> Result<NgReader, NoMemory>
    requires { length held.now + length piece.now < 2 ^ 63 }
    ensures { IfOk result (λ reader. reader ≡ begun_ng (held.now ++ piece.now)) }
{
    let mut reader = NgReader::new(alloc)?;
    reader.feed(held)?;
    reader.feed(piece)?;
    Ok(reader)
}

/// The reader of the form that the first four octets of these two say, fed with both.
pub(crate) fn begin(alloc: Global, held: &[u8], piece: &[u8]) -> Result<Form, NoMemory>
    requires few { length held.now < 4 }
    requires four { 4 ≤ length held.now + length piece.now }
    requires fits { length held.now + length piece.now < 2 ^ 63 }
    ensures { IfOk result (Begins (held.now ++ piece.now)) }
{
    if is_section(alloc, held, piece)? {
        Ok(Form::Ng(begin_ng(alloc, held, piece)?))
    } else {
        Ok(Form::Classic(begin_classic(alloc, held, piece)?))
    }
}
