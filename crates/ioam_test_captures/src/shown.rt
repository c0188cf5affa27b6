//! What a reader shows of a capture that is fed in pieces. The readers' calls stand behind a trait
//! without contracts, so that what goes through it is soon proved.
ghost use Rattle.std.specs.Prelude.{◌<◌};

use ioam_capture::{Reader, Step};
use ioam_pcap::{CapFault, CapStep, CaptureReader};
use std::alloc::Global;
use std::test::Fail;

/// How a capture ends: where it is faulty, and how, or whole.
type End = Option<(u64, CapFault)>;

/// A reader of captures.
pub(crate) trait Shows {
    /// Feeds it a piece.
    fn take(&mut self, piece: &[u8]) -> Result<(), Fail>;

    /// Shows what it reads next, or says that nothing is there.
    fn show_next(&mut self, alloc: Global, text: &mut String) -> Result<bool, Fail>;

    /// How the capture ends.
    fn end(&mut self) -> Result<End, Fail>;
}

impl Shows for Reader {
    fn take(&mut self, piece: &[u8]) -> Result<(), Fail> {
        if self.fed() > 1_000_000_000 || piece.len() > 65_536 {
            return Err(Fail::from("too many octets"));
        }
        self.feed(piece)?;
        Ok(())
    }

    fn show_next(&mut self, alloc: Global, text: &mut String) -> Result<bool, Fail> {
        let step = self.next();
        if matches!(step, Step::More | Step::Bad { .. } | Step::NoMemory) {
            return Ok(false);
        }
        text.push_str(&format!(in alloc; "{step:?}\n")?)?;
        Ok(true)
    }

    fn end(&mut self) -> Result<End, Fail> {
        match self.next() {
            Step::More => Ok(self.finish()),
            Step::Bad { at, fault } => Ok(Some((at, fault))),
            _ => Err(Fail::from("not at its end")),
        }
    }
}

impl Shows for CaptureReader {
    fn take(&mut self, piece: &[u8]) -> Result<(), Fail> {
        if self.fed() > 1_000_000_000 || piece.len() > 65_536 {
            return Err(Fail::from("too many octets"));
        }
        self.feed(piece)?;
        Ok(())
    }

    fn show_next(&mut self, alloc: Global, text: &mut String) -> Result<bool, Fail> {
        let step = self.next();
        if matches!(step, CapStep::More | CapStep::Bad { .. }) {
            return Ok(false);
        }
        text.push_str(&format!(in alloc; "{step:?}\n")?)?;
        Ok(true)
    }

    fn end(&mut self) -> Result<End, Fail> {
        match self.next() {
            CapStep::More => Ok(self.finish()),
            CapStep::Bad { at, fault } => Ok(Some((at, fault))),
            _ => Err(Fail::from("not at its end")),
        }
    }
}

/// Shows the records that are there.
pub(crate) fn show<S: Shows>(alloc: Global, reader: &mut S, text: &mut String) -> Result<(), Fail> {
    for _ in 0..100 {
        if !reader.show_next(alloc, text)? {
            return Ok(());
        }
    }
    Err(Fail::from("too many records"))
}

// Shows how a capture ends.
fn show_end(alloc: Global, end: End, text: &mut String) -> Result<(), Fail> {
    match end {
        None => text.push_str("whole\n")?,
        Some((at, fault)) => text.push_str(&format!(in alloc; "{fault:?} at {at}\n")?)?,
    }
    Ok(())
}

// Whether a reader that is fed a capture in pieces of one size shows this.
fn is_outlined<S: Shows>(
    alloc: Global,
    reader: &mut S,
    capture: &[u8],
    size: usize,
    wanted: &str,
) -> Result<bool, Fail>
    requires { 0 < size }
{
    let mut text = String::new(alloc);
    for piece in capture.chunks(size) {
        reader.take(piece)?;
        show(alloc, reader, &mut text)?;
    }
    show_end(alloc, reader.end()?, &mut text)?;
    Ok(text.as_str() == wanted)
}

// These lines as one text.
fn joined(alloc: Global, lines: &[&str]) -> Result<String, Fail> {
    let mut text = String::new(alloc);
    for line in lines {
        text.push_str(line)?;
        text.push_str("\n")?;
    }
    Ok(text)
}

/// Whether a capture is shown as these lines, octet by octet, in pieces of 7 octets, and whole.
pub(crate) fn is_shown(alloc: Global, capture: &[u8], lines: &[&str]) -> Result<bool, Fail> {
    let wanted = joined(alloc, lines)?;
    for size in [1, 7, 65_536] {
        let mut reader = Reader::new(alloc)?;
        if !is_outlined(alloc, &mut reader, capture, size, &wanted)? {
            return Ok(false);
        }
    }
    Ok(true)
}

/// Whether captures that are cut to so many octets are shown so.
pub(crate) fn all_are_shown(
    alloc: Global,
    cases: &[(&[u8], usize, &[&str])],
) -> Result<bool, Fail> {
    for (capture, octets, lines) in cases {
        let cut = capture.get(..*octets).ok_or("too short")?;
        if !is_shown(alloc, cut, lines)? {
            return Ok(false);
        }
    }
    Ok(true)
}

/// Whether a classic capture is shown so, its head too, in pieces of these sizes.
pub(crate) fn is_classic(
    alloc: Global,
    capture: &[u8],
    sizes: &[usize],
    wanted: &str,
) -> Result<bool, Fail> {
    for size in sizes {
        let mut reader = CaptureReader::new(alloc)?;
        if *size == 0 || !is_outlined(alloc, &mut reader, capture, *size, wanted)? {
            return Ok(false);
        }
    }
    Ok(true)
}
