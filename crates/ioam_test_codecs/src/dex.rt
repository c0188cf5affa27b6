//! Direct export data and export records.
ghost use Rattle.std.specs.Prelude.{◌<◌, ◌≡◌};
ghost use Rattle.ioam_dex.specs.Direct.{HasItsNumbers};

use ioam_data::{Namespace, TraceType};
use ioam_dex::{
    Direct, DirectFault, ExportFault, ExportReader, ExportRoom, Step, export_of, has_flow, has_seq,
    put, put_export, read,
};
use std::alloc::Global;
use std::test::Fail;

// Octets of namespace 7 and type 0x800000, and their extension flags.
const DIRECT: [(&[u8], u8); 4] = [
    (&[0, 7, 1, 0x00, 0x80, 0, 0, 0], 0),
    (&[0, 7, 1, 0x40, 0x80, 0, 0, 0, 0, 0, 0, 5], 0x40),
    (&[0, 7, 1, 0x80, 0x80, 0, 0, 0, 0, 0, 0, 9], 0x80),
    (
        &[0, 7, 1, 0xC0, 0x80, 0, 0, 0, 0, 0, 0, 9, 0, 0, 0, 5],
        0xC0,
    ),
];

// Octets that are cut off, how many there are, and how many are wanted.
const SHORT: [(&[u8], u32, u32); 3] = [
    (&[0, 7, 0, 0xC0, 0x80, 0, 0, 0, 0, 0, 0, 9], 12, 16),
    (&[0, 7, 0, 0xC0, 0x80, 0, 0], 7, 8),
    (&[0, 7, 0, 0x40, 0x80, 0, 0, 0, 1, 2, 3], 11, 12),
];

// The value of extension flags, its numbers those of DIRECT.
fn direct_of(ext: u8) -> Direct
    ensures { HasItsNumbers result }
{
    let flow = if has_flow(ext) { Some(9) } else { None };
    let seq = if has_seq(ext) { Some(5) } else { None };
    Direct {
        namespace: Namespace(7),
        flags: 1,
        ext,
        kind: TraceType::new(0x80_0000),
        flow,
        seq,
    }
}

// Whether the value of these flags is written so.
fn is_written(alloc: Global, octets: &[u8], ext: u8) -> Result<bool, Fail> {
    let mut out = Vec::new(alloc);
    put(&direct_of(ext), &mut out)?;
    Ok(out.as_slice() == octets)
}

// Whether these octets are read as the value of these flags.
fn is_read(octets: &[u8], ext: u8) -> bool {
    read(octets) == Ok(direct_of(ext))
}

// Whether the values of these flags are written so, and read again.
fn all_are_direct(alloc: Global, cases: &[(&[u8], u8)]) -> Result<bool, Fail> {
    for (octets, ext) in cases {
        if !is_written(alloc, octets, *ext)? || !is_read(octets, *ext) {
            return Ok(false);
        }
    }
    Ok(true)
}

// Whether each of these is refused so.
fn all_are_short(cases: &[(&[u8], u32, u32)]) -> bool {
    for (octets, have, wanted) in cases {
        let fault = DirectFault::Short {
            have: *have,
            wanted: *wanted,
        };
        if read(octets) != Err(fault) {
            return false;
        }
    }
    true
}

#[test]
fn direct_data_is_written_and_read(rt: HostRuntime) -> Result<(), Fail> {
    assert!(rt; all_are_direct(rt.alloc(), &DIRECT)?);
    assert!(rt; all_are_short(&SHORT));
    // The reserved octet is not tested, and what follows is left unread.
    assert!(rt; is_read(&[0, 7, 1, 0, 0x80, 0, 0, 0xFF, 1, 2], 0));
    Ok(())
}

// One record of namespace 7, type 0x800000, flow 9 and sequence number 0: hop limit 64, node 1.
const RECORD: [u8; 22] = [
    1, 0xC0, 0, 0x16, 0, 7, 0, 0x80, 0, 0, 0, 0, 0, 9, 0, 0, 0, 0, 0x40, 0, 0, 1,
];

const RECORD_READ: &str =
    "Export(Export { namespace: Namespace(7), flags: 0, ext: 192, kind: 8388608, visit: None, flow: Some(9), seq: Some(0), element: [64, 0, 0, 1] })
";

// The same of version 2: at the time 1,000,000,000, by the interface 10.
const SECOND: [u8; 34] = [
    2, 0xC0, 0, 0x22, 0, 7, 0, 0x80, 0, 0, 0, 0, 0, 0, 0x3B, 0x9A, 0xCA, 0, 0, 0, 0, 10, 0, 0, 0,
    9, 0, 0, 0, 0, 0x40, 0, 0, 1,
];

const SECOND_READ: &str =
    "Export(Export { namespace: Namespace(7), flags: 0, ext: 192, kind: 8388608, visit: Some((1000000000, 10)), flow: Some(9), seq: Some(0), element: [64, 0, 0, 1] })
";

// One without numbers: hop limit 63, node 2, by the interface 21.
const SECOND_BARE: [u8; 26] = [
    2, 0, 0, 0x1A, 0, 7, 0, 0x80, 0, 0, 0, 0, 0, 0, 0, 0, 0, 5, 0, 0, 0, 0x15, 0x3F, 0, 0, 2,
];

// Records without numbers: of a type with no bit, of one with only an undefined bit, of one with an
// undefined bit more, and with a snapshot of one word, schema 5.
const BARE: [u8; 10] = [1, 0, 0, 10, 0, 7, 2, 0, 0, 0];

const UNDEFINED: [u8; 10] = [1, 0, 0, 10, 0, 7, 2, 0, 8, 0];

const MORE_UNDEFINED: [u8; 14] = [1, 0, 0, 14, 0, 7, 2, 0x80, 8, 0, 0x40, 0, 0, 1];

const SNAPSHOT: [u8; 22] = [
    1, 0, 0, 22, 0, 7, 2, 0x80, 0, 2, 0x40, 0, 0, 1, 1, 0, 0, 5, 0xAA, 0xBB, 0xCC, 0xDD,
];

const RECORDS: [&[u8]; 7] = [
    &RECORD,
    &BARE,
    &UNDEFINED,
    &MORE_UNDEFINED,
    &SNAPSHOT,
    &SECOND,
    &SECOND_BARE,
];

// Whether a record is written as it was read, behind those before it.
fn is_appended(room: &mut ExportRoom, record: &[u8]) -> Result<bool, Fail> {
    let export = export_of(record).ok_or("no record")?;
    if room.spare() < 274 {
        return Err(Fail::from("too little room"));
    }
    let before = room.octets().len();
    put_export(&export, room);
    Ok(room.octets().get(before..) == Some(record))
}

// Whether each record is.
fn all_are_appended(room: &mut ExportRoom, records: &[&[u8]]) -> Result<bool, Fail> {
    for record in records {
        if !is_appended(room, record)? {
            return Ok(false);
        }
    }
    Ok(true)
}

// Whether so many octets of the room are taken, and so many are spare.
fn has_sizes(room: &ExportRoom, taken: usize, spare: usize) -> bool {
    room.octets().len() == taken && room.spare() == spare
}

// The type of the record that these octets are.
fn type_of(octets: &[u8]) -> Option<TraceType> {
    match export_of(octets) {
        Some(export) => Some(export.trace_type()),
        None => None,
    }
}

#[test]
fn records_are_written_and_read(rt: HostRuntime) -> Result<(), Fail> {
    let mut room = ExportRoom::new(rt.alloc(), 600)?;
    assert!(rt; all_are_appended(&mut room, &RECORDS)?);
    assert!(rt; has_sizes(&room, 138, 462));
    room.clear();
    assert!(rt; has_sizes(&room, 0, 600));
    assert!(rt; type_of(&SNAPSHOT) == Some(TraceType::new(0x80_0002)));
    assert!(rt; type_of(&RECORD[..21]).is_none());
    Ok(())
}

// Feeds a reader a piece.
fn take(reader: &mut ExportReader, piece: &[u8]) -> Result<(), Fail> {
    if reader.fed() > 1_000_000 || piece.len() > 65_536 {
        return Err(Fail::from("too many octets"));
    }
    reader.feed(piece)?;
    Ok(())
}

// Shows what a reader reads next, or says that nothing is there.
fn show_next(alloc: Global, reader: &mut ExportReader, text: &mut String) -> Result<bool, Fail> {
    let step = reader.next();
    if matches!(step, Step::More | Step::Bad { .. }) {
        return Ok(false);
    }
    text.push_str(&format!(in alloc; "{step:?}\n")?)?;
    Ok(true)
}

// Shows the records that are there.
fn show(alloc: Global, reader: &mut ExportReader, text: &mut String) -> Result<(), Fail> {
    for _ in 0..100 {
        if !show_next(alloc, reader, text)? {
            return Ok(());
        }
    }
    Err(Fail::from("too many records"))
}

// How an input ends: where it is faulty, and how, or whole.
fn end(reader: &mut ExportReader) -> Result<Option<(u64, ExportFault)>, Fail> {
    match reader.next() {
        Step::More => Ok(reader.finish()),
        Step::Bad { at, fault } => Ok(Some((at, fault))),
        Step::Export(_) => Err(Fail::from("not at its end")),
    }
}

// Shows how an input ends.
fn show_end(alloc: Global, end: Option<(u64, ExportFault)>, text: &mut String) -> Result<(), Fail> {
    match end {
        None => text.push_str("whole\n")?,
        Some((at, fault)) => text.push_str(&format!(in alloc; "{fault:?} at {at}\n")?)?,
    }
    Ok(())
}

// Whether an input that is fed in pieces of one size is shown so, and how it ends.
fn is_outlined(alloc: Global, input: &[u8], size: usize, wanted: &str) -> Result<bool, Fail>
    requires { 0 < size }
{
    let mut reader = ExportReader::new(alloc)?;
    let mut text = String::new(alloc);
    for piece in input.chunks(size) {
        take(&mut reader, piece)?;
        show(alloc, &mut reader, &mut text)?;
    }
    show_end(alloc, end(&mut reader)?, &mut text)?;
    Ok(text.as_str() == wanted)
}

// Whole records and what stands behind them, what is shown of the records, and how they end.
const CASES: [(&[u8], &[u8], &str, &str); 22] = [
    (&[], &[], "", "whole\n"),
    (&RECORD, &[], RECORD_READ, "whole\n"),
    (&RECORD, &[3], RECORD_READ, "Version { found: 3 } at 22\n"),
    (
        &[],
        &[
            1, 0xC0, 0, 0x16, 0, 7, 0, 0x80, 0, 0, 0, 0, 0, 9, 0, 0, 0, 0, 0x40, 0, 0,
        ],
        "",
        "Short { have: 21 } at 0\n",
    ),
    (&[], &[1, 0xC0, 0, 17], "", "Length { found: 17 } at 0\n"),
    (&[], &[1, 0xC0, 0, 18], "", "Short { have: 4 } at 0\n"),
    (&[], &[1, 0xC0, 1, 6], "", "Short { have: 4 } at 0\n"),
    (&[], &[1, 0xC0, 1, 7], "", "Length { found: 263 } at 0\n"),
    (
        &RECORD,
        &[1, 0, 0, 9],
        RECORD_READ,
        "Length { found: 9 } at 22\n",
    ),
    (&[], &[1, 0x40, 1, 2], "", "Short { have: 4 } at 0\n"),
    (&[], &[1, 0x80, 1, 3], "", "Length { found: 259 } at 0\n"),
    (
        &BARE,
        &[],
        "Export(Export { namespace: Namespace(7), flags: 2, ext: 0, kind: 0, visit: None, flow: None, seq: None, element: [] })\n",
        "whole\n",
    ),
    (
        &SNAPSHOT,
        &[],
        "Export(Export { namespace: Namespace(7), flags: 2, ext: 0, kind: 8388610, visit: None, flow: None, seq: None, element: [64, 0, 0, 1, 1, 0, 0, 5, 170, 187, 204, 221] })\n",
        "whole\n",
    ),
    (
        &[],
        &[1, 0, 0, 10, 0, 7, 2, 0x80, 0, 0],
        "",
        "Element { at: 10 } at 0\n",
    ),
    (
        &[],
        &[1, 0, 0, 14, 0, 7, 2, 0, 8, 0, 0, 0, 0, 0],
        "",
        "Element { at: 10 } at 0\n",
    ),
    (
        &[],
        &[1, 0, 0, 18, 0, 7, 2, 0x80, 0, 2, 0x40, 0, 0, 1, 1, 0, 0, 5],
        "",
        "Element { at: 10 } at 0\n",
    ),
    (&SECOND, &[], SECOND_READ, "whole\n"),
    (&SECOND, &[0], SECOND_READ, "Version { found: 0 } at 34\n"),
    (&[], &[2, 0xC0, 0, 29], "", "Length { found: 29 } at 0\n"),
    (&[], &[2, 0xC0, 1, 18], "", "Short { have: 4 } at 0\n"),
    (&[], &[2, 0xC0, 1, 19], "", "Length { found: 275 } at 0\n"),
    (
        &SECOND,
        &[
            2, 0, 0, 0x16, 0, 7, 0, 0x80, 0, 0, 0, 0, 0, 0, 0, 0, 0, 5, 0, 0, 0, 0x15,
        ],
        SECOND_READ,
        "Element { at: 22 } at 34\n",
    ),
];

// Whether an input is shown so, in pieces of one octet, of three, and whole.
fn is_shown(alloc: Global, input: &[u8], wanted: &str) -> Result<bool, Fail> {
    for size in [1, 3, 65_536] {
        if !is_outlined(alloc, input, size, wanted)? {
            return Ok(false);
        }
    }
    Ok(true)
}

// Whether whole records and what stands behind them are shown so.
fn are_shown(
    alloc: Global,
    first: &[u8],
    rest: &[u8],
    read: &str,
    end: &str,
) -> Result<bool, Fail> {
    let mut input = first.to_vec(alloc)?;
    input.extend_from_slice(rest)?;
    let mut wanted = String::new(alloc);
    wanted.push_str(read)?;
    wanted.push_str(end)?;
    is_shown(alloc, &input, &wanted)
}

// Whether each of these is.
fn all_are_shown(alloc: Global, cases: &[(&[u8], &[u8], &str, &str)]) -> Result<bool, Fail> {
    for (first, rest, read, end) in cases {
        if !are_shown(alloc, first, rest, read, end)? {
            return Ok(false);
        }
    }
    Ok(true)
}

#[test]
fn records_are_read_in_any_pieces(rt: HostRuntime) -> Result<(), Fail> {
    assert!(rt; all_are_shown(rt.alloc(), &CASES)?);
    Ok(())
}
