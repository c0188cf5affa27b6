//! The lines of one IOAM option.
ghost use Rattle.std.specs.Prelude.{◌≡◌, ◌++◌, ◌+◌, ◌<◌, ◌≤◌, ◌^◌, length, codes, is_ok, if◌then◌else◌};
ghost use Rattle.ioam_data.specs.OptionType.{option_type};
ghost use Rattle.ioam_ip.specs.OptionsLeft.{item_of};
ghost use Rattle.ioam_report_options.specs.Appends.{Appends};
ghost use Rattle.ioam_report_options.specs.OptionText.{front_text, proof_text, other_text, SaysBy, Says, Fronted, IsOptionLine};
ghost use Rattle.ioam_report_options.specs.OptionsText.{placed};

use crate::directs::put_direct;
use crate::edges::put_edge;
use crate::front::{Front, finish_line};
use crate::traces::{put_incremental, put_trace};
use ioam_base::memory::NoMemory;
use ioam_data::OptionType;
use ioam_data::option_type::IN_FRONT;
use ioam_ip::Opt;
use ioam_line::{Piece, Value};
use ioam_report_lines::ReportLine;

// A proof of transit, whose octets are printed as they are.
fn put_proof(
    octets: &[u8],
    front: Front,
    line: &mut ReportLine,
    out: &mut Vec<u8>,
) -> Result<(), NoMemory>
    requires { length octets.now ≤ 255 }
    ensures { out.new.items ≡ (if is_ok result
        then out.old.items ++ (front_text front.kind front.at ++ proof_text octets.now)
        else out.old.items) }
{
    line.end::<false>();
    line.put::<false>(Piece::Fact(b"proof ", b"octets", Value::Digits(octets)));
    finish_line(front, line, out)
}

// Data of another Option-Type, likewise.
fn put_other(
    value: u8,
    octets: &[u8],
    front: Front,
    line: &mut ReportLine,
    out: &mut Vec<u8>,
) -> Result<(), NoMemory>
    requires { length octets.now ≤ 255 }
    ensures { out.new.items ≡ (if is_ok result
        then out.old.items ++ (front_text front.kind front.at ++ other_text value octets.now)
        else out.old.items) }
{
    line.end::<false>();
    line.put::<false>(Piece::Fact(b" ", b"octets", Value::Digits(octets)));
    line.put::<false>(Piece::Fact(b"other ", b"type", Value::Number(u64::from(value))));
    finish_line(front, line, out)
}

// Data of fewer than two octets.
fn put_short(front: Front, line: &mut ReportLine, out: &mut Vec<u8>) -> Result<(), NoMemory>
    ensures { out.new.items ≡ (if is_ok result
        then out.old.items ++ (front_text front.kind front.at ++ codes "short\n")
        else out.old.items) }
{
    line.end::<false>();
    line.put::<false>(Piece::Fact(b"", b"data", Value::Word(b"short")));
    finish_line(front, line, out)
}

// What the octets after the Option-Type say.
fn put_typed(
    value: u8,
    octets: &[u8],
    front: Front,
    line: &mut ReportLine,
    out: &mut Vec<u8>,
) -> Result<(), NoMemory>
    requires { length octets.now ≤ 255 }
    ensures { Appends result (Fronted front.kind front.at (SaysBy (option_type value) value octets.now)) out.old.items out.new.items }
{
    match OptionType::of(value) {
        OptionType::PreallocatedTrace => put_trace(octets, front, line, out),
        OptionType::IncrementalTrace => put_incremental(octets, front, line, out),
        OptionType::ProofOfTransit => put_proof(octets, front, line, out),
        OptionType::EdgeToEdge => put_edge(octets, front, line, out),
        OptionType::DirectExport => put_direct(octets, front, line, out),
        OptionType::Unassigned => put_other(value, octets, front, line, out),
    }
}

// What the data of an option says.
fn put_said(
    body: &[u8],
    front: Front,
    line: &mut ReportLine,
    out: &mut Vec<u8>,
) -> Result<(), NoMemory>
    requires { length body.now ≤ 255 }
    ensures { Appends result (Fronted front.kind front.at (Says body.now)) out.old.items out.new.items }
{
    if body.len() < IN_FRONT {
        put_short(front, line, out)
    } else {
        put_typed(body[1], &body[IN_FRONT..], front, line, out)
    }
}

/// Appends the lines of an IOAM option of a header that starts at an offset of the packet, or leaves what was there.
pub(crate) fn put_line(
    start: usize,
    option: &Opt<'_>,
    line: &mut ReportLine,
    out: &mut Vec<u8>,
) -> Result<(), NoMemory>
    requires within { start + option.now.at < 2 ^ 64 }
    requires short { length option.now.body.now ≤ 255 }
    ensures { Appends result (IsOptionLine (placed start (item_of option.now))) out.old.items out.new.items }
{
    let front = Front {
        kind: option.kind,
        at: (start + option.at) as u64,
    };
    put_said(option.body, front, line, out)
}
