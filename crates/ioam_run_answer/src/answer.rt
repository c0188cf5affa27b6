//! The exit status and the line of an answer.
ghost use Rattle.std.specs.Prelude.{◌≡◌, ◌++◌, IfOk, codes, decimal, string_bytes};
ghost use Rattle.ioam_run_answer.specs.Answers.{status_of, line_text, domain_text, readings_text, fault_text, export_text, ipfix_text, part_text};

use crate::outcome::Outcome;
use crate::words::{
    FaultWord, capture_word, export_word, ipfix_word, read_why_text, table_text, why_text,
};
use ioam_base::memory::NoMemory;
use ioam_clock::ReadingsFault;
use ioam_dex::ExportFault;
use ioam_ipfix::IpfixFault;
use ioam_part::PartFault;
use ioam_pcap::CapFault;
use ioam_topo_entries::DomainFault;
use std::alloc::Global;

/// The program's exit status for an answer.
pub fn status(outcome: &Outcome) -> u8
    ensures { result ≡ status_of outcome.now }
{
    match outcome {
        Outcome::Done => 0,
        Outcome::Usage => 1,
        Outcome::Names { .. } => 2,
        Outcome::Domain { .. } => 3,
        Outcome::Readings { .. } => 4,
        Outcome::Capture { .. } => 5,
        Outcome::Exports { .. } => 6,
        Outcome::Packets { .. } => 7,
        Outcome::Records { .. } => 8,
        Outcome::ReadFault => 9,
        Outcome::WriteFault => 10,
        Outcome::NoMemory => 11,
        Outcome::Ipfix { .. } => 12,
        Outcome::Part { .. } => 13,
    }
}

/// The line that says an answer, without its line feed.
pub fn line(alloc: Global, outcome: &Outcome) -> Result<String, NoMemory>
    ensures { IfOk result (λ line. string_bytes line ≡ line_text outcome.now) }
{
    match outcome {
        Outcome::Done => text_line(alloc, "done"),
        Outcome::Usage => text_line(alloc, "usage"),
        Outcome::Names { name } => names_line(alloc, name.text()),
        Outcome::Domain { fault } => domain_line(alloc, fault),
        Outcome::Readings { fault } => readings_line(alloc, fault),
        Outcome::Capture { name, at, fault } => capture_line(alloc, name.text(), *at, *fault),
        Outcome::Exports { at, fault } => exports_line(alloc, *at, *fault),
        Outcome::Packets { limit } => number_line(alloc, "packets", *limit),
        Outcome::Records { limit } => number_line(alloc, "records", *limit),
        Outcome::Ipfix { at, fault } => ipfix_line(alloc, *at, *fault),
        Outcome::Part { name, at, fault } => part_line(alloc, name.text(), *at, *fault),
        Outcome::ReadFault => text_line(alloc, "read fault"),
        Outcome::WriteFault => text_line(alloc, "write fault"),
        Outcome::NoMemory => text_line(alloc, "no memory"),
    }
}

// A line of one text.
fn text_line(alloc: Global, text: &str) -> Result<String, NoMemory>
    ensures { IfOk result (λ line. string_bytes line ≡ text.now) }
{
    Ok(String::from_str(alloc, text)?)
}

// A line of a word and a number.
fn number_line(alloc: Global, word: &str, number: u32) -> Result<String, NoMemory>
    ensures { IfOk result (λ line. string_bytes line ≡ word.now ++ codes " " ++ decimal number) }
{
    Ok(format!(in alloc; "{word} {number}")?)
}

// The line of two files of the same name.
fn names_line(alloc: Global, name: &str) -> Result<String, NoMemory>
    ensures { IfOk result (λ line. string_bytes line ≡ codes "names " ++ name.now) }
{
    Ok(format!(in alloc; "names {name}")?)
}

// The line of a faulty domain file.
fn domain_line(alloc: Global, fault: &DomainFault) -> Result<String, NoMemory>
    ensures { IfOk result (λ line. string_bytes line ≡ domain_text fault.now) }
{
    Ok(format!(in alloc;
        "domain {} {} {} {}",
        table_text(fault.table),
        fault.place,
        fault.field.0,
        why_text(fault.why)
    )?)
}

// The line of faulty readings.
fn readings_line(alloc: Global, fault: &ReadingsFault) -> Result<String, NoMemory>
    ensures { IfOk result (λ line. string_bytes line ≡ readings_text fault.now) }
{
    Ok(format!(in alloc; "readings {} {}", fault.line, read_why_text(fault.why))?)
}

// The line of a faulty capture.
fn capture_line(alloc: Global, name: &str, at: u64, fault: CapFault) -> Result<String, NoMemory>
    ensures { IfOk result (λ line. string_bytes line
        ≡ codes "capture " ++ name.now ++ codes " " ++ decimal at ++ codes " " ++ fault_text fault) }
{
    let FaultWord { word, number } = capture_word(fault);
    Ok(format!(in alloc; "capture {name} {at} {word} {number}")?)
}

// The line of a faulty file of export records.
fn exports_line(alloc: Global, at: u64, fault: ExportFault) -> Result<String, NoMemory>
    ensures { IfOk result (λ line. string_bytes line
        ≡ codes "exports " ++ decimal at ++ codes " " ++ export_text fault) }
{
    let FaultWord { word, number } = export_word(fault);
    Ok(format!(in alloc; "exports {at} {word} {number}")?)
}

// The line of a faulty message.
fn ipfix_line(alloc: Global, at: u64, fault: IpfixFault) -> Result<String, NoMemory>
    ensures { IfOk result (λ line. string_bytes line
        ≡ codes "ipfix " ++ decimal at ++ codes " " ++ ipfix_text fault) }
{
    let FaultWord { word, number } = ipfix_word(fault);
    Ok(format!(in alloc; "ipfix {at} {word} {number}")?)
}

// The line of a faulty part.
fn part_line(alloc: Global, name: &str, at: u64, fault: PartFault) -> Result<String, NoMemory>
    ensures { IfOk result (λ line. string_bytes line
        ≡ codes "part " ++ name.now ++ codes " " ++ decimal at ++ codes " " ++ part_text fault) }
{
    let fault = part_fault_line(alloc, fault)?;
    Ok(format!(in alloc; "part {} {} {}", name, at, fault)?)
}

// A part's fault, as its line ends.
fn part_fault_line(alloc: Global, fault: PartFault) -> Result<String, NoMemory>
    ensures { IfOk result (λ line. string_bytes line ≡ part_text fault) }
{
    match fault {
        PartFault::Mark => text_line(alloc, "mark"),
        PartFault::Count { found } => number_line(alloc, "count", found),
        PartFault::Record { fault } => part_record_line(alloc, fault),
        PartFault::Order => text_line(alloc, "order"),
        PartFault::Short { have } => number_line(alloc, "short", have),
        PartFault::Rest => text_line(alloc, "rest"),
    }
}

// A faulty record of a part, as its line ends.
fn part_record_line(alloc: Global, fault: ExportFault) -> Result<String, NoMemory>
    ensures { IfOk result (λ line. string_bytes line ≡ codes "record " ++ export_text fault) }
{
    let FaultWord { word, number } = export_word(fault);
    Ok(format!(in alloc; "record {word} {number}")?)
}
