//! The answers of a command.
ghost use Rattle.std.specs.Prelude.{◌≡◌, ◌⊎◌};
ghost use Rattle.ioam_run_answer.specs.Bounds.{answered};

use ioam_base::name::Name;
use ioam_clock::ReadingsFault;
use ioam_dex::ExportFault;
use ioam_ipfix::IpfixFault;
use ioam_part::PartFault;
use ioam_pcap::CapFault;
use ioam_stream::Stop;
use ioam_topo_entries::DomainFault;
use std::alloc::Global;

/// What a command answers. [`status`](crate::status) gives each its exit status.
#[derive(Debug, Drop)]
pub enum Outcome {
    /// Every input was read to its end and every output written.
    Done,
    /// The words are none of the forms; nothing was opened.
    Usage,
    /// Two files have the same name: the first that equals an earlier one.
    Names {
        name: Name,
    },
    /// The domain file is faulty: its first fault.
    Domain {
        fault: DomainFault,
    },
    /// The readings are faulty: their first fault.
    Readings {
        fault: ReadingsFault,
    },
    /// A capture's head, record or block is faulty, at this octet of the file, counted from 0.
    Capture {
        name: Name,
        at: u64,
        fault: CapFault,
    },
    /// In EXPORTS the octets from this place on, counted from 0, begin no export record.
    Exports {
        at: u64,
        fault: ExportFault,
    },
    /// More packets arrive than this many: in IN, or of `run` in all captures together.
    Packets {
        limit: u32,
    },
    /// EXPORTS has more records, or more different ones to be grouped, than this many.
    Records {
        limit: u32,
    },
    /// The IPFIX message at this octet of IN, counted from 0, is faulty (RFC 7011 section 3).
    Ipfix {
        at: u64,
        fault: IpfixFault,
    },
    /// A part is none, from this octet of the file on, counted from 0.
    Part {
        name: Name,
        at: u64,
        fault: PartFault,
    },
    /// An input could not be opened or read.
    ReadFault,
    /// An output could not be opened or written.
    WriteFault,
    /// No memory could be had.
    NoMemory,
}

/// The answer that this name equals an earlier one.
pub fn names_outcome(alloc: Global, name: &Name) -> Outcome
    ensures { (result ≡ Outcome.Names name.now) ⊎ (result ≡ Outcome.NoMemory) }
{
    match Name::new(alloc, name.text()) {
        Ok(name) => Outcome::Names { name },
        Err(_) => Outcome::NoMemory,
    }
}

/// The answer that this capture is faulty at this place.
pub fn capture_outcome(alloc: Global, name: &Name, at: u64, fault: CapFault) -> Outcome
    ensures { (result ≡ Outcome.Capture name.now at fault) ⊎ (result ≡ Outcome.NoMemory) }
{
    match Name::new(alloc, name.text()) {
        Ok(name) => Outcome::Capture { name, at, fault },
        Err(_) => Outcome::NoMemory,
    }
}

/// The answer of a run that stopped so; `ended` is that of one that ended.
pub fn answered(stop: Stop, ended: Outcome) -> Outcome
    ensures { result ≡ answered stop ended }
{
    match stop {
        Stop::Ended => ended,
        Stop::ReadFault => Outcome::ReadFault,
        Stop::WriteFault => Outcome::WriteFault,
        Stop::NoMemory => Outcome::NoMemory,
    }
}
