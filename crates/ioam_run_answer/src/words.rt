//! The words for faults.
ghost use Rattle.std.specs.Prelude.{◌≡◌, ◌++◌, codes, decimal};
ghost use Rattle.ioam_run_answer.specs.Answers.{table_text, why_text, read_why_text, fault_text, export_text, ipfix_text};

use ioam_clock::ReadWhy;
use ioam_dex::ExportFault;
use ioam_ipfix::IpfixFault;
use ioam_pcap::CapFault;
use ioam_topo_entries::{Table, Why};

/// The word for a table of the domain file.
pub fn table_text(table: Table) -> &'static str
    ensures { result.now ≡ table_text table }
{
    match table {
        Table::Top => "top",
        Table::NodeTable => "node",
        Table::LinkTable => "link",
        Table::PortTable => "port",
        Table::RouteTable => "route",
        Table::DataTable => "data",
        Table::FlowTable => "flow",
        Table::ExtraTable => "extra",
    }
}

/// The word for what is wrong with a value of the domain file.
pub fn why_text(why: Why) -> &'static str
    ensures { result.now ≡ why_text why }
{
    match why {
        Why::Text => "text",
        Why::Long => "long",
        Why::Missing => "missing",
        Why::Kind => "kind",
        Why::Range => "range",
        Why::Unknown => "unknown",
        Why::Twice => "twice",
        Why::TooMany => "too-many",
    }
}

/// The word for what is wrong with a line of readings.
pub fn read_why_text(why: ReadWhy) -> &'static str
    ensures { result.now ≡ read_why_text why }
{
    match why {
        ReadWhy::Long => "long",
        ReadWhy::Words => "words",
        ReadWhy::Node => "node",
        ReadWhy::Number => "number",
        ReadWhy::Order => "order",
    }
}

/// How a fault is said: by a word, and the number that was found.
pub struct FaultWord {
    /// The word for it.
    pub word: &'static str,
    /// What stands where it is wrong, or how much there is.
    pub number: u64,
}

fn fault_word(word: &'static str, number: u64) -> FaultWord
    ensures word { result.word.now ≡ word.now }
    ensures number { result.number ≡ number }
{
    FaultWord { word, number }
}

/// The word for a capture's fault.
pub fn capture_word(fault: CapFault) -> FaultWord
    ensures { fault_text fault ≡ result.word.now ++ codes " " ++ decimal result.number }
{
    match fault {
        CapFault::Magic { found } => fault_word("magic", u64::from(found)),
        CapFault::Blocks { limit } => fault_word("blocks", u64::from(limit)),
        CapFault::Order { found } => fault_word("order", u64::from(found)),
        CapFault::Large { found } => fault_word("large", u64::from(found)),
        CapFault::Size { found } => fault_word("size", u64::from(found)),
        CapFault::Trail { found } => fault_word("trail", u64::from(found)),
        CapFault::Kind { found } => fault_word("kind", u64::from(found)),
        CapFault::Face { found } => fault_word("face", u64::from(found)),
        CapFault::Link { found } => fault_word("link", u64::from(found)),
        CapFault::Resolution { found } => fault_word("resolution", u64::from(found)),
        CapFault::RecordLong { found } => fault_word("long", u64::from(found)),
        CapFault::Time { found } => fault_word("time", found),
        CapFault::Short { have } => fault_word("short", u64::from(have)),
    }
}

/// The word for a record's fault.
pub fn export_word(fault: ExportFault) -> FaultWord
    ensures { export_text fault ≡ result.word.now ++ codes " " ++ decimal result.number }
{
    match fault {
        ExportFault::Version { found } => fault_word("version", u64::from(found)),
        ExportFault::Length { found } => fault_word("length", u64::from(found)),
        ExportFault::Element { at } => fault_word("element", u64::from(at)),
        ExportFault::Short { have } => fault_word("short", u64::from(have)),
    }
}

/// The word for a message's fault.
pub fn ipfix_word(fault: IpfixFault) -> FaultWord
    ensures { ipfix_text fault ≡ result.word.now ++ codes " " ++ decimal result.number }
{
    match fault {
        IpfixFault::Version { found } => fault_word("version", u64::from(found)),
        IpfixFault::Length { found } => fault_word("length", u64::from(found)),
        IpfixFault::Set { found } => fault_word("set", u64::from(found)),
        IpfixFault::Template { found } => fault_word("template", u64::from(found)),
        IpfixFault::Field { at } => fault_word("field", u64::from(at)),
        IpfixFault::Short { have } => fault_word("short", u64::from(have)),
    }
}
