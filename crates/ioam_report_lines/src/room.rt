//! Room for the lines of a packet's report.
use ioam_line::LineBuffer;

/// Room for each line of a packet's report, save that of an element with filler words or with more than 240
/// octets of opaque data.
pub type ReportLine = LineBuffer<1536>;
