//! The JSON form of a line reads back as the line's keys and values (RFC 8259).
#![tactic(auto)]

ghost use Rattle.ioam_line.specs.Line.{Line};
ghost use Rattle.ioam_line_reads.specs.Object.{ReadsBack};
ghost use Rattle.ioam_line_reads.specs.Plain.{IsPlainLine};

/// A line whose words need no escape is written as a text of JSON that is read as its keys and values, each in
/// its place, and a line feed.
pub fn a_line_reads_back()
    ensures { (line : Line) → IsPlainLine line → ReadsBack line }
{}
