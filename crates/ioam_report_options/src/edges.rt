//! What edge-to-edge data says.
ghost use Rattle.std.specs.Prelude.{◌≡◌, ◌≤◌, length};
ghost use Rattle.ioam_report_lines.specs.TraceText.{line_feed};
ghost use Rattle.ioam_report_options.specs.Appends.{Appends};
ghost use Rattle.ioam_report_options.specs.OptionText.{edge_text, EdgeSays, Fronted};

use crate::fields::{put_bad, put_plain, put_plain_narrow, put_stamp};
use crate::front::{Front, finish_line};
use ioam_base::memory::NoMemory;
use ioam_data::option_type::EDGE_TO_EDGE;
use ioam_edge::{Edge, read};
use ioam_line::{Piece, Value, Width};
use ioam_report_lines::ReportLine;

// Puts the namespace, the type and the fields that are there.
#[tactic(auto, unfolding(crate::specs::OptionText::edge_text))]
fn put_value(edge: &Edge, line: &mut ReportLine)
    requires { line.old ≡ line_feed }
    ensures value { line.new ≡ edge_text edge.now }
    ensures size { length line.new ≤ 400 }
{
    put_stamp(b" frac=", b"timestamp_fraction", edge.fraction, line);
    put_stamp(b" sec=", b"timestamp_seconds", edge.seconds, line);
    put_plain_narrow(b" seq32=", b"sequence_32", edge.seq32, line);
    put_plain(b" seq64=", b"sequence_64", edge.seq64, line);
    let kind = Value::Hex(u64::from(edge.kind), Width::Two);
    line.put::<false>(Piece::Fact(b" ", b"e2e_type", kind));
    let namespace = Value::Number(u64::from(edge.namespace.0));
    line.put::<false>(Piece::Fact(b"edge ", b"namespace", namespace));
}

/// Appends the line of an edge-to-edge option (RFC 9197 section 4.6).
pub(crate) fn put_edge(
    octets: &[u8],
    front: Front,
    line: &mut ReportLine,
    out: &mut Vec<u8>,
) -> Result<(), NoMemory>
    ensures { Appends result (Fronted front.kind front.at (EdgeSays octets.now)) out.old.items out.new.items }
{
    match read(octets) {
        Ok(edge) => {
            line.end::<false>();
            put_value(&edge, line);
            finish_line(front, line, out)
        }
        Err(_) => put_bad(EDGE_TO_EDGE, front, line, out),
    }
}
