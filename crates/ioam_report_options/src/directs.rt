//! What direct export data says.
ghost use Rattle.std.specs.Prelude.{◌≡◌, ◌≤◌, length};
ghost use Rattle.ioam_report_lines.specs.TraceText.{line_feed};
ghost use Rattle.ioam_report_options.specs.Appends.{Appends};
ghost use Rattle.ioam_report_options.specs.OptionText.{direct_text, DirectSays, Fronted};

use crate::fields::{put_bad, put_plain_narrow};
use crate::front::{Front, finish_line};
use ioam_base::memory::NoMemory;
use ioam_data::option_type::DIRECT_EXPORT;
use ioam_dex::{Direct, read};
use ioam_line::{Piece, Value};
use ioam_report_lines::{ReportLine, put_trace_type};

// Puts the namespace, the type, the flags and the numbers that are there.
#[tactic(auto, unfolding(crate::specs::OptionText::direct_text))]
fn put_value(direct: &Direct, line: &mut ReportLine)
    requires { line.old ≡ line_feed }
    ensures value { line.new ≡ direct_text direct.now }
    ensures size { length line.new ≤ 300 }
{
    put_plain_narrow(b" seq=", b"sequence", direct.seq, line);
    put_plain_narrow(b" flow=", b"flow_id", direct.flow, line);
    let flags = Value::Number(u64::from(direct.flags));
    line.put::<false>(Piece::Fact(b" flags ", b"flags", flags));
    put_trace_type(b" ", direct.kind, line);
    let namespace = Value::Number(u64::from(direct.namespace.0));
    line.put::<false>(Piece::Fact(b"direct ", b"namespace", namespace));
}

/// Appends the line of a direct export option (RFC 9326 section 3.2).
pub(crate) fn put_direct(
    octets: &[u8],
    front: Front,
    line: &mut ReportLine,
    out: &mut Vec<u8>,
) -> Result<(), NoMemory>
    ensures { Appends result (Fronted front.kind front.at (DirectSays octets.now)) out.old.items out.new.items }
{
    match read(octets) {
        Ok(direct) => {
            line.end::<false>();
            put_value(&direct, line);
            finish_line(front, line, out)
        }
        Err(_) => put_bad(DIRECT_EXPORT, front, line, out),
    }
}
