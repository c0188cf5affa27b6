//! What begins the line of an option.
ghost use Rattle.std.specs.Prelude.{◌≡◌, ◌++◌, ◌≤◌, length, is_ok, if◌then◌else◌};
ghost use Rattle.ioam_report_options.specs.OptionText.{front_text};

use ioam_base::memory::NoMemory;
use ioam_line::{Piece, Value};
use ioam_report_lines::ReportLine;

/// What begins the line of an option.
#[derive(Clone, Copy)]
pub(crate) struct Front {
    /// The option's type.
    pub(crate) kind: u8,
    /// The offset of its type octet in the packet.
    pub(crate) at: u64,
}

/// Appends the line of an option whose last words and line feed were put, or leaves what was there.
pub(crate) fn finish_line(
    front: Front,
    line: &mut ReportLine,
    out: &mut Vec<u8>,
) -> Result<(), NoMemory>
    requires { length line.old ≤ 1400 }
    ensures { out.new.items ≡ (if is_ok result
        then out.old.items ++ (front_text front.kind front.at ++ line.old)
        else out.old.items) }
{
    line.put::<false>(Piece::Said(b" "));
    line.put::<false>(Piece::Fact(b" at ", b"offset", Value::Number(front.at)));
    line.put::<false>(Piece::Fact(b"  ", b"option_type", Value::Digits(&[front.kind])));
    line.finish::<false>(b"option", out)
}
