//! The lines of what a node did with the IOAM options of a packet.
ghost use Rattle.std.specs.Prelude.{◌≡◌, ◌++◌, ◌+◌, ◌≤◌, length, is_ok, if◌then◌else◌, codes, decimal};
ghost use Rattle.ioam_run_node.specs.NotesText.{done_line, kind_text, note_line, notes_text};

use ioam_base::memory::NoMemory;
use ioam_base::text::{append, settle};
use ioam_line::{LineBuffer, Piece, Value};
use ioam_node_visit::{NodeNote, What};

// The kind of an option.
fn kind_of(direct: bool) -> &'static [u8]
    ensures value { result.now ≡ kind_text direct }
    ensures size { length result.now ≤ 9 }
{
    if direct { b"  direct " } else { b"  trace " }
}

// Puts the kind of the option and its namespace.
fn put_option(note: &NodeNote, line: &mut LineBuffer<128>)
    requires { 48 + length line.old ≤ 128 }
    ensures value { line.new ≡ (kind_text note.now.direct ++ decimal note.now.namespace.0) ++ line.old }
    ensures size { length line.new ≤ 48 + length line.old }
{
    let namespace = Value::Number(u64::from(note.namespace.0));
    line.put::<false>(Piece::Fact(kind_of(note.direct), b"namespace", namespace));
}

// `  trace NS DONE` or `  direct NS DONE`
fn put_done(
    note: &NodeNote,
    done: &[u8],
    line: &mut LineBuffer<128>,
    out: &mut Vec<u8>,
) -> Result<(), NoMemory>
    requires { length done.now ≤ 10 }
    ensures { out.new.items ≡ (if is_ok result then out.old.items ++ done_line note.now.direct note.now.namespace.0 done.now else out.old.items) }
{
    line.end::<false>();
    line.put::<false>(Piece::Fact(b" ", b"action", Value::Word(done)));
    put_option(note, line);
    line.finish::<false>(b"note", out)
}

// `  trace NS added WORDS`
fn put_added(
    note: &NodeNote,
    words: u8,
    line: &mut LineBuffer<128>,
    out: &mut Vec<u8>,
) -> Result<(), NoMemory>
    ensures { out.new.items ≡ (if is_ok result
        then out.old.items ++ done_line note.now.direct note.now.namespace.0 (codes "added " ++ decimal words) else out.old.items) }
{
    line.end::<false>();
    line.put::<false>(Piece::Fact(b"added ", b"words", Value::Number(u64::from(words))));
    line.put::<false>(Piece::Said(b" "));
    put_option(note, line);
    line.finish::<false>(b"note", out)
}

// The line of a note.
fn put_note(note: &NodeNote, line: &mut LineBuffer<128>, out: &mut Vec<u8>) -> Result<(), NoMemory>
    ensures { out.new.items ≡ (if is_ok result then out.old.items ++ note_line note.now else out.old.items) }
{
    match note.what {
        What::Added { words } => put_added(note, words, line, out),
        What::Overflowed => put_done(note, b"overflow", line, out),
        What::AlreadyOver => put_done(note, b"over", line, out),
        What::Unsuited => put_done(note, b"unsuited", line, out),
        What::Unknown => put_done(note, b"unknown", line, out),
        What::Exported => put_done(note, b"exported", line, out),
        What::Short => append(out, b"  option short\n"),
    }
}

/// Appends a line for each note, in order: `  trace NS added WORDS` (4-octet words), `  trace NS overflow`,
/// `over` where Overflow was set before, `unsuited` or `unknown`; `  direct NS exported` or `unknown`; and
/// `  option short` of an option that is too short for its header (RFC 9197 section 4.4, RFC 9326 section 3).
/// Without memory nothing is appended.
pub fn put_notes(notes: &[NodeNote], out: &mut Vec<u8>) -> Result<(), NoMemory>
    ensures { out.new.items ≡ (if is_ok result then out.old.items ++ notes_text notes.now else out.old.items) }
{
    let before = out.len();
    let mut line = LineBuffer::new();
    for note in notes {
        let answer = put_note(note, &mut line, out);
        settle(out, before, answer)?;
    }
    Ok(())
}
