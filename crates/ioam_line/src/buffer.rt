//! The buffer in which lines are put together, from their end.
ghost use Rattle.std.specs.Prelude.{◌≡◌, ◌+◌, ◌*◌, ◌≤◌, ◌++◌, [], List, ℕ, drop, length, decimal, is_ok, if◌then◌else◌};
ghost use Rattle.ioam_line.specs.Digits.{pair_of, digits_of};
ghost use Rattle.ioam_base.specs.Words.{eight_octets};
ghost use Rattle.ioam_line.specs.Line as line;
ghost use Rattle.ioam_line.specs.Given.{width_of, last_octets, value_of, piece_of, pieces_of};
ghost use Rattle.ioam_line.specs.Line.{Line, form_of, value_text, value_json, value_most, member_json, piece_text, piece_json, piece_octets, piece_most, pieces_octets, pieces_most, beginning, ending, line_octets};

use crate::digits::digit;
use crate::few::put_few_at;
use crate::form::Form;
use crate::piece::{Piece, Value, Width};
use ioam_base::memory::NoMemory;
use ioam_base::octets::{put_at, put_u64_at};
use ioam_base::text::append;
use itoa::write_digits;
use std::marker::Model;

/// `ROOM` octets in which one line after another is put together, each from its end, so that digits are written
/// where they stay. They are never cleared. Contracts see the octets that were put.
#[derive(Drop)]
pub struct LineBuffer<const ROOM: usize> {
    octets: [u8; ROOM],
    start: usize,
}

impl<const ROOM: usize> Model for LineBuffer<ROOM> {
    ghost use Rattle.std.specs.Prelude.{ℕ, ◌≤◌, List, drop};

    ghost Value = { List ℕ };

    ghost view = { λ line. drop line.start line.octets };

    ghost invariant = { λ line. line.start ≤ ROOM };
}

// The octets of a number, the most significant first.
fn eight_octets(number: u64) -> [u8; 8]
    ensures { result ≡ eight_octets number }
{
    let mut octets = [0; 8];
    put_u64_at(&mut octets, 0, number);
    octets
}

impl<const ROOM: usize> LineBuffer<ROOM> {
    /// A buffer in which nothing was put.
    pub fn new() -> LineBuffer<ROOM>
        ensures { result ≡ [] }
    {
        LineBuffer {
            octets: [0; ROOM],
            start: ROOM,
        }
    }

    /// The octets that were put.
    #[inline]
    pub fn octets(&self) -> &[u8]
        ensures { result.now ≡ self.now }
    {
        let octets = &self.octets[..];
        &octets[self.start..]
    }

    /// Forgets the octets that were put.
    #[inline]
    pub fn clear(&mut self)
        ensures { self.new ≡ [] }
    {
        self.start = ROOM;
    }

    // Puts octets before the others.
    #[inline(always)]
    fn put_octets(&mut self, part: &[u8])
        requires { length part.now + length self.old ≤ ROOM }
        ensures value { self.new ≡ part.now ++ self.old }
        ensures size { length self.new ≡ length part.now + length self.old }
    {
        let start = self.start - part.len();
        put_at(&mut self.octets, start, part);
        self.start = start;
    }

    // Puts a few octets, one by one: of a constant they become one or two numbers.
    #[inline(always)]
    fn put_label(&mut self, part: &[u8])
        requires { length part.now + length self.old ≤ ROOM }
        ensures value { self.new ≡ part.now ++ self.old }
        ensures size { length self.new ≡ length part.now + length self.old }
    {
        let start = self.start - part.len();
        put_few_at(&mut self.octets, start, part);
        self.start = start;
    }

    // Puts a number in decimal digits.
    #[inline(always)]
    fn put_number(&mut self, number: u64)
        requires { 20 + length self.old ≤ ROOM }
        ensures value { self.new ≡ decimal number ++ self.old }
        ensures size { length self.new ≤ 20 + length self.old }
    {
        self.start = write_digits(number, &mut self.octets, self.start);
    }

    // Puts the two digits of an octet.
    #[inline]
    fn put_pair(&mut self, octet: u8)
        requires { 2 + length self.old ≤ ROOM }
        ensures value { self.new ≡ pair_of octet ++ self.old }
        ensures size { length self.new ≡ 2 + length self.old }
    {
        let start = self.start - 2;
        self.octets[start + 1] = digit(octet % 16);
        self.octets[start] = digit(octet / 16);
        self.start = start;
    }

    // Puts two digits for each octet.
    fn put_digits(&mut self, octets: &[u8])
        requires { 2 * length octets.now + length self.old ≤ ROOM }
        ensures value { self.new ≡ digits_of octets.now ++ self.old }
        ensures size { length self.new ≡ 2 * length octets.now + length self.old }
    {
        let mut left = octets.len();
        'octets: while left > 0 {
            left -= 1;
            self.put_pair(octets[left]);
        }
    }

    // Puts the digits of the last octets of a number.
    fn put_hex(&mut self, number: u64, width: Width)
        requires { 2 * width_of width + length self.old ≤ ROOM }
        ensures value { self.new ≡ digits_of (last_octets width number) ++ self.old }
        ensures size { length self.new ≡ 2 * width_of width + length self.old }
    {
        let octets = eight_octets(number);
        match width {
            Width::One => self.put_digits(&octets[7..]),
            Width::Two => self.put_digits(&octets[6..]),
            Width::Three => self.put_digits(&octets[5..]),
            Width::Four => self.put_digits(&octets[4..]),
            Width::Eight => self.put_digits(&octets),
        }
    }

    // Puts digits, or `-` for no octets.
    fn put_digits_text(&mut self, octets: &[u8])
        requires { 2 * length octets.now + 1 + length self.old ≤ ROOM }
        ensures value { self.new ≡ value_text (line.digits octets.now) ++ self.old }
        ensures size { length self.new ≤ 2 * length octets.now + 1 + length self.old }
    {
        if octets.is_empty() {
            self.put_label(b"-");
        } else {
            self.put_digits(octets);
        }
    }

    // Puts a value of the text.
    #[inline(always)]
    fn put_value_text(&mut self, value: Value<'_>)
        requires { value_most (value_of value) + length self.old ≤ ROOM }
        ensures value { self.new ≡ value_text (value_of value.entry) ++ self.old }
        ensures size { length self.new ≤ value_most (value_of value.entry) + length self.old }
    {
        match value {
            Value::Unknown => self.put_label(b"-"),
            Value::Number(number) => self.put_number(number),
            Value::Flag(true) => self.put_label(b"yes"),
            Value::Flag(false) => self.put_label(b"no"),
            Value::Hex(number, width) => self.put_hex(number, width),
            Value::Digits(octets) => self.put_digits_text(octets),
            Value::Word(name) => self.put_octets(name),
        }
    }

    // Puts a value of the object.
    #[inline(always)]
    fn put_value_json(&mut self, value: Value<'_>)
        requires { value_most (value_of value) + length self.old ≤ ROOM }
        ensures value { self.new ≡ value_json (value_of value.entry) ++ self.old }
        ensures size { length self.new ≤ value_most (value_of value.entry) + length self.old }
    {
        match value {
            Value::Unknown => self.put_label(b"null"),
            Value::Number(number) => self.put_number(number),
            Value::Flag(true) => self.put_label(b"true"),
            Value::Flag(false) => self.put_label(b"false"),
            Value::Hex(number, width) => {
                self.put_label(b"\"");
                self.put_hex(number, width);
                self.put_label(b"\"");
            }
            Value::Digits(octets) => {
                self.put_label(b"\"");
                self.put_digits(octets);
                self.put_label(b"\"");
            }
            Value::Word(name) => {
                self.put_label(b"\"");
                self.put_octets(name);
                self.put_label(b"\"");
            }
        }
    }

    // Puts a key and its value.
    #[inline(always)]
    fn put_member(&mut self, key: &[u8], value: Value<'_>)
        requires { length key.now + 4 + value_most (value_of value) + length self.old ≤ ROOM }
        ensures value { self.new ≡ member_json key.now (value_of value.entry) ++ self.old }
        ensures size { length self.new ≤ length key.now + 4 + value_most (value_of value.entry) + length self.old }
    {
        self.put_value_json(value);
        self.put_label(b"\":");
        self.put_label(key);
        self.put_label(b",\"");
    }

    // Puts a piece of the text.
    #[inline(always)]
    fn put_text(&mut self, piece: Piece<'_>)
        requires { piece_most (piece_of piece) + length self.old ≤ ROOM }
        ensures value { self.new ≡ piece_text (piece_of piece.entry) ++ self.old }
        ensures size { length self.new ≤ piece_most (piece_of piece.entry) + length self.old }
    {
        match piece {
            Piece::Said(octets) => self.put_label(octets),
            Piece::Told(label, value) => {
                self.put_value_text(value);
                self.put_label(label);
            }
            Piece::Fact(label, _, value) => {
                self.put_value_text(value);
                self.put_label(label);
            }
            Piece::Aside(_, _) => {}
        }
    }

    // Puts a piece of the object.
    #[inline(always)]
    fn put_json(&mut self, piece: Piece<'_>)
        requires { piece_most (piece_of piece) + length self.old ≤ ROOM }
        ensures value { self.new ≡ piece_json (piece_of piece.entry) ++ self.old }
        ensures size { length self.new ≤ piece_most (piece_of piece.entry) + length self.old }
    {
        match piece {
            Piece::Said(_) => {}
            Piece::Told(_, _) => {}
            Piece::Fact(_, key, value) => self.put_member(key, value),
            Piece::Aside(key, value) => self.put_member(key, value),
        }
    }

    /// Puts a piece before the others.
    #[inline(always)]
    pub fn put<const JSON: bool>(&mut self, piece: Piece<'_>)
        requires { piece_most (piece_of piece) + length self.old ≤ ROOM }
        ensures value { self.new ≡ piece_octets (form_of JSON) (piece_of piece.entry) ++ self.old }
        ensures size { length self.new ≤ piece_most (piece_of piece.entry) + length self.old }
    {
        if JSON {
            self.put_json(piece);
        } else {
            self.put_text(piece);
        }
    }

    /// Begins a line with its end, in place of what was put.
    #[inline(always)]
    pub fn end<const JSON: bool>(&mut self)
        requires { 2 ≤ ROOM }
        ensures value { self.new ≡ ending (form_of JSON) }
        ensures size { length self.new ≤ 2 }
    {
        self.clear();
        if JSON {
            self.put_label(b"}\n");
        } else {
            self.put_label(b"\n");
        }
    }

    // Puts what stands before the pieces of a line of a kind.
    #[inline(always)]
    fn begin<const JSON: bool>(&mut self, kind: &[u8])
        requires { length kind.now + 10 + length self.old ≤ ROOM }
        ensures { self.new ≡ beginning (form_of JSON) kind.now ++ self.old }
    {
        if JSON {
            self.put_label(b"\"");
            self.put_label(kind);
            self.put_label(b"{\"line\":\"");
        }
    }

    /// Appends the line of a kind whose pieces and end were put, or leaves what was there.
    #[inline(always)]
    pub fn finish<const JSON: bool>(
        &mut self,
        kind: &[u8],
        out: &mut Vec<u8>,
    ) -> Result<(), NoMemory>
        requires { length kind.now + 10 + length self.old ≤ ROOM }
        ensures { out.new.items ≡ (if is_ok result
            then out.old.items ++ (beginning (form_of JSON) kind.now ++ self.old)
            else out.old.items) }
    {
        self.begin::<JSON>(kind);
        append(out, self.octets())
    }

    // Puts a piece in a form.
    fn put_piece(&mut self, form: Form, piece: Piece<'_>)
        requires { piece_most (piece_of piece) + length self.old ≤ ROOM }
        ensures value { self.new ≡ piece_octets form (piece_of piece.entry) ++ self.old }
        ensures size { length self.new ≤ piece_most (piece_of piece.entry) + length self.old }
    {
        match form {
            Form::Text => self.put::<false>(piece),
            Form::Json => self.put::<true>(piece),
        }
    }

    // Puts pieces before the others, in order.
    fn put_pieces(&mut self, form: Form, pieces: &[Piece<'_>])
        requires { pieces_most (pieces_of pieces.now) + length self.old ≤ ROOM }
        ensures value { self.new ≡ pieces_octets form (pieces_of pieces.now) ++ self.old }
        ensures size { length self.new ≤ pieces_most (pieces_of pieces.now) + length self.old }
    {
        let mut left = pieces.len();
        'pieces: while left > 0 {
            left -= 1;
            self.put_piece(form, pieces[left]);
        }
    }

    /// Appends a line of a kind, or leaves what was there.
    pub fn append_line(
        &mut self,
        form: Form,
        kind: &[u8],
        pieces: &[Piece<'_>],
        out: &mut Vec<u8>,
    ) -> Result<(), NoMemory>
        requires { pieces_most (pieces_of pieces.now) + length kind.now + 12 ≤ ROOM }
        ensures { out.new.items ≡ (if is_ok result
            then out.old.items ++ line_octets form (record { kind = kind.now; pieces = pieces_of pieces.now })
            else out.old.items) }
    {
        match form {
            Form::Text => {
                self.end::<false>();
                self.put_pieces(form, pieces);
                self.finish::<false>(kind, out)
            }
            Form::Json => {
                self.end::<true>();
                self.put_pieces(form, pieces);
                self.finish::<true>(kind, out)
            }
        }
    }
}
