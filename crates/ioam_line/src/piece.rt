//! Pieces of lines.
ghost use Rattle.std.specs.Prelude.{◌≡◌, ◌≤◌};
ghost use Rattle.ioam_line.specs.Given.{value_of, known_octets};
ghost use Rattle.ioam_line.specs.Line.{known, value_most};

/// How many octets of a number are shown.
#[derive(Clone, Copy)]
pub enum Width {
    /// The last octet.
    One,
    /// The last two octets.
    Two,
    /// The last three octets.
    Three,
    /// The last four octets.
    Four,
    /// All eight octets.
    Eight,
}

/// What a line says of one thing.
#[derive(Clone, Copy)]
pub enum Value<'a> {
    /// It is not known: `-`, and in JSON `null`.
    Unknown,
    /// A number in decimal digits.
    Number(u64),
    /// `yes` or `no`, and in JSON `true` or `false`.
    Flag(bool),
    /// The last octets of a number, each in two hexadecimal digits; in JSON a string of these.
    Hex(u64, Width),
    /// Each octet in two hexadecimal digits; in JSON a string of these. No octets are `-` in the text.
    Digits(&'a [u8]),
    /// A name; in JSON a string.
    Word(&'a [u8]),
}

impl Value<'_> {
    /// A number, or `Unknown` if it is `ones`, the number that all ones make.
    #[inline(always)]
    pub fn known(number: u64, ones: u64) -> Value<'static>
        ensures value { value_of result ≡ known ones number }
        ensures size { value_most (value_of result) ≤ 20 }
    {
        if number == ones {
            Value::Unknown
        } else {
            Value::Number(number)
        }
    }

    /// The last octets of a number, or `Unknown` if it is `ones`, the number that all ones make.
    #[inline(always)]
    #[tactic(auto, using(crate::proofs::HexLaws::hex_most))]
    pub fn known_hex(number: u64, ones: u64, width: Width) -> Value<'static>
        ensures value { value_of result ≡ known_octets ones width number }
        ensures size { value_most (value_of result) ≤ 20 }
    {
        if number == ones {
            Value::Unknown
        } else {
            Value::Hex(number, width)
        }
    }
}

/// A piece of a line.
#[derive(Clone, Copy)]
pub enum Piece<'a> {
    /// Octets in the text alone.
    Said(&'a [u8]),
    /// A label and a value after it, in the text alone.
    Told(&'a [u8], Value<'a>),
    /// The value's label in the text, its key in JSON, and the value.
    Fact(&'a [u8], &'a [u8], Value<'a>),
    /// A key and a value, in JSON alone.
    Aside(&'a [u8], Value<'a>),
}
