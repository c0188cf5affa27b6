//! The fields of an element, each put before what a line holds.
ghost use Rattle.std.specs.Prelude.{◌≡◌, ◌++◌, ◌+◌, ◌≤◌, length, decimal, codes};
ghost use Rattle.ioam_report_lines.specs.Spaced.{when_there};
ghost use Rattle.ioam_report_lines.specs.FieldsText.{known, known_word, known_wide};

use ioam_line::{LineBuffer, Piece, Value, Width};

// Puts a number, or `-` if it is `ones`, the number that all ones make.
#[inline(always)]
fn put_known<'a, const ROOM: usize>(
    label: &'a [u8],
    key: &'a [u8],
    number: u64,
    ones: u64,
    line: &mut LineBuffer<ROOM>,
)
    requires names { length label.now + length key.now ≤ 26 }
    requires room { 50 + length line.old ≤ ROOM }
    ensures value { line.new ≡ (label.now ++ known ones number) ++ line.old }
    ensures size { length line.new ≤ 50 + length line.old }
{
    line.put::<false>(Piece::Fact(label, key, Value::known(number, ones)));
}

// Puts a hop limit, which is a number always.
#[inline(always)]
fn put_hop<'a, const ROOM: usize>(
    label: &'a [u8],
    key: &'a [u8],
    hop: u8,
    line: &mut LineBuffer<ROOM>,
)
    requires names { length label.now + length key.now ≤ 26 }
    requires room { 50 + length line.old ≤ ROOM }
    ensures value { line.new ≡ (label.now ++ decimal hop) ++ line.old }
    ensures size { length line.new ≤ 50 + length line.old }
{
    line.put::<false>(Piece::Fact(label, key, Value::Number(u64::from(hop))));
}

/// Puts a field of 32 bits in decimal digits.
#[inline(always)]
pub(crate) fn put_number<'a, const ROOM: usize>(
    label: &'a [u8],
    key: &'a [u8],
    field: Option<u32>,
    line: &mut LineBuffer<ROOM>,
)
    requires names { length label.now + length key.now ≤ 26 }
    requires room { 50 + length line.old ≤ ROOM }
    ensures value { line.new ≡ when_there field (λ value. label.now ++ known 4294967295 value) ++ line.old }
    ensures size { length line.new ≤ 50 + length line.old }
{
    match field {
        None => {}
        Some(value) => put_known(label, key, u64::from(value), 0xFFFF_FFFF, line),
    }
}

/// Puts a field of 32 bits in hexadecimal digits.
#[inline]
pub(crate) fn put_word<'a, const ROOM: usize>(
    label: &'a [u8],
    key: &'a [u8],
    field: Option<u32>,
    line: &mut LineBuffer<ROOM>,
)
    requires names { length label.now + length key.now ≤ 26 }
    requires room { 50 + length line.old ≤ ROOM }
    ensures value { line.new ≡ when_there field (λ value. label.now ++ known_word value) ++ line.old }
    ensures size { length line.new ≤ 50 + length line.old }
{
    match field {
        None => {}
        Some(value) => {
            let value = Value::known_hex(u64::from(value), 0xFFFF_FFFF, Width::Four);
            line.put::<false>(Piece::Fact(label, key, value));
        }
    }
}

/// Puts the namespace data of 64 bits (bit 10).
#[inline]
pub(crate) fn put_wide<const ROOM: usize>(field: Option<u64>, line: &mut LineBuffer<ROOM>)
    requires { 50 + length line.old ≤ ROOM }
    ensures value { line.new ≡ when_there field (λ value. codes " wdata=" ++ known_wide value) ++ line.old }
    ensures size { length line.new ≤ 50 + length line.old }
{
    match field {
        None => {}
        Some(value) => {
            let value = Value::known_hex(value, 0xFFFF_FFFF_FFFF_FFFF, Width::Eight);
            line.put::<false>(Piece::Fact(b" wdata=", b"namespace_data_wide", value));
        }
    }
}

/// Puts hop limit and node id (bit 0).
#[inline(always)]
pub(crate) fn put_hop_node<const ROOM: usize>(field: Option<(u8, u32)>, line: &mut LineBuffer<ROOM>)
    requires { 100 + length line.old ≤ ROOM }
    ensures value { line.new ≡ when_there field (λ value. codes " hop=" ++ decimal value.0)
        ++ (when_there field (λ value. codes " node=" ++ known 16777215 value.1) ++ line.old) }
    ensures size { length line.new ≤ 100 + length line.old }
{
    match field {
        None => {}
        Some((hop, node)) => {
            put_known(b" node=", b"node_id", u64::from(node), 0xFF_FFFF, line);
            put_hop(b" hop=", b"hop_limit", hop, line);
        }
    }
}

/// Puts ingress and egress interface (bit 1).
#[inline(always)]
pub(crate) fn put_faces<const ROOM: usize>(field: Option<(u16, u16)>, line: &mut LineBuffer<ROOM>)
    requires { 100 + length line.old ≤ ROOM }
    ensures value { line.new ≡ when_there field (λ value. codes " in=" ++ known 65535 value.0)
        ++ (when_there field (λ value. codes " out=" ++ known 65535 value.1) ++ line.old) }
    ensures size { length line.new ≤ 100 + length line.old }
{
    match field {
        None => {}
        Some((ingress, egress)) => {
            put_known(b" out=", b"egress_if", u64::from(egress), 0xFFFF, line);
            put_known(b" in=", b"ingress_if", u64::from(ingress), 0xFFFF, line);
        }
    }
}

/// Puts hop limit and wide node id (bit 8).
#[inline]
pub(crate) fn put_wide_hop_node<const ROOM: usize>(
    field: Option<(u8, u64)>,
    line: &mut LineBuffer<ROOM>,
)
    requires { 100 + length line.old ≤ ROOM }
    ensures value { line.new ≡ when_there field (λ value. codes " whop=" ++ decimal value.0)
        ++ (when_there field (λ value. codes " wnode=" ++ known 72057594037927935 value.1) ++ line.old) }
    ensures size { length line.new ≤ 100 + length line.old }
{
    match field {
        None => {}
        Some((hop, node)) => {
            put_known(b" wnode=", b"node_id_wide", node, 0xFF_FFFF_FFFF_FFFF, line);
            put_hop(b" whop=", b"hop_limit_wide", hop, line);
        }
    }
}

/// Puts the wide interfaces (bit 9).
#[inline]
pub(crate) fn put_wide_faces<const ROOM: usize>(
    field: Option<(u32, u32)>,
    line: &mut LineBuffer<ROOM>,
)
    requires { 100 + length line.old ≤ ROOM }
    ensures value { line.new ≡ when_there field (λ value. codes " win=" ++ known 4294967295 value.0)
        ++ (when_there field (λ value. codes " wout=" ++ known 4294967295 value.1) ++ line.old) }
    ensures size { length line.new ≤ 100 + length line.old }
{
    match field {
        None => {}
        Some((ingress, egress)) => {
            put_known(
                b" wout=",
                b"egress_if_wide",
                u64::from(egress),
                0xFFFF_FFFF,
                line,
            );
            put_known(
                b" win=",
                b"ingress_if_wide",
                u64::from(ingress),
                0xFFFF_FFFF,
                line,
            );
        }
    }
}
