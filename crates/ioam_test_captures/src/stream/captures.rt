//! A capture of two records, and what a reader shows of it.

// Big-endian, microseconds, IPv6 (link type 229): two records, of 3 and of 0 octets.
const TWO: [u8; 59] = [
    0xa1, 0xb2, 0xc3, 0xd4, 0, 2, 0, 4, 0, 0, 0, 0, 0, 0, 0, 0, 0, 0, 0xff, 0xff, 0, 0, 0, 229, //
    0, 0, 0, 2, 0, 0, 0, 7, 0, 0, 0, 3, 0, 0, 0, 5, 10, 20, 30, //
    0, 0, 0, 3, 0, 0, 0, 0, 0, 0, 0, 0, 0, 0, 1, 0,
];

const TWO_READ: &str = "Head { link: Raw }
Packet(Packet { time: 2000007000, original: 5, octets: [10, 20, 30] })
Packet(Packet { time: 3000000000, original: 256, octets: [] })
whole
";

/// The octets of [`TWO`].
pub(crate) fn two() -> &'static [u8] {
    &TWO
}

/// What a reader of classic captures shows of them.
pub(crate) fn two_read() -> &'static str {
    TWO_READ
}
