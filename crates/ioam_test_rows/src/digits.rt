//! Octets by their hexadecimal digits, and words.
use ioam_base::memory::NoMemory;
use ioam_base::name::Name;
use std::alloc::Global;

/// The head of each capture that is written: big-endian, nanoseconds, version 2.4, link type 101.
pub const HEAD: &str = "a1b23c4d00020004000000000000000000040000 00000065";

/// A record of 48 octets at one second.
pub const AT_ONE: &str = "00000001 00000000 00000030 00000030";

/// A packet of 48 octets with 8 octets of UDP header.
pub const UDP: &str =
    "6000000000081140 20010db8000100000000000000000001 20010db8000200000000000000000001 0400040100080000";

/// The octets of hexadecimal digits; `z` is 16 octets of zero, and blanks are for reading.
pub fn octets(alloc: Global, parts: &[&str]) -> Result<Vec<u8>, NoMemory> {
    let mut digits = Vec::new(alloc);
    for part in parts {
        for digit in part.bytes() {
            if digit == b'z' {
                digits.extend_from_slice(&[b'0'; 32])?;
            } else if digit.is_ascii_hexdigit() {
                digits.push(digit)?;
            }
        }
    }
    hex::decode(alloc, &digits).map_err(|_| NoMemory)
}

/// The octets of texts, one after the other.
pub fn text(alloc: Global, parts: &[&str]) -> Result<Vec<u8>, NoMemory> {
    let mut text = Vec::new(alloc);
    for part in parts {
        text.extend_from_slice(part.as_bytes())?;
    }
    Ok(text)
}

/// Words as the program has them.
pub fn words(alloc: Global, texts: &[&str]) -> Result<Vec<Name>, NoMemory> {
    let mut words = Vec::new(alloc);
    for text in texts {
        words.push(Name::new(alloc, text)?)?;
    }
    Ok(words)
}
