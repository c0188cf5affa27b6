//! Texts that are appended whole or not at all.
ghost use Rattle.std.specs.Prelude.{◌≡◌, ◌++◌, decimal, is_ok, if◌then◌else◌, take};

use crate::memory::NoMemory;
use itoa::Buffer;

/// Appends octets, or leaves what was there.
pub fn append(out: &mut Vec<u8>, octets: &[u8]) -> Result<(), NoMemory>
    ensures { out.new.items ≡ (if is_ok result then out.old.items ++ octets.now else out.old.items) }
{
    out.extend_from_slice(octets)?;
    Ok(())
}

/// Appends a number in decimal digits, without a leading zero save `0` itself.
pub fn append_decimal(out: &mut Vec<u8>, number: u64) -> Result<(), NoMemory>
    ensures { out.new.items ≡ (if is_ok result then out.old.items ++ decimal number else out.old.items) }
{
    let mut digits = Buffer::new();
    append(out, digits.format(number).as_bytes())
}

/// Hands an answer on. Where it is a refusal, what was appended from a place on is taken back.
pub fn settle(
    out: &mut Vec<u8>,
    before: usize,
    answer: Result<(), NoMemory>,
) -> Result<(), NoMemory>
    ensures answer { is_ok result ≡ is_ok answer }
    ensures kept { out.new.items ≡ (if is_ok result then out.old.items else take before out.old.items) }
{
    match answer {
        Ok(()) => Ok(()),
        Err(NoMemory) => {
            out.truncate(before);
            Err(NoMemory)
        }
    }
}

/// Appends octets and others behind them, or leaves what was there.
pub fn append_two(out: &mut Vec<u8>, first: &[u8], second: &[u8]) -> Result<(), NoMemory>
    ensures { out.new.items ≡ (if is_ok result then out.old.items ++ (first.now ++ second.now) else out.old.items) }
{
    let before = out.len();
    append(out, first)?;
    let answer = append(out, second);
    settle(out, before, answer)
}
