//! The numbers of a line.
ghost use Rattle.std.specs.Prelude.{◌≡◌, ◌↔◌, ◌<◌, ◌^◌, IfOk, IfSome, Ok, ℕ};
ghost use Rattle.std.specs.Fmt.{decimal};
ghost use Rattle.ioam_clock.specs.Numbers.{number, maybe};

use crate::fault::ReadWhy;
use ioam_base::digits::decimal_below;

// The number that a word writes in decimal digits, without a zero in front save `0` itself, where
// it is below a limit.
pub(crate) fn number(word: &[u8], limit: u64) -> Result<u64, ReadWhy>
    ensures value { result ≡ number limit word.now }
    ensures written { (n : ℕ) → (result ≡ Ok n) ↔ ((n < limit) × (word.now ≡ decimal n)) }
    ensures small { IfOk result (λ n. n < limit) }
{
    decimal_below(word, limit).ok_or(ReadWhy::Number)
}

// The number that a word writes, or None where the word is `-`.
pub(crate) fn maybe(word: &[u8], limit: u64) -> Result<Option<u64>, ReadWhy>
    ensures value { result ≡ maybe limit word.now }
    ensures small { IfOk result (λ held. IfSome held (λ n. n < limit)) }
{
    if word.len() == 1 && word[0] == b'-' {
        return Ok(None);
    }
    Ok(Some(number(word, limit)?))
}

// The 32-bit number that a word writes, or None where the word is `-`.
pub(crate) fn maybe_u32(word: &[u8]) -> Result<Option<u32>, ReadWhy>
    ensures { result ≡ maybe (2 ^ 32) word.now }
{
    match maybe(word, 1 << 32)? {
        Some(number) => Ok(Some(number as u32)),
        None => Ok(None),
    }
}
