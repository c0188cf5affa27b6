//! Numbers that are written in decimal digits.
ghost use Rattle.std.specs.Prelude.{◌≡◌, ◌↔◌, ◌<◌, ◌+◌, ◌*◌, ◌-◌, ℕ, decimal, Some, None, IfSome, if◌then◌else◌};
ghost use Rattle.std.specs.Char.{is_ascii_digit};
ghost use Rattle.ioam_base.specs.Decimal.{below, digits_below, decimal_below};

// A number with one digit more behind it, where that is below a limit; None where the octet is no
// digit. Ten times a number can take more than 64 bits.
fn with_digit(number: u64, octet: u8, limit: u64) -> Option<u64>
    ensures { result ≡ (if is_ascii_digit octet then below limit (number * 10 + (octet - 48)) else None) }
{
    match octet {
        b'0'..=b'9' => {
            let next = u128::from(number) * 10 + u128::from(octet - b'0');
            if next < u128::from(limit) {
                Some(next as u64)
            } else {
                None
            }
        }
        _ => None,
    }
}

// The number below a limit that digits write.
#[tactic(auto, using(crate::proofs::DecimalLaws::digit_more, crate::proofs::DecimalLaws::digit_stops))]
fn digits_below(digits: &[u8], limit: u64) -> Option<u64>
    requires { 0 < limit }
    ensures { result ≡ digits_below limit 0 digits.now }
{
    let mut number: u64 = 0;
    for octet in digits {
        match with_digit(number, *octet, limit) {
            Some(next) => number = next,
            None => return None,
        }
    }
    Some(number)
}

/// The number below a limit that a text writes in decimal digits, without a zero in front save `0`
/// itself; None for any other text.
pub fn decimal_below(text: &[u8], limit: u64) -> Option<u64>
    ensures value { result ≡ decimal_below limit text.now }
    ensures read { (n : ℕ) → (result ≡ Some n) ↔ ((n < limit) × (text.now ≡ decimal n)) }
    ensures small { IfSome result (λ n. n < limit) }
{
    if limit == 0 || text.is_empty() || (text.len() > 1 && text[0] == b'0') {
        return None;
    }
    digits_below(text, limit)
}
