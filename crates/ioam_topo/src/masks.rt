//! The bits of an address that a prefix counts.
ghost use Rattle.std.specs.Prelude.{◌≡◌};
ghost use Rattle.ioam_topo.specs.Prefixes.{mask_of, masked, matches};

use crate::prefix::Prefix;

/// The bits of an address of which only so many count, from 128 on all; the others are 0.
pub fn masked(length: u8, bits: u128) -> u128
    ensures { result ≡ masked length bits }
{
    if length == 0 {
        0
    } else {
        let rest = 128_u8.saturating_sub(length);
        (bits >> rest) << rest
    }
}

// The address whose first so many bits are 1, from 128 on all; the others are 0.
pub(crate) fn mask_of(length: u8) -> u128
    ensures { result ≡ mask_of length }
{
    masked(length, u128::MAX)
}

/// Whether an address has the bits of a prefix.
pub fn matches(prefix: Prefix, target: u128) -> bool
    ensures { result ≡ matches prefix target }
{
    masked(prefix.length, target) == prefix.bits
}
