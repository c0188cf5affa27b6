//! The Tunnel Encapsulation Limit (RFC 2473 section 4.1.1).
ghost use Rattle.ioam_tunnel.specs.Limits.{limit_by};
ghost use Rattle.std.specs.Prelude.{◌≡◌};

/// What becomes of the encapsulation limit where a packet is to be enclosed.
#[derive(Clone, Copy, Debug, PartialEq, Eq)]
pub enum Limit {
    /// The outer packet has no such option.
    None,
    /// The outer packet has the option with this number.
    Put(u8),
    /// The packet may not be enclosed once more.
    Refused,
}

/// What becomes of the limit, by the one that was found in the packet and the one that is
/// configured for the tunnel: found 0 it is refused; found n above 0 the outer packet has n - 1;
/// where none was found it has the configured one, if any.
pub fn limit_of(found: Option<u8>, configured: Option<u8>) -> Limit
    ensures { result ≡ limit_by found configured }
{
    match (found, configured) {
        (Some(0), _) => Limit::Refused,
        (Some(number), _) => Limit::Put(number - 1),
        (None, Some(number)) => Limit::Put(number),
        (None, None) => Limit::None,
    }
}
