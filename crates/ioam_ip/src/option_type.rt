//! The types by which the options of an options header are told (RFC 8200 section 4.2).
ghost use Rattle.std.specs.Prelude.{◌≡◌};
ghost use Rattle.ioam_ip.specs.Findings.{is_ioam_type};

/// PadN, padding of two octets or more: a type, a length and zeros (RFC 8200 section 4.2).
pub const PADN: u8 = 1;

/// Tunnel Encapsulation Limit (RFC 2473 section 4.1.1).
pub const ENCAPSULATION_LIMIT: u8 = 4;

/// IOAM, whose data stays as it is on the way (RFC 9486 section 3).
pub const IOAM: u8 = 0x11;

/// IOAM, whose data may change on the way (RFC 9486 section 3).
pub const IOAM_CHANGING: u8 = 0x31;

/// Whether options of this type are IOAM options.
pub fn is_ioam_type(kind: u8) -> bool
    ensures { result ≡ is_ioam_type kind }
{
    kind == IOAM || kind == IOAM_CHANGING
}
