//! Whether the fields of an element are those that a node may write (RFC 9197 section 4.4.2).
ghost use Rattle.std.specs.Prelude.{◌≡◌, ◌≤◌, ◌⊎◌, ◌↔◌, IsTrue, IfSome, All, Some};
ghost use Rattle.ioam_data.specs.Fields.{held};
ghost use Rattle.ioam_data.specs.Written.{narrow_face, narrow_id};
ghost use Rattle.ioam_audit.specs.Lawful.{ComesBy, IsLawful};

use crate::sight::Sight;
use ioam_data::{Fields, narrow_face, narrow_id};

// An interface as bit 1 has it, in 16 bits.
fn short_face(face: u32) -> u16
    ensures { result ≡ narrow_face (Some face) }
{
    narrow_face(Some(face)) as u16
}

// Whether bit 0 has the hop limit and the id.
fn is_hop_node(sight: Sight, hop_node: Option<(u8, u32)>) -> bool
    ensures { IsTrue result ↔ IfSome hop_node (λ pair. (pair.0 ≡ sight.hops) × (pair.1 ≡ narrow_id sight.id)) }
{
    match hop_node {
        Some((hops, id)) => hops == sight.hops && id == narrow_id(sight.id),
        None => true,
    }
}

// Whether bit 8 has them.
fn is_wide_hop_node(sight: Sight, hop_node: Option<(u8, u64)>) -> bool
    ensures { IsTrue result ↔ IfSome hop_node (λ pair. (pair.0 ≡ sight.hops) × (pair.1 ≡ sight.id)) }
{
    match hop_node {
        Some((hops, id)) => hops == sight.hops && id == sight.id,
        None => true,
    }
}

// Whether bit 1 has this interface inward.
fn has_inward(faces: Option<(u16, u16)>, narrow: u16) -> bool
    ensures { IsTrue result ↔ IfSome faces (λ pair. pair.0 ≡ narrow) }
{
    match faces {
        Some((inward, _)) => inward == narrow,
        None => true,
    }
}

// Whether bit 9 has this interface inward.
fn has_wide_inward(faces: Option<(u32, u32)>, wide: u32) -> bool
    ensures { IsTrue result ↔ IfSome faces (λ pair. pair.0 ≡ wide) }
{
    match faces {
        Some((inward, _)) => inward == wide,
        None => true,
    }
}

// Whether both have it.
fn comes_by(narrow: u16, wide: u32, fields: &Fields<'_>) -> bool
    ensures { IsTrue result ↔ ComesBy narrow wide (held fields.now) }
{
    has_inward(fields.faces, narrow) && has_wide_inward(fields.wide_faces, wide)
}

// Whether bits 1 and 9 have one interface outward.
fn is_one_outward(faces: Option<(u16, u16)>, wide_faces: Option<(u32, u32)>) -> bool
    ensures { IsTrue result ↔ IfSome faces (λ pair. IfSome wide_faces (λ wide. pair.1 ≡ narrow_face (Some wide.1))) }
{
    match (faces, wide_faces) {
        (Some((_, narrow)), Some((_, wide))) => narrow == short_face(wide),
        _ => true,
    }
}

// Whether bit 4 has a delay that is written so.
fn is_delay(delay: Option<u32>) -> bool
    ensures { IsTrue result ↔ IfSome delay (λ delay. (delay ≤ 2147483648) ⊎ (delay ≡ 4294967295)) }
{
    match delay {
        Some(delay) => delay <= 1 << 31 || delay == u32::MAX,
        None => true,
    }
}

// Whether octets are all ones.
fn is_ones(octets: &[u8]) -> bool
    ensures { IsTrue result ↔ All (λ octet. octet ≡ 255) octets.now }
{
    octets.iter().all(|octet| *octet == 0xFF)
}

// Whether the interfaces are those that a node may write.
fn has_lawful_faces(sight: Sight, fields: &Fields<'_>) -> bool
    ensures { IsTrue result ↔ ((ComesBy (narrow_face (Some sight.inward)) sight.inward (held fields.now) ⊎ ComesBy 65535 4294967295 (held fields.now))
        × IfSome fields.now.faces (λ pair. IfSome fields.now.wide_faces (λ wide. pair.1 ≡ narrow_face (Some wide.1)))) }
{
    let given = comes_by(short_face(sight.inward), sight.inward, fields);
    let absent = comes_by(u16::MAX, u32::MAX, fields);
    (given || absent) && is_one_outward(fields.faces, fields.wide_faces)
}

/// Whether the fields of an element are those that the node may write.
pub(crate) fn is_lawful(sight: Sight, fields: &Fields<'_>) -> bool
    ensures { IsTrue result ↔ IsLawful sight.hops sight.id sight.inward (held fields.now) }
{
    is_hop_node(sight, fields.hop_node)
        && is_wide_hop_node(sight, fields.wide_hop_node)
        && has_lawful_faces(sight, fields)
        && is_delay(fields.delay)
        && is_ones(fields.fill)
}
