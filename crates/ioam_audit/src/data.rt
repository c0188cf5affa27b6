//! Whether the octets of a trace are what a node may have left of them (RFC 9197 section 4.4.1).
ghost use Rattle.std.specs.Prelude.{◌≡◌, ◌<◌, ◌⊎◌, ◌↔◌, IsTrue, length};
ghost use Rattle.ioam_data.specs.Kind.{undefined};
ghost use Rattle.ioam_trace.specs.Filling.{IsOpen, IsSuitedBy};
ghost use Rattle.ioam_trace.specs.Head.{kind_of};
ghost use Rattle.ioam_audit.specs.Becomes.{MayBecome, may_add};
ghost use Rattle.ioam_audit.specs.Decided.{AddsSo, OverflowsSo};

use crate::added::{is_added, is_overflow, is_refused};
use crate::fit::is_open;
use crate::parts::is_same;
use crate::sight::Sight;

// Whether octets to which a node may add have become these.
fn is_changed(sight: Sight, old: &[u8], new: &[u8]) -> bool
    requires same { length new.now ≡ length old.now }
    requires is_open { IsOpen old.now }
    requires fit { IsSuitedBy may_add old.now }
    ensures { IsTrue result ↔ (((0 < undefined (kind_of old.now)) × (new.now ≡ old.now))
        ⊎ (AddsSo sight.hops sight.id sight.inward old.now new.now ⊎ OverflowsSo old.now new.now)) }
{
    is_refused(old, new) || is_added(sight, old, new) || is_overflow(old, new)
}

/// Whether a node of which `sight` is known may have made the octets `new` of a pre-allocated trace `old`, both those after the
/// IOAM-Option-Type (RFC 9197 section 4.4). Octets that are no trace to which a node may add stay as they are.
pub fn may_become(sight: Sight, old: &[u8], new: &[u8]) -> bool
    requires same { length new.now ≡ length old.now }
    ensures { IsTrue result ↔ MayBecome sight.hops sight.id sight.inward old.now new.now }
{
    if !is_open(old) {
        return is_same(new, old);
    }
    is_changed(sight, old, new)
}
