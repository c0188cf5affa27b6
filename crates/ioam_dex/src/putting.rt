//! Direct export data as octets.
ghost use Rattle.std.specs.Prelude.{◌≡◌, ◌+◌, ◌++◌, OnOk, is_ok, length, if◌then◌else◌};
ghost use Rattle.ioam_dex.specs.Direct.{HasItsNumbers, direct_octets};
ghost use Rattle.ioam_dex.specs.Numbers.{numbers_size};

use crate::direct::Direct;
use ioam_base::buffer::Buffer;
use ioam_base::memory::NoMemory;
use ioam_base::text::append;

/// Appends the octets behind the IOAM-Option-Type of a direct export option, the reserved octet 0.
/// The two optional fields are there exactly where the extension flags have them. Without memory
/// `out` is as before.
pub fn put(direct: &Direct, out: &mut Vec<u8>) -> Result<(), NoMemory>
    requires { HasItsNumbers direct.now }
    ensures octets { out.new.items ≡ (if is_ok result then out.old.items ++ direct_octets direct.now 0 else out.old.items) }
    ensures size { OnOk result (length out.new.items ≡ length out.old.items + (8 + numbers_size direct.now.ext)) }
{
    let mut buffer = Buffer::new();
    buffer.two(direct.namespace.0);
    buffer.append(&[direct.flags, direct.ext]);
    buffer.three(direct.kind.bits());
    buffer.append(&[0]);
    buffer.four_if(direct.flow);
    buffer.four_if(direct.seq);
    append(out, buffer.octets())
}
