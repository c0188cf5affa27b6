//! The text of an IPv6 address (RFC 5952).
ghost use Rattle.std.specs.Prelude.{◌≡◌, ◌++◌, OnOk};
ghost use Rattle.ioam_leak_flows.specs.Lines.{address_text};

use ioam_base::memory::NoMemory;
use ioam_base::text::append;
use std::alloc::Global;
use std::net::Ipv6Addr;

/// Appends the text of an address, whose first octet is the most significant.
pub fn put_address(alloc: Global, address: u128, out: &mut Vec<u8>) -> Result<(), NoMemory>
    ensures { OnOk result (out.new.items ≡ out.old.items ++ address_text address) }
{
    let text = Ipv6Addr::from_octets(address.to_be_bytes()).to_string(alloc)?;
    append(out, text.as_bytes())
}
