//! Direct export data.
ghost use Rattle.std.specs.Prelude.{◌≡◌};
ghost use Rattle.ioam_c.specs.Direct.{ReadsDirect, direct_of};

use crate::part::{flag, number};
use crate::status::{OK, SHORT};
use ioam_dex::{Direct, read};

/// Direct export data (RFC 9326 section 3.2). Flow ID and Sequence Number have a flag that is 1 if the extension flags have them; if the
/// flag is 0 the number is 0.
#[repr(C)]
#[derive(Clone, Copy, Debug)]
pub struct IoamDirect {
    /// IOAM-Trace-Type, 24 bits: what a node is to export.
    pub kind: u32,
    /// Flow ID, extension flag 0x80.
    pub flow: u32,
    /// Sequence Number, extension flag 0x40.
    pub seq: u32,
    /// Namespace-ID.
    pub namespace: u16,
    /// Flags.
    pub flags: u8,
    /// Extension-Flags.
    pub extensions: u8,
    pub has_flow: u8,
    pub has_seq: u8,
}

/// Reads direct export data, whose octets are those after the IOAM-Option-Type. `OK`: `direct` is what they begin with. `SHORT`: they are
/// fewer than the extension flags ask for, and `direct` stays.
#[unsafe(no_mangle)]
pub extern "C" fn ioam_direct_read(octets: &[u8], direct: &mut IoamDirect) -> u32
    ensures { ReadsDirect octets.now direct.old direct.new result }
{
    match read(octets) {
        Ok(value) => {
            *direct = direct_of(&value);
            OK
        }
        Err(_) => SHORT,
    }
}

// The value as C sees it.
fn direct_of(direct: &Direct) -> IoamDirect
    ensures { result ≡ direct_of direct.now }
{
    IoamDirect {
        kind: direct.kind.bits(),
        flow: number(direct.flow),
        seq: number(direct.seq),
        namespace: direct.namespace.0,
        flags: direct.flags,
        extensions: direct.ext,
        has_flow: flag(direct.flow),
        has_seq: flag(direct.seq),
    }
}
