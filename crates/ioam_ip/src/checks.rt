//! Whether options fill a header, and which they are.
ghost use Rattle.std.specs.Prelude.{◌≤◌, ◌<◌, ◌^◌, ◌↔◌, IsOk, IfErr, List, length};
ghost use Rattle.ioam_ip.specs.Options.{Item, AreOptions, IsFilled, UnfitAt};
ghost use Rattle.ioam_ip.specs.OptionList.{HoldsOptions, OnlyOptions};
ghost use Rattle.ioam_ip.specs.OptionsLeft.{options_left};

use crate::items::Options;
use crate::scan::{Scan, look_through};

/// Whether the options of one options header, given with all its octets, fill it exactly (RFC 8200
/// section 4.2). An `Err` has the place of the first option that doesn't fit, counted from the
/// header's first octet.
pub fn check_options(head: &[u8]) -> Result<(), u32>
    requires long { 2 ≤ length head.now }
    requires short { length head.now < 2 ^ 32 }
    ensures ok { IsOk result ↔ IsFilled head.now }
    // The same by what stands first in the header.
    ensures held { IsOk result ↔ ((options : List Item) × HoldsOptions head.now options) }
    ensures err { IfErr result (UnfitAt head.now) }
{
    match look_through(head) {
        Scan::Fills(_) => Ok(()),
        Scan::Unfit(at) => Err(at as u32),
    }
}

/// The options of one options header that [`check_options`] accepts, in order and without paddings.
pub fn options(head: &[u8]) -> Options<'_>
    requires { IsFilled head.now }
    ensures options { AreOptions head.now (options_left result) }
    // The same by what stands first in the header, and a header holds one list of options.
    ensures held { HoldsOptions head.now (options_left result) }
    ensures only { OnlyOptions head.now (options_left result) }
{
    Options { head, at: 2 }
}
