//! The words of reasons.
ghost use Rattle.std.specs.Prelude.{◌≡◌};
ghost use Rattle.ioam_report.specs.RunText.{reason_name};

use ioam_node::Reason;

/// The name of a reason for which a packet is dropped, as reports print it.
pub fn reason_text(reason: Reason) -> &'static str
    ensures { result.now ≡ reason_name reason }
{
    match reason {
        Reason::NotIpv6 => "not-ipv6",
        Reason::Cut => "cut",
        Reason::Length => "length",
        Reason::Chain => "chain",
        Reason::IoamIn => "ioam-in",
        Reason::Local => "local",
        Reason::HopLimit => "hop-limit",
        Reason::NoRoute => "no-route",
        Reason::EncapLimit => "encap-limit",
        Reason::TooBig => "too-big",
        Reason::IoamOut => "ioam-out",
    }
}
