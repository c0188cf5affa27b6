//! The lines of packets that leak or hide, and those of the sums.
ghost use Rattle.std.specs.Prelude.{◌≡◌, ◌++◌, ◌<◌, ◌^◌, OnOk};
ghost use Rattle.ioam_ip.specs.Packet.{IsPacket};
ghost use Rattle.ioam_run_leaks.specs.LeaksText.{addresses_text, flow_of, hidden_line, hidden_name, leak_line, sums_line, unseen_line, unseen_lines};
ghost use Rattle.ioam_run_leaks.specs.Counting.{all_of};

use crate::counts::Counts;
use ioam_base::memory::NoMemory;
use ioam_base::text::{append, append_decimal};
use ioam_ip::header;
use ioam_leak_flows::{Flow, leak_word, put_address};
use ioam_leaks::{Hidden, Leak};
use std::alloc::Global;

// The word for why not all of a packet can be seen.
fn hidden_word(why: Hidden) -> &'static str
    ensures { result.now ≡ hidden_name why }
{
    match why {
        Hidden::Esp => "esp",
        Hidden::Ah => "ah",
        Hidden::Fragment => "fragment",
        Hidden::Chain => "chain",
    }
}

/// The flow of a packet that leaks.
pub fn flow_of(packet: &[u8], leak: Leak) -> Flow
    requires { IsPacket packet.now }
    ensures { result ≡ flow_of packet.now leak }
{
    let Some(header) = header(packet) else {
        unreachable!()
    };
    Flow {
        source: header.source,
        target: header.target,
        quotes: match leak {
            Leak::Carries => false,
            Leak::Quotes => true,
        },
    }
}

/// `N carries|quotes S T`
pub fn put_leak(alloc: Global, number: u64, flow: Flow, out: &mut Vec<u8>) -> Result<(), NoMemory>
    ensures { OnOk result (out.new.items ≡ out.old.items ++ leak_line number flow) }
{
    append_decimal(out, number)?;
    append(out, b" ")?;
    append(out, leak_word(flow.quotes).as_bytes())?;
    put_addresses(alloc, flow, out)
}

/// `N hidden esp|ah|fragment|chain S T`
pub fn put_hidden(
    alloc: Global,
    number: u64,
    why: Hidden,
    flow: Flow,
    out: &mut Vec<u8>,
) -> Result<(), NoMemory>
    ensures { OnOk result (out.new.items ≡ out.old.items ++ hidden_line number why flow) }
{
    append_decimal(out, number)?;
    append(out, b" hidden ")?;
    append(out, hidden_word(why).as_bytes())?;
    put_addresses(alloc, flow, out)
}

// ` S T`, and the end of the line
fn put_addresses(alloc: Global, flow: Flow, out: &mut Vec<u8>) -> Result<(), NoMemory>
    ensures { OnOk result (out.new.items ≡ out.old.items ++ addresses_text flow) }
{
    append(out, b" ")?;
    put_address(alloc, flow.source, out)?;
    append(out, b" ")?;
    put_address(alloc, flow.target, out)?;
    append(out, b"\n")
}

// `unseen C REASON`, if there are some
fn put_unseen(count: u64, reason: &str, out: &mut Vec<u8>) -> Result<(), NoMemory>
    ensures { OnOk result (out.new.items ≡ out.old.items ++ unseen_line count reason.now) }
{
    if count == 0 {
        return Ok(());
    }
    append(out, b"unseen ")?;
    append_decimal(out, count)?;
    append(out, b" ")?;
    append(out, reason.as_bytes())?;
    append(out, b"\n")
}

/// A line for each reason why records weren't looked into.
pub fn put_reasons(counts: &Counts, out: &mut Vec<u8>) -> Result<(), NoMemory>
    ensures { OnOk result (out.new.items ≡ out.old.items ++ unseen_lines counts.now) }
{
    put_unseen(counts.not_ipv6, "not-ipv6", out)?;
    put_unseen(counts.cut, "cut", out)?;
    put_unseen(counts.length, "length", out)
}

/// `packets N clean N carries N quotes N hidden N unseen N`
pub fn put_sums(counts: &Counts, out: &mut Vec<u8>) -> Result<(), NoMemory>
    requires { all_of counts.now < 2 ^ 32 }
    ensures { OnOk result (out.new.items ≡ out.old.items ++ sums_line counts.now) }
{
    append(out, b"packets ")?;
    append_decimal(out, counts.all())?;
    append(out, b" clean ")?;
    append_decimal(out, counts.clean)?;
    append(out, b" carries ")?;
    append_decimal(out, counts.carries)?;
    append(out, b" quotes ")?;
    append_decimal(out, counts.quotes)?;
    append(out, b" hidden ")?;
    append_decimal(out, counts.hidden)?;
    append(out, b" unseen ")?;
    append_decimal(out, counts.unseen())?;
    append(out, b"\n")
}
