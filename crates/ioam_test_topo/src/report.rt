//! Octets by hand, from the formats of RFC 8200 and RFC 9197, as rows of a text: hexadecimal digits, and
//! behind `#` what is told of them.
use ioam_base::memory::NoMemory;
use ioam_data::{TraceType, split};
use ioam_ip::{Framed, Walk, packet_of, walk};
use ioam_report_lines::{put_fields, put_trace_lines, put_traces};
use ioam_test_rows::digits::octets;
use std::alloc::Global;

// Packets, and the text of their traces: one on its way through a tunnel, with a trace of two nodes, and
// behind that the packet that is carried; two traces in one Hop-by-Hop Options header, the second of
// type 0x11 and with Overflow; one in Destination Options, with fewer words than RemainingLen tells;
// IOAM-Option-Type 1; data of one octet; another option; a trace behind a nested header. Each `z` is 16
// octets of zero.
const PACKETS: &str = "60000000 0050 00 3f \
20010db800000000000000000000000a 20010db800000000000000000000000c \
29 03 01 00 31 16 00 00 0007 0801 800000 00 00000000 3f000002 40000001 01 02 00 00 \
60000000 0008 11 3f \
20010db8000100000000000000000001 20010db8000200000000000000000001 0400040100080000\
# traces 1\n  trace 7 800000 whole 2\n    hop=64 node=1\n    hop=63 node=2\n|\
60000000 0028 00 40 zz 3b 04 01 00 31 0e 00 00 0007 0800 800000 00 40000001 \
11 0e 00 00 0008 0c00 800000 00 ff000001 01 02 00 00\
# traces 2\n  trace 7 800000 whole 1\n    hop=64 node=1\n  trace 8 800000 overflow 1\n    hop=255 node=1\n|\
60000000 0018 3c 40 zz 3b 02 01 00 31 0e 00 00 0007 0805 800000 00 00000000 01 02 00 00\
# traces 1\n  trace bad space 5\n|\
60000000 0018 3c 40 zz 3b 02 01 00 31 0e 00 01 0007 0800 800000 00 40000001 01 02 00 00# traces 0\n|\
60000000 0008 3c 40 zz 3b 00 31 01 00 01 01 00# traces 0\n|\
60000000 0008 3c 40 zz 3b 00 12 02 00 00 00 00# traces 0\n|\
60000000 0030 29 40 zz 60000000 0008 00 40 zz 3b 00 31 02 00 00 00 00# traces 0\n";

// The data of a trace, and its lines. Of the last four: a snapshot of which one word is missing;
// RemainingLen equal to the space, and no element; an undefined bit, and a word more than the fields
// and that bit ask for; snapshots of two lengths, where the oldest element stands last.
const TRACES: &str = "00000000 000000#  trace bad short 7\n|\
0007 0800 800000 00 4000#  trace bad short 10\n|\
0007 0801 800000 00#  trace bad space 1\n|\
0007 1000 800000 00#  trace bad node-len 2 1\n|\
0007 0800 800002 00 40000001 02000009 01020304#  trace bad element 8\n|\
ffff 0801 800000 00 40000001#  trace 65535 800000 whole 0\n|\
0000 1800 800800 00 40000001 ffffffff 00abcdef\
#  trace 0 800800 whole 1\n    hop=64 node=1 fill=ffffffff fill=00abcdef\n|\
0007 0800 800002 00 3f000002 00ffffff 40000001 01000009 aabbccdd\
#  trace 7 800002 whole 2\n    hop=64 node=1 schema=000009 opaque=aabbccdd\n    hop=63 node=2 schema=- opaque=-\n";

// A trace type, its NodeLen, an element, and its text.
const ELEMENTS: &str = "c04002 04 3d000005 ffff0002 00011170 00000002 01000009 aabbccdd\
#hop=61 node=5 in=- out=2 win=70000 wout=2 schema=000009 opaque=aabbccdd|\
080000 01 7fffffff#delay=2147483647|\
080000 01 80000000#delay=2147483648|\
080000 01 ffffffff#delay=-|\
fff000 10 ffffffff ffffffff ffffffff ffffffff ffffffff ffffffff ffffffff ffffffff \
ffffffff ffffffff ffffffff ffffffff ffffffff ffffffff ffffffff ffffffff\
#hop=255 node=- in=- out=- sec=- frac=- delay=- data=- queue=- check=- whop=255 wnode=- win=- wout=- wdata=- buffer=- fill=ffffffff|\
fff002 0f 01000002 00030004 00000005 00000006 00000007 00000008 00000009 0000000a \
0b00000000 00000c 0000000d 0000000e 00000000 0000000f 00000010 00000009\
#hop=1 node=2 in=3 out=4 sec=5 frac=6 delay=7 data=00000008 queue=9 check=0000000a whop=11 wnode=12 win=13 wout=14 wdata=000000000000000f buffer=16 schema=000009 opaque=-|\
800000 01#";

// The text of the traces of octets, which are one packet with a sound chain.
fn listed(alloc: Global, octets: &[u8]) -> Result<Vec<u8>, NoMemory> {
    let mut out = Vec::new(alloc);
    if let Framed::Packet(packet) = packet_of(false, false, octets) {
        if let Walk::Whole { .. } = walk(packet) {
            put_traces(packet, &mut out)?;
        }
    }
    Ok(out)
}

// The lines of a trace.
fn lines(alloc: Global, octets: &[u8]) -> Result<Vec<u8>, NoMemory> {
    let mut out = Vec::new(alloc);
    put_trace_lines(octets, &mut out)?;
    Ok(out)
}

// The text of octets, which are one element.
fn fields_text(alloc: Global, kind: u32, node_len: u8, octets: &[u8]) -> Result<Vec<u8>, NoMemory> {
    let mut out = Vec::new(alloc);
    let kind = TraceType::new(kind % 0x100_0000);
    if octets.is_empty() || split(kind, node_len, octets) == Some(octets.len()) {
        put_fields(kind, node_len, octets, &mut out)?;
    }
    Ok(out)
}

// The text of an element behind its trace type and NodeLen.
fn fields(alloc: Global, octets: &[u8]) -> Result<Vec<u8>, NoMemory> {
    let [first, second, third, node_len, element @ ..] = octets else {
        return Err(NoMemory);
    };
    let kind = u32::from_be_bytes([0, *first, *second, *third]);
    fields_text(alloc, kind, *node_len, element)
}

// Whether what is told of a row's octets is the row's text.
fn is_told<F>(alloc: Global, row: &str, tell: F) -> Result<bool, NoMemory>
where
    F: Fn(Global, &[u8]) -> Result<Vec<u8>, NoMemory> + Copy,
    requires { F.IsAlwaysCallable tell }
{
    let Some((digits, wanted)) = row.split_once("#") else {
        return Ok(false);
    };
    let given = octets(alloc, &[digits])?;
    let found = tell(alloc, given.as_slice())?;
    Ok(found.as_slice() == wanted.as_bytes())
}

// Whether it is for each row.
fn are_told<F>(alloc: Global, rows: &str, tell: F) -> bool
where
    F: Fn(Global, &[u8]) -> Result<Vec<u8>, NoMemory> + Copy,
    requires { F.IsAlwaysCallable tell }
{
    for row in rows.split('|') {
        if !is_told(alloc, row, tell).unwrap_or(false) {
            return false;
        }
    }
    true
}

#[test]
fn traces_of_packets(rt: HostRuntime) {
    assert!(rt; are_told(rt.alloc(), PACKETS, listed));
}

#[test]
fn lines_of_traces(rt: HostRuntime) {
    assert!(rt; are_told(rt.alloc(), TRACES, lines));
}

#[test]
fn fields_of_elements(rt: HostRuntime) {
    assert!(rt; are_told(rt.alloc(), ELEMENTS, fields));
}
