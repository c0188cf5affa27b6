//! Headers of options: what is laid out, where the parts of a packet stand, and what breaks.
ghost use Rattle.std.specs.Prelude.{◌<◌, ◌≤◌, length};
ghost use Rattle.ioam_ip.specs.Packet.{IsPacket};
ghost use Rattle.ioam_ip.specs.Chain.{IsSound};

use crate::ip::{UDP, packet, walked, whole};
use ioam_base::memory::NoMemory;
use ioam_ip::{
    Framed, Layout, LayoutFault, Walk, check_options, heads, hop_header, options, packet_of,
    target_header, walk,
};
use std::alloc::Global;
use std::test::Fail;

// What is noted of a packet: three numbers for each thing that is found.
type Seen = Vec<(usize, usize, usize)>;

// Notes where the outer Destination Options header stands.
fn note_target(packet: &[u8], seen: &mut Seen) -> Result<(), NoMemory>
    requires packet { IsPacket packet.now }
    requires sound { IsSound packet.now }
{
    if let Some(target) = target_header(packet) {
        seen.push((target.start, target.end, 0))?;
    }
    Ok(())
}

// Notes each option of the Hop-by-Hop header with its place and the octets of its data.
fn note_hop(packet: &[u8], seen: &mut Seen) -> Result<(), NoMemory>
    requires packet { IsPacket packet.now }
    requires sound { IsSound packet.now }
{
    if let Some(hop) = hop_header(packet) {
        for option in options(&packet[hop.start..hop.end]) {
            seen.push((option.kind as usize, option.at, option.body.len()))?;
        }
    }
    Ok(())
}

// Notes each header with its range.
fn note_heads(packet: &[u8], seen: &mut Seen) -> Result<(), NoMemory>
    requires packet { IsPacket packet.now }
    requires sound { IsSound packet.now }
{
    for head in heads(packet) {
        seen.push((head.value as usize, head.range.start, head.range.end))?;
    }
    Ok(())
}

// Notes all that.
fn note_outline(octets: &[u8], seen: &mut Seen) -> Result<(), NoMemory> {
    let Framed::Packet(packet) = packet_of(false, false, octets) else {
        return Ok(());
    };
    let Walk::Whole { .. } = walk(packet) else {
        return Ok(());
    };
    note_target(packet, seen)?;
    note_hop(packet, seen)?;
    note_heads(packet, seen)
}

/// A header with the option 5 at a multiple of two octets, the option 0x31, and the option 4.
const LAID_OUT: [u8; 16] = [60, 1, 5, 2, 0, 0, 1, 0, 0x31, 3, 0, 0, 7, 4, 1, 3];

// Adds an option.
fn add(layout: &mut Layout, kind: u8, body: &[u8]) -> Result<(), LayoutFault>
    requires kind { 1 < kind }
    requires short { length body.now ≤ 255 }
{
    layout.add(kind, body)
}

// A header with those options.
fn laid_out(alloc: Global) -> Result<Vec<u8>, Fail> {
    let mut outer = Layout::new(alloc, 60)?;
    add(&mut outer, 5, &[0, 0])?;
    add(&mut outer, 0x31, &[0, 0, 7])?;
    add(&mut outer, 4, &[3])?;
    Ok(outer.finish()?)
}

// Whether options fill a header.
fn are_checked(head: &[u8]) -> bool {
    head.len() >= 2 && head.len() <= 65_536 && check_options(head) == Ok(())
}

#[test]
fn options_are_laid_out(rt: HostRuntime) -> Result<(), Fail> {
    let outer = laid_out(rt.alloc())?;
    assert!(rt; outer.as_slice() == LAID_OUT.as_slice());
    assert!(rt; are_checked(&LAID_OUT));
    Ok(())
}

// What is noted of a packet with those options.
const NOTED: [(usize, usize, usize); 7] = [
    (56, 64, 0),
    (5, 2, 2),
    (0x31, 8, 3),
    (4, 13, 1),
    (0, 40, 56),
    (60, 56, 64),
    (41, 64, 104),
];

// Whether a packet is walked so, and that is noted of it.
fn is_noted(
    alloc: Global,
    octets: &[u8],
    wanted: Walk,
    noted: &[(usize, usize, usize)],
) -> Result<bool, NoMemory> {
    let mut seen = Vec::new(alloc);
    note_outline(octets, &mut seen)?;
    Ok(walked(octets) == Some(wanted) && seen.as_slice() == noted)
}

#[test]
fn options_have_places(rt: HostRuntime) -> Result<(), Fail> {
    let alloc = rt.alloc();
    let octets = packet(alloc, 0, &LAID_OUT, &[41, 0, 1, 4, 0, 0, 0, 0], &UDP)?;
    assert!(rt; is_noted(alloc, &octets, whole(true, 17, 104, None), &NOTED)?);
    Ok(())
}

// Adds seven options of 255 octets of data.
fn add_seven(layout: &mut Layout, body: &[u8; 255]) -> Result<(), LayoutFault> {
    for _count in 0..7 {
        add(layout, 0x11, body)?;
    }
    Ok(())
}

// A header with seven options of 255 octets of data, which takes no eighth.
fn full(alloc: Global, body: &[u8; 255]) -> Result<Vec<u8>, Fail> {
    let mut layout = Layout::new(alloc, 59)?;
    add_seven(&mut layout, body)?;
    if add(&mut layout, 0x11, body) != Err(LayoutFault::Full) {
        return Err(Fail::from("an eighth option"));
    }
    Ok(layout.finish()?)
}

// Whether a header has the size of those seven, and the last where it is to stand.
fn has_seven(head: &[u8]) -> bool {
    head.len() == 1824 && head[1564] == 0x11 && head[1565] == 255
}

#[test]
fn full_layout(rt: HostRuntime) -> Result<(), Fail> {
    let head = full(rt.alloc(), &[0; 255])?;
    assert!(rt; has_seven(&head));
    assert!(rt; are_checked(&head));
    Ok(())
}

// Whether an option of a header of eight octets runs past it there.
fn breaks_at(head: &[u8; 8], at: u32) -> bool {
    check_options(head) == Err(at)
}

#[test]
fn options_that_break(rt: HostRuntime) {
    assert!(rt; breaks_at(&[59, 0, 5, 5, 0, 0, 0, 0], 2));
    assert!(rt; breaks_at(&[59, 0, 1, 3, 0, 0, 0, 5], 7));
}
