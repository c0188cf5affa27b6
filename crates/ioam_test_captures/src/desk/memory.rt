//! The desks in memory: with pieces and failures that are chosen, and without failures.
ghost use Rattle.std.specs.Prelude.{◌≡◌, ◌<◌, IfOk, IsTrue, length};
ghost use Rattle.ioam_desk.specs.MemoryDesk.{reading_of, writing_of};

use ioam_desk::{Desk, DeskFault, MemoryDesk, SureDesk};
use std::test::Fail;

// How many calls of a desk failed, of those that open or read inputs and of those that open or write
// outputs: no call tells these counts, so they are proved where this is called, and not looked at.
fn are_counted<D: Desk>(desk: &D, read_faults: u64, write_faults: u64)
    requires reads { (D.reading desk.now).side.faults ≡ read_faults }
    requires writes { (D.writing desk.now).side.faults ≡ write_faults }
    ensures reads { (D.reading desk.now).side.faults ≡ read_faults }
    ensures writes { (D.writing desk.now).side.faults ≡ write_faults }
{}

// Whether the first call, of a name that isn't there, fails.
fn misses_a_name(desk: &mut MemoryDesk) -> bool
    requires reads { (reading_of desk.old).side.faults ≡ 0 }
    requires writes { (writing_of desk.old).side.faults ≡ 0 }
    ensures reads { IsTrue result → (reading_of desk.new).side.faults ≡ 1 }
    ensures writes { (writing_of desk.new).side.faults ≡ 0 }
{
    if desk.open_in("none") != Err(DeskFault::Failed) {
        return false;
    }
    are_counted(desk, 1, 0);
    true
}

// Whether of the next calls the third, a read, fails, and the others read the file in pieces of four.
fn reads_but_once(desk: &mut MemoryDesk, into: &mut [u8; 8]) -> Result<bool, DeskFault>
    requires reads { (reading_of desk.old).side.faults ≡ 1 }
    requires writes { (writing_of desk.old).side.faults ≡ 0 }
{
    let input = desk.open_in("in")?;
    if desk.read(input, into) != Ok(4) || desk.read(input, into) != Err(DeskFault::Failed) {
        return Ok(false);
    }
    are_counted(desk, 2, 0);
    if desk.read(input, into) != Ok(1) || desk.read(input, into) != Ok(0) {
        return Ok(false);
    }
    are_counted(desk, 2, 0);
    Ok(true)
}

// Whether of calls 1 to 6 the first finds no such name, and the fourth is one that fails.
fn fails_twice(desk: &mut MemoryDesk) -> Result<bool, DeskFault>
    requires reads { (reading_of desk.old).side.faults ≡ 0 }
    requires writes { (writing_of desk.old).side.faults ≡ 0 }
{
    let mut into = [0u8; 8];
    Ok(misses_a_name(desk) && reads_but_once(desk, &mut into)? && into == *b"4123\0\0\0\0")
}

#[test]
fn chosen_pieces_and_failures(rt: HostRuntime) -> Result<(), Fail> {
    let mut desk = MemoryDesk::new(rt.alloc())?;
    desk.put_file("in", b"01234")?;
    desk.set_piece(4);
    desk.fail_call(4)?;
    assert!(rt; fails_twice(&mut desk)?);
    Ok(())
}

// Opens an output.
fn open_out<D: Desk>(desk: &mut D) -> Result<u32, DeskFault>
    ensures { IfOk result (λ slot. slot < (D.writing desk.new).side.slots) }
{
    desk.open_out("out")
}

// Whether so many octets are written to an output.
fn writes<D: Desk>(desk: &mut D, output: u32, octets: &[u8], count: usize) -> bool
    requires output { output < (D.writing desk.old).side.slots }
    requires some { 0 < length octets.now }
{
    desk.write(output, octets) == Ok(count)
}

// Whether so many octets are written to a new output.
fn writes_a_piece<D: Desk>(desk: &mut D, octets: &[u8], count: usize) -> Result<bool, DeskFault>
    requires { 0 < length octets.now }
{
    let output = open_out(desk)?;
    Ok(writes(desk, output, octets, count))
}

// Whether a name holds these octets.
fn holds(desk: &MemoryDesk, octets: &[u8]) -> bool {
    desk.file("out") == Some(octets)
}

// Whether a name holds what is written, and then what is put under it.
fn holds_what_is_written(desk: &mut MemoryDesk) -> Result<bool, Fail> {
    let output = desk.open_out("out")?;
    if desk.write(output, b"0123456789") != Ok(4) || !holds(desk, b"0123") {
        return Ok(false);
    }
    desk.put_file("out", b"own")?;
    Ok(writes(desk, output, b"45", 2) && holds(desk, b"own"))
}

#[test]
fn names_hold_what_is_written(rt: HostRuntime) -> Result<(), Fail> {
    let mut desk = MemoryDesk::new(rt.alloc())?;
    desk.set_piece(4);
    assert!(rt; holds_what_is_written(&mut desk)?);
    Ok(())
}

// Whether a name that isn't there is empty, and the other is read in pieces.
fn reads_any_name<D: Desk>(desk: &mut D) -> Result<bool, DeskFault> {
    let empty = desk.open_in("none")?;
    let input = desk.open_in("in")?;
    let mut into = [0u8; 8];
    Ok(desk.read(empty, &mut into) == Ok(0) && desk.read(input, &mut into) == Ok(4))
}

// Whether a name holds the piece that is written, and another is empty.
fn holds_a_piece(desk: &SureDesk) -> bool {
    desk.file("out") == Some(&b"5678"[..]) && desk.file("none") == Some(&b""[..])
}

#[test]
fn no_name_is_missing(rt: HostRuntime) -> Result<(), Fail> {
    let mut desk = SureDesk::new(rt.alloc())?;
    desk.put_file("in", b"01234")?;
    desk.set_piece(4);
    assert!(rt; reads_any_name(&mut desk)?);
    assert!(rt; writes_a_piece(&mut desk, b"56789", 4)?);
    assert!(rt; holds_a_piece(&desk));
    Ok(())
}
