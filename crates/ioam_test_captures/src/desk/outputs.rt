//! Texts that go out in pieces, over the desk in memory.
ghost use Rattle.std.specs.Prelude.{◌<◌, ℕ, All, IfOk};
ghost use Rattle.ioam_desk_outputs.specs.Told.{AreOpen};

use ioam_base::name::Name;
use ioam_desk::{Desk, MemoryDesk};
use ioam_desk_outputs::{GATHER, Output, finish, first_repeat, flush_full, open_outputs};
use std::alloc::{AllocError, Global};
use std::test::Fail;

// Gathers octets for the output at a place.
fn gather(outputs: &mut [Output], at: usize, octets: &[u8]) -> Result<(), AllocError>
    ensures { (slots : ℕ) → All (λ output. output.slot < slots) outputs.old → All (λ output. output.slot < slots) outputs.new }
{
    if at < outputs.len() {
        let output = &mut outputs[at];
        output.gathered.extend_from_slice(octets)?;
    }
    Ok(())
}

// So many octets.
fn large(alloc: Global, size: usize) -> Result<Vec<u8>, AllocError> {
    let mut octets = Vec::new(alloc);
    octets.resize(size, 5)?;
    Ok(octets)
}

// Outputs of two names.
fn open_two<D: Desk>(alloc: Global, desk: &mut D) -> Result<Vec<Output>, Fail>
    ensures { IfOk result (λ outputs. AreOpen (D.writing desk.new) outputs.items) }
{
    let names = vec![in alloc; Name::new(alloc, "a")?, Name::new(alloc, "b")?]?;
    if first_repeat(&names).is_some() {
        return Err(Fail::from("a name is repeated"));
    }
    match open_outputs(alloc, desk, &names) {
        Ok(outputs) => Ok(outputs),
        Err(_) => Err(Fail::from("not opened")),
    }
}

// Writes the full pieces.
fn flush<D: Desk>(desk: &mut D, outputs: &mut [Output]) -> Result<(), Fail>
    requires { AreOpen (D.writing desk.old) outputs.old }
    ensures { AreOpen (D.writing desk.new) outputs.new }
{
    if flush_full(desk, outputs).is_err() {
        return Err(Fail::from("not written"));
    }
    Ok(())
}

// Gathers octets for two outputs, and writes the full pieces.
fn send<D: Desk>(
    desk: &mut D,
    outputs: &mut [Output],
    first: &[u8],
    second: &[u8],
) -> Result<(), Fail>
    requires { AreOpen (D.writing desk.old) outputs.old }
    ensures { IfOk result (λ _. AreOpen (D.writing desk.new) outputs.new) }
{
    gather(outputs, 0, first)?;
    gather(outputs, 1, second)?;
    flush(desk, outputs)
}

// Writes the rest.
fn end<D: Desk>(desk: &mut D, outputs: &mut [Output]) -> Result<(), Fail>
    requires { AreOpen (D.writing desk.old) outputs.old }
{
    finish(desk, outputs)?;
    Ok(())
}

// Whether both names hold these octets.
fn hold(desk: &MemoryDesk, first: &[u8], second: &[u8]) -> bool {
    desk.file("a") == Some(first) && desk.file("b") == Some(second)
}

// Whether full pieces go out as they are gathered, and the rest at the end; `large` is more than one.
fn go_out(alloc: Global, desk: &mut MemoryDesk, large: &[u8]) -> Result<bool, Fail> {
    let mut outputs = open_two(alloc, desk)?;
    send(desk, outputs.as_mut_slice(), large, b"0123456789")?;
    let first = hold(desk, large, b"");
    end(desk, outputs.as_mut_slice())?;
    Ok(first && hold(desk, large, b"0123456789"))
}

#[test]
fn full_pieces_go_out(rt: HostRuntime) -> Result<(), Fail> {
    let alloc = rt.alloc();
    let mut desk = MemoryDesk::new(alloc)?;
    desk.set_piece(7);
    // More than a full piece.
    let large = large(alloc, GATHER + 4_464)?;
    assert!(rt; go_out(alloc, &mut desk, &large)?);
    Ok(())
}
