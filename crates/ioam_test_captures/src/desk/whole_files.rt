//! A desk whose calls fail and whose pieces are small, under the calls that read and write whole files.
use ioam_desk::{Desk, MemoryDesk, WholeFault, WriteAll, read_whole, write_all};
use std::alloc::Global;

// Whether a write of which the second piece fails says how much was written.
fn fails_to_write<D: Desk>(desk: &mut D) -> bool {
    let Ok(slot) = desk.open_out("out") else {
        return false;
    };
    let answer = write_all(desk, slot, b"0123456789");
    matches!(answer, Err(WriteAll::Failed { written: 4 }))
}

// Whether the name holds the first piece.
fn holds_a_piece(desk: &MemoryDesk) -> bool {
    desk.file("out") == Some(b"0123".as_slice())
}

// Whether the file is read with such a limit, and is as it is to be.
fn is_read_up_to<D: Desk>(alloc: Global, desk: &mut D, limit: usize, wanted: &[u8]) -> bool {
    match read_whole(alloc, desk, "in", limit) {
        Ok(whole) => whole.as_slice() == wanted,
        Err(_) => false,
    }
}

// Whether the file is too long for a limit, as the fault says.
fn is_too_long<D: Desk>(alloc: Global, desk: &mut D, most: usize) -> bool {
    match read_whole(alloc, desk, "in", most) {
        Err(WholeFault::TooLong { limit }) => limit == most,
        _ => false,
    }
}

#[test]
fn a_fault_says_how_much_was_written(rt: HostRuntime) {
    let alloc = rt.alloc();
    let mut desk = MemoryDesk::new(alloc).expect(&rt, "memory");
    desk.set_piece(4);
    desk.fail_call(3).expect(&rt, "memory");
    assert!(rt; fails_to_write(&mut desk));
    assert!(rt; holds_a_piece(&desk));
    desk.put_file("in", b"01234").expect(&rt, "memory");
    assert!(rt; is_too_long(alloc, &mut desk, 4));
    assert!(rt; is_read_up_to(alloc, &mut desk, 5, b"01234"));
}
