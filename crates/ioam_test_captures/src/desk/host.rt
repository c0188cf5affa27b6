//! The desk over real files: over those of the machine, and over files of a test whose calls fail.
use ioam_desk::{Desk, DeskFault, Fault, FileSystem, HostDesk, Identity, MachineFiles};
use std::alloc::{AllocError, Global};
use std::io::{ErrorKind, Read, Write};
use std::test::Fail;
use std::{fs, io};

// A file of three octets: the read behind them fails. A write of two octets takes one, one of three
// takes none, and every other fails.
#[derive(Drop)]
struct Faulty {
    left: usize,
    identity: Option<Identity>,
}

impl Read for Faulty {
    fn read(&mut self, into: &mut [u8]) -> io::Result<usize> {
        if self.left == 0 {
            return Err(io::Error::from(ErrorKind::TimedOut));
        }
        let count = self.left.min(into.len());
        self.left -= count;
        Ok(count)
    }
}

impl Write for Faulty {
    fn write(&mut self, from: &[u8]) -> io::Result<usize> {
        match from.len() {
            2 => Ok(1),
            3 => Ok(0),
            _ => Err(io::Error::from(ErrorKind::StorageFull)),
        }
    }

    fn flush(&mut self) -> io::Result<()> {
        Ok(())
    }
}

// Files of which names of the same length are the same one. One of a single letter isn't regular,
// and the empty name is missing.
#[derive(Drop)]
struct ByLength;

impl FileSystem for ByLength {
    type File = Faulty;

    ghost use Rattle.std.specs.Prelude.{⊤};

    ghost is_opened = { λ _ _. ⊤ };

    ghost is_not_opened = { λ _ _. ⊤ };

    ghost is_created = { λ _ _. ⊤ };

    ghost is_not_created = { λ _ _. ⊤ };

    ghost is_identified = { λ _ _. ⊤ };

    ghost is_not_identified = { λ _ _. ⊤ };

    ghost is_emptied = { λ _. ⊤ };

    ghost is_not_emptied = { λ _ _. ⊤ };

    ghost is_read = { λ _ _. ⊤ };

    ghost is_not_read = { λ _ _. ⊤ };

    ghost is_written = { λ _ _. ⊤ };

    ghost is_not_written = { λ _ _. ⊤ };

    ghost has_errors = { λ _ _. ⊤ };

    fn open(&mut self, name: &str) -> io::Result<Faulty> {
        let identity = match name.len() {
            0 => return Err(io::Error::from(ErrorKind::NotFound)),
            1 => None,
            length => Some(Identity {
                device: 1,
                inode: length as u64,
            }),
        };
        Ok(Faulty { left: 3, identity })
    }

    fn create(&mut self, name: &str) -> io::Result<Faulty> {
        self.open(name)
    }

    fn identity(&mut self, file: &Faulty) -> io::Result<Option<Identity>> {
        Ok(file.identity)
    }

    fn empty(&mut self, _file: &Faulty) -> io::Result<()> {
        Ok(())
    }

    fn read(&mut self, file: &mut Faulty, into: &mut [u8]) -> io::Result<usize> {
        file.read(into)
    }

    fn write(&mut self, file: &mut Faulty, from: &[u8]) -> io::Result<usize> {
        file.write(from)
    }
}

// The line that is printed of a fault, or no text.
fn line_of(alloc: Global, fault: Option<Fault<'_>>) -> Result<String, AllocError> {
    match fault {
        Some(fault) => format!(in alloc; "{fault}"),
        None => Ok(String::new(alloc)),
    }
}

// Whether this line is printed of the last fault of reading.
fn has_read_line(
    desk: &HostDesk<ByLength>,
    alloc: Global,
    wanted: &str,
) -> Result<bool, AllocError> {
    let line = line_of(alloc, desk.read_fault())?;
    Ok(line.as_str() == wanted)
}

// Whether this line is printed of the last fault of writing.
fn has_write_line(
    desk: &HostDesk<ByLength>,
    alloc: Global,
    wanted: &str,
) -> Result<bool, AllocError> {
    let line = line_of(alloc, desk.write_fault())?;
    Ok(line.as_str() == wanted)
}

// Whether a file is read, and then its read and another's opening fail.
fn fails_to_read(desk: &mut HostDesk<ByLength>, alloc: Global) -> Result<bool, Fail> {
    let input = desk.open_in("west")?;
    let mut into = [0u8; 8];
    Ok(
        desk.read(input, &mut into) == Ok(3)
            && desk.read(input, &mut into) == Err(DeskFault::Failed)
            && has_read_line(desk, alloc, "west: timed out")?
            && desk.open_in("") == Err(DeskFault::Failed)
            && has_read_line(desk, alloc, ": entity not found")?
            && desk.write_fault().is_none(),
    )
}

#[test]
fn a_read_that_fails_names_its_file(rt: HostRuntime) -> Result<(), Fail> {
    let mut desk = HostDesk::new(ByLength, rt.alloc());
    assert!(rt; fails_to_read(&mut desk, rt.alloc())?);
    Ok(())
}

// Whether a file is written, and then fails in two ways.
fn fails_to_write(desk: &mut HostDesk<ByLength>, alloc: Global) -> Result<bool, Fail> {
    let output = desk.open_out("east")?;
    Ok(
        desk.write(output, b"ab") == Ok(1)
            && desk.write(output, b"abc") == Err(DeskFault::Failed)
            && has_write_line(desk, alloc, "east: takes no more octets")?
            && desk.write(output, b"a") == Err(DeskFault::Failed)
            && has_write_line(desk, alloc, "east: no storage space")?,
    )
}

#[test]
fn a_write_that_fails_names_its_file(rt: HostRuntime) -> Result<(), Fail> {
    let mut desk = HostDesk::new(ByLength, rt.alloc());
    assert!(rt; fails_to_write(&mut desk, rt.alloc())?);
    Ok(())
}

// Opens a file to be read.
fn open_in<D: Desk>(desk: &mut D, name: &str) -> Result<(), DeskFault> {
    let _input = desk.open_in(name)?;
    Ok(())
}

// Opens a file to be written.
fn open_out<D: Desk>(desk: &mut D, name: &str) -> Result<(), DeskFault> {
    let _output = desk.open_out(name)?;
    Ok(())
}

// Opens some files.
fn open_some<D: Desk>(desk: &mut D) -> Result<(), DeskFault> {
    open_in(desk, "in")?;
    open_in(desk, "a")?;
    open_out(desk, "b")?;
    open_out(desk, "c")?;
    open_out(desk, "out")
}

// Whether such an output isn't opened, and this line is printed of it.
fn is_refused(
    desk: &mut HostDesk<ByLength>,
    alloc: Global,
    name: &str,
    line: &str,
) -> Result<bool, AllocError> {
    Ok(desk.open_out(name) == Err(DeskFault::Failed) && has_write_line(desk, alloc, line)?)
}

#[test]
fn no_open_file_is_an_output(rt: HostRuntime) -> Result<(), Fail> {
    let alloc = rt.alloc();
    let mut desk = HostDesk::new(ByLength, alloc);
    open_some(&mut desk)?;
    assert!(rt; is_refused(&mut desk, alloc, "x.", "x.: is an input of this run")?);
    assert!(rt;
        is_refused(
            &mut desk,
            alloc,
            "./y",
            "./y: is an output of this run already"
        )?
    );
    Ok(())
}

// Whether octets are written to a name, read from it, and the file isn't opened as an output again.
fn is_written<D: Desk>(desk: &mut D, name: &str, again: &str) -> Result<bool, DeskFault> {
    let output = desk.open_out(name)?;
    if desk.write(output, b"octets") != Ok(6) {
        return Ok(false);
    }
    let input = desk.open_in(name)?;
    let mut into = [0u8; 8];
    Ok(
        desk.read(input, &mut into) == Ok(6)
            && into == *b"octets\0\0"
            && desk.read(input, &mut into) == Ok(0)
            && desk.open_out(again) == Err(DeskFault::Failed),
    )
}

#[test]
fn real_files(rt: HostRuntime) -> Result<(), Fail> {
    let name = "ioam_desk_real_files.bin";
    fs::write(&rt, name, b"what it held before")?;
    let mut desk = HostDesk::new(MachineFiles(&rt), rt.alloc());
    assert!(rt; is_written(&mut desk, name, "./ioam_desk_real_files.bin")?);
    fs::remove_file(&rt, name)?;
    Ok(())
}
