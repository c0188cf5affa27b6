//! The machine's files as `HostDesk` sees them.
ghost use Rattle.std.specs.Prelude.{ℕ, List, Option, IfOk, IfErr, OnOk};
ghost use Rattle.std.specs.Io.{ReadsAtMost, WritesAtMost};
ghost use Rattle.std.specs.Io.KnownBytes.{ReadConsumes, WriteAppends};
ghost use Rattle.ioam_desk.specs.Faults.{errors_after};
ghost use Rattle.ioam_desk.specs.declared.file_system.Identity.{Identity};
ghost use Rattle.ioam_desk.specs.declared.host_fault.Reason.{Reason};
ghost use Rattle.ioam_desk.specs.declared.host_fault.Reason.TheVariants.{System};

use std::fs::{Files, OpenFile, OpenOptions};
use std::io::{Read, Write};
use std::os::unix::fs::MetadataExt;
use std::{fs, io};

/// Which regular file it is, under whatever name: the system's numbers of its device and inode.
#[derive(Clone, Copy, Debug, PartialEq, Eq)]
pub struct Identity {
    pub device: u64,
    pub inode: u64,
}

/// The calls on the machine's files that `HostDesk` makes, so that a test can stand in for them.
///
/// What was done to a file, and what was said where it could not be done, is told by predicates,
/// which nothing but the calls can give: so it is proved which call was made and with which name,
/// though of a real file nothing is known. Each call that fails is one error more, so that none can
/// be passed over, and no call can be made a second time after one.
pub trait FileSystem {
    type File: Read + Write + Drop;

    /// The file was opened under this name to be read.
    ghost is_opened: { Self.File → List ℕ → Type 0 };

    /// A file of this name could not be opened to be read, and this was said.
    ghost is_not_opened: { List ℕ → Reason → Type 0 };

    /// The file was opened under this name to be written, and made where there was none.
    ghost is_created: { Self.File → List ℕ → Type 0 };

    /// A file of this name could not be opened to be written, and this was said.
    ghost is_not_created: { List ℕ → Reason → Type 0 };

    /// The file was asked which one it is, and this was the answer.
    ghost is_identified: { Self.File → Option Identity → Type 0 };

    /// Which one the file is could not be said, but this.
    ghost is_not_identified: { Self.File → Reason → Type 0 };

    /// The file was emptied since.
    ghost is_emptied: { Self.File → Type 0 };

    /// The file could not be emptied, and this was said.
    ghost is_not_emptied: { Self.File → Reason → Type 0 };

    /// A read gave this number of octets of the file.
    ghost is_read: { Self.File → ℕ → Type 0 };

    /// The file could not be read, and this was said.
    ghost is_not_read: { Self.File → Reason → Type 0 };

    /// The file took this number of octets of a write.
    ghost is_written: { Self.File → ℕ → Type 0 };

    /// The file could not be written, and this was said.
    ghost is_not_written: { Self.File → Reason → Type 0 };

    /// This number of calls on the files failed so far.
    ghost has_errors: { Self → ℕ → Type 0 };

    /// Opens a file to be read.
    fn open(&mut self, name: &str) -> io::Result<Self::File>
        ensures opened { IfOk result (λ file. is_opened file name.now) }
        ensures said { IfErr result (λ why. is_not_opened name.now (System why)) }
        ensures counted { (errors : ℕ) → has_errors self.old errors → has_errors self.new (errors_after errors result) };

    /// Opens a file to be written, or makes it. What it holds stays as it is.
    fn create(&mut self, name: &str) -> io::Result<Self::File>
        ensures created { IfOk result (λ file. is_created file name.now) }
        ensures said { IfErr result (λ why. is_not_created name.now (System why)) }
        ensures counted { (errors : ℕ) → has_errors self.old errors → has_errors self.new (errors_after errors result) };

    /// Which file it is: None where it isn't a regular one.
    fn identity(&mut self, file: &Self::File) -> io::Result<Option<Identity>>
        ensures identified { IfOk result (is_identified file.now) }
        ensures said { IfErr result (λ why. is_not_identified file.now (System why)) }
        ensures counted { (errors : ℕ) → has_errors self.old errors → has_errors self.new (errors_after errors result) };

    /// Takes away all that a regular file holds.
    fn empty(&mut self, file: &Self::File) -> io::Result<()>
        ensures emptied { OnOk result (is_emptied file.now) }
        ensures said { IfErr result (λ why. is_not_emptied file.now (System why)) }
        ensures counted { (errors : ℕ) → has_errors self.old errors → has_errors self.new (errors_after errors result) };

    /// Reads the next octets of a file into the front of a buffer. The answer is how many.
    fn read(&mut self, file: &mut Self::File, into: &mut [u8]) -> io::Result<usize>
        ensures bound { ReadsAtMost result into.new }
        ensures octets { ReadConsumes (Self.File.remaining file.old) (Self.File.remaining file.new) result into.new }
        ensures read { IfOk result (is_read file.new) }
        ensures said { IfErr result (λ why. is_not_read file.new (System why)) }
        ensures counted { (errors : ℕ) → has_errors self.old errors → has_errors self.new (errors_after errors result) };

    /// Writes octets at the end of what was written to a file. The answer is how many it took.
    fn write(&mut self, file: &mut Self::File, from: &[u8]) -> io::Result<usize>
        ensures bound { WritesAtMost result from.now }
        ensures octets { WriteAppends (Self.File.contents file.old) (Self.File.contents file.new) result from.now }
        ensures written { IfOk result (is_written file.new) }
        ensures said { IfErr result (λ why. is_not_written file.new (System why)) }
        ensures counted { (errors : ℕ) → has_errors self.old errors → has_errors self.new (errors_after errors result) };
}

/// The files of the machine.
#[derive(Drop)]
pub struct MachineFiles<'a, R: Files>(
    /// What reaches them.
    pub &'a R,
);

impl<'a, R: Files> FileSystem for MachineFiles<'a, R> {
    type File = R::File;

    ghost use Rattle.std.specs.Prelude.{⊤};

    ghost is_opened = { λ _ _. ⊤ };

    ghost is_not_opened = { λ _ _. ⊤ };

    ghost is_created = { λ _ _. ⊤ };

    ghost is_not_created = { λ _ _. ⊤ };

    ghost is_identified = { λ _ _. ⊤ };

    ghost is_not_identified = { λ _ _. ⊤ };

    ghost is_emptied = { λ _. ⊤ };

    ghost is_not_emptied = { λ _ _. ⊤ };

    ghost is_read = { λ _ _. ⊤ };

    ghost is_not_read = { λ _ _. ⊤ };

    ghost is_written = { λ _ _. ⊤ };

    ghost is_not_written = { λ _ _. ⊤ };

    ghost has_errors = { λ _ _. ⊤ };

    fn open(&mut self, name: &str) -> io::Result<R::File> {
        fs::open(self.0, name)
    }

    fn create(&mut self, name: &str) -> io::Result<R::File> {
        OpenOptions::new()
            .write(true)
            .create(true)
            .open(self.0, name)
    }

    fn identity(&mut self, file: &R::File) -> io::Result<Option<Identity>> {
        let metadata = file.metadata()?;
        if !metadata.is_file() {
            return Ok(None);
        }
        Ok(Some(Identity {
            device: metadata.dev(),
            inode: metadata.ino(),
        }))
    }

    fn empty(&mut self, file: &R::File) -> io::Result<()> {
        file.set_len(0)
    }

    fn read(&mut self, file: &mut R::File, into: &mut [u8]) -> io::Result<usize> {
        file.read(into)
    }

    fn write(&mut self, file: &mut R::File, from: &[u8]) -> io::Result<usize> {
        file.write(from)
    }
}
