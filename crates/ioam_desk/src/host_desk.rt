//! The desk over the files of the machine.
ghost use Rattle.std.specs.Prelude.{◌≡◌, ◌≢◌, ◌<◌, ◌⊎◌, ℕ, Err, None, Some, false, length, IfOk, IfErr, IfSome, OnOk, OnErr, option_map};
ghost use Rattle.std.specs.Io.KnownBytes.{ReadConsumes, WriteAppends};
ghost use Rattle.ioam_desk.specs.Desk.{OpenIn, ReadInto, KeepsBehind, OpenOut, WriteFrom, holds};
ghost use Rattle.ioam_desk.specs.HostDesk.{untold_reading, untold_writing, reading_of, writing_of, inputs_of, outputs_of, read_fault_name, write_fault_name, read_fault_reason, write_fault_reason, AddsOpened, IsTakenAnew, IsOfSome, IsSaid};
ghost use Rattle.ioam_desk.specs.HostSide.{no_side, slot_name, IsRefusal, IsOfSystem, IsOfSlot, IsOfWrite, ChangesFile, errors_opening, errors_answered};
ghost use Rattle.ioam_desk.specs.Faults.{faults_after};

use crate::desk::Desk;
use crate::fault::DeskFault;
use crate::file_system::FileSystem;
use crate::host_fault::{Fault, Reason};
use crate::host_side::{HostSide, Opened, read_slot, write_slot};
use std::alloc::Global;

/// Real files. What they hold isn't told.
///
/// No output is opened over a regular file that is an input or an output already, by whatever name:
/// that is a fault of writing, and the file stays as it is.
#[derive(Drop)]
pub struct HostDesk<R: FileSystem> {
    files: R,
    alloc: Global,
    inputs: HostSide<R::File>,
    outputs: HostSide<R::File>,
}

impl<R: FileSystem> HostDesk<R> {
    /// A desk with no slots, which takes no memory.
    pub fn new(files: R, alloc: Global) -> HostDesk<R>
        ensures reading { reading_of result ≡ untold_reading no_side }
        ensures writing { writing_of result ≡ untold_writing no_side }
        ensures faults { (read_fault_name result ≡ None) × (write_fault_name result ≡ None) }
    {
        HostDesk {
            files,
            alloc,
            inputs: HostSide::new(alloc),
            outputs: HostSide::new(alloc),
        }
    }

    /// The last call that failed, of those that open or read an input.
    pub fn read_fault(&self) -> Option<Fault<'_>>
        ensures name { option_map (λ fault. fault.name.now) result ≡ read_fault_name self.now }
        ensures reason { IfSome result (λ fault. read_fault_reason self.now ≡ Some fault.reason) }
    {
        self.inputs.fault()
    }

    /// The last call that failed, of those that open or write an output.
    pub fn write_fault(&self) -> Option<Fault<'_>>
        ensures name { option_map (λ fault. fault.name.now) result ≡ write_fault_name self.now }
        ensures reason { IfSome result (λ fault. write_fault_reason self.now ≡ Some fault.reason) }
    {
        self.outputs.fault()
    }
}

// Opens a file to be read.
fn opened<R: FileSystem>(files: &mut R, name: &str) -> Result<Opened<R::File>, Reason>
    ensures opened { IfOk result (λ opened. R.is_opened opened.file name.now
        × R.is_identified opened.file opened.identity) }
    ensures said { IfErr result (IsOfSystem (IsSaid (R.is_not_opened name.now) (λ file. R.is_opened file name.now) R.is_not_identified)) }
    ensures counted { (errors : ℕ) → R.has_errors files.old errors → R.has_errors files.new (errors_opening errors result) }
{
    let file = match files.open(name) {
        Ok(file) => file,
        Err(why) => return Err(Reason::System(why)),
    };
    match files.identity(&file) {
        Ok(identity) => Ok(Opened { file, identity }),
        Err(why) => Err(Reason::System(why)),
    }
}

// Opens a file to be written and empties it, unless it is one that is open.
fn created<R: FileSystem>(
    files: &mut R,
    inputs: &HostSide<R::File>,
    outputs: &HostSide<R::File>,
    name: &str,
) -> Result<Opened<R::File>, Reason>
    ensures created { IfOk result (λ opened. R.is_created opened.file name.now
        × R.is_identified opened.file opened.identity) }
    ensures anew { IfOk result (IsTakenAnew R.is_emptied inputs.now.slots.items outputs.now.slots.items) }
    ensures refused { IfErr result (IsRefusal
        (IsSaid (R.is_not_created name.now) (λ file. R.is_created file name.now) (λ file why. R.is_not_identified file why ⊎ R.is_not_emptied file why))
        (IsOfSome (λ file. R.is_created file name.now) R.is_identified)
        inputs.now.slots.items outputs.now.slots.items) }
    ensures counted { (errors : ℕ) → R.has_errors files.old errors → R.has_errors files.new (errors_opening errors result) }
{
    let file = match files.create(name) {
        Ok(file) => file,
        Err(why) => return Err(Reason::System(why)),
    };
    let identity = match files.identity(&file) {
        Ok(identity) => identity,
        Err(why) => return Err(Reason::System(why)),
    };
    if let Some(identity) = identity {
        if !inputs.is_apart(identity) {
            return Err(Reason::IsInput);
        }
        if !outputs.is_apart(identity) {
            return Err(Reason::IsOutput);
        }
        if let Err(why) = files.empty(&file) {
            return Err(Reason::System(why));
        }
    }
    Ok(Opened { file, identity })
}

impl<R: FileSystem> Desk for HostDesk<R> {
    ghost tells = { false };

    ghost reading = { reading_of };

    ghost writing = { writing_of };

    fn open_in(&mut self, name: &str) -> Result<u32, DeskFault>
        ensures opened { OpenIn false (reading_of self.old) (holds (writing_of self.old) name.now) name.now
            result (reading_of self.new) }
        ensures outputs { writing_of self.new ≡ writing_of self.old }
        ensures faults { (reading_of self.new).side.faults
            ≡ faults_after (reading_of self.old).side.faults result }
        ensures file { AddsOpened (inputs_of self.old) name.now
            (λ opened. R.is_opened opened.file name.now
            × R.is_identified opened.file opened.identity)
            result (inputs_of self.new) }
        ensures others { self.new.outputs ≡ self.old.outputs }
        ensures named { result ≡ Err DeskFault.Failed → read_fault_name self.new ≡ Some name.now }
        ensures said { result ≡ Err DeskFault.Failed
            → IfSome (read_fault_reason self.new) (IsOfSystem (IsSaid (R.is_not_opened name.now) (λ file. R.is_opened file name.now) R.is_not_identified)) }
        ensures unasked { result ≡ Err DeskFault.NoMemory → self.new.files ≡ self.old.files }
        ensures last { result ≢ Err DeskFault.Failed → self.new.inputs.last ≡ self.old.inputs.last }
        ensures counted { (errors : ℕ) → R.has_errors self.old.files errors
            → R.has_errors self.new.files (errors_answered errors result (read_fault_reason self.new)) }
    {
        let names = self.inputs.make_room(self.alloc, name)?;
        let opened = opened(&mut self.files, name);
        self.inputs.add(names, opened)
    }

    fn read(&mut self, slot: u32, into: &mut [u8]) -> Result<usize, DeskFault>
        requires input { slot < (reading_of self.old).side.slots }
        requires room { 0 < length into.old }
        ensures read { ReadInto false (reading_of self.old) slot into.new
            result (reading_of self.new) }
        ensures behind { KeepsBehind false into.old result into.new }
        ensures outputs { writing_of self.new ≡ writing_of self.old }
        ensures faults { (reading_of self.new).side.faults
            ≡ faults_after (reading_of self.old).side.faults result }
        ensures memory { result ≢ Err DeskFault.NoMemory }
        ensures file { ChangesFile (inputs_of self.old) (inputs_of self.new) slot
            (λ before after. ReadConsumes (R.File.remaining before) (R.File.remaining after) result into.new) }
        ensures others { self.new.outputs ≡ self.old.outputs }
        ensures named { OnErr result (read_fault_name self.new ≡ slot_name self.old.inputs slot) }
        ensures given { IfOk result (IsOfSlot R.is_read (inputs_of self.new) slot) }
        ensures reason { OnErr result (IfSome (read_fault_reason self.new) (IsOfSystem (IsOfSlot R.is_not_read (inputs_of self.new) slot))) }
        ensures last { OnOk result (self.new.inputs.last ≡ self.old.inputs.last) }
        ensures counted { (errors : ℕ) → R.has_errors self.old.files errors
            → R.has_errors self.new.files (errors_answered errors result (read_fault_reason self.new)) }
    {
        read_slot(&mut self.files, &mut self.inputs, slot, into)
    }

    fn open_out(&mut self, name: &str) -> Result<u32, DeskFault>
        ensures opened { OpenOut false (writing_of self.old) name.now result (writing_of self.new) }
        ensures inputs { reading_of self.new ≡ reading_of self.old }
        ensures faults { (writing_of self.new).side.faults
            ≡ faults_after (writing_of self.old).side.faults result }
        ensures file { AddsOpened (outputs_of self.old) name.now
            (λ opened. (R.is_created opened.file name.now
            × R.is_identified opened.file opened.identity)
            × IsTakenAnew R.is_emptied (inputs_of self.old) (outputs_of self.old) opened)
            result (outputs_of self.new) }
        ensures others { self.new.inputs ≡ self.old.inputs }
        ensures named { result ≡ Err DeskFault.Failed → write_fault_name self.new ≡ Some name.now }
        ensures refused { result ≡ Err DeskFault.Failed
            → IfSome (write_fault_reason self.new) (IsRefusal
            (IsSaid (R.is_not_created name.now) (λ file. R.is_created file name.now) (λ file why. R.is_not_identified file why ⊎ R.is_not_emptied file why))
            (IsOfSome (λ file. R.is_created file name.now) R.is_identified)
            (inputs_of self.old) (outputs_of self.old)) }
        ensures unasked { result ≡ Err DeskFault.NoMemory → self.new.files ≡ self.old.files }
        ensures last { result ≢ Err DeskFault.Failed → self.new.outputs.last ≡ self.old.outputs.last }
        ensures counted { (errors : ℕ) → R.has_errors self.old.files errors
            → R.has_errors self.new.files (errors_answered errors result (write_fault_reason self.new)) }
    {
        let names = self.outputs.make_room(self.alloc, name)?;
        let opened = created(&mut self.files, &self.inputs, &self.outputs, name);
        self.outputs.add(names, opened)
    }

    fn write(&mut self, slot: u32, from: &[u8]) -> Result<usize, DeskFault>
        requires output { slot < (writing_of self.old).side.slots }
        requires some { 0 < length from.now }
        ensures written { WriteFrom false (writing_of self.old) slot from.now
            result (writing_of self.new) }
        ensures inputs { reading_of self.new ≡ reading_of self.old }
        ensures faults { (writing_of self.new).side.faults
            ≡ faults_after (writing_of self.old).side.faults result }
        ensures memory { result ≢ Err DeskFault.NoMemory }
        ensures file { ChangesFile (outputs_of self.old) (outputs_of self.new) slot
            (λ before after. WriteAppends (R.File.contents before) (R.File.contents after) result from.now) }
        ensures others { self.new.inputs ≡ self.old.inputs }
        ensures named { OnErr result (write_fault_name self.new ≡ slot_name self.old.outputs slot) }
        ensures taken { IfOk result (IsOfSlot R.is_written (outputs_of self.new) slot) }
        ensures reason { OnErr result (IfSome (write_fault_reason self.new) (IsOfWrite
            (IsOfSlot R.is_not_written (outputs_of self.new) slot) (IsOfSlot R.is_written (outputs_of self.new) slot 0))) }
        ensures last { OnOk result (self.new.outputs.last ≡ self.old.outputs.last) }
        ensures counted { (errors : ℕ) → R.has_errors self.old.files errors
            → R.has_errors self.new.files (errors_answered errors result (write_fault_reason self.new)) }
    {
        write_slot(&mut self.files, &mut self.outputs, slot, from)
    }
}
