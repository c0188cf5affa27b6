//! The desk in memory, on which chosen calls fail.
ghost use Rattle.std.specs.Prelude.{◌≡◌, ◌<◌, ◌≤◌, ◌+◌, ◌-◌, ◌^◌, ◌++◌, ◌∷◌, ◌||◌, [], true, false, Some, None, Ok, Err, IfOk, OnOk, OnErr, option_map, min, length, is_none, if◌then◌else◌};
ghost use Rattle.std.specs.Option.{option_copied};
ghost use Rattle.ioam_desk.specs.declared.fault.DeskFault.TheVariants.{Failed};
ghost use Rattle.ioam_desk.specs.Desk.{holds, OpenIn, ReadInto, KeepsBehind, OpenOut, WriteFrom};
ghost use Rattle.ioam_desk.specs.Faults.{with_fault, faults_after, FailsIf};
ghost use Rattle.ioam_desk.specs.Files.{PutsFile};
ghost use Rattle.ioam_desk.specs.MemoryDesk.{reading_of, writing_of, plan_of};
ghost use Rattle.ioam_desk.specs.Plan.{will_fail, with_one_call, plan_after};
ghost use Rattle.ioam_desk.specs.Store.{no_reading, no_writing};

use crate::calls::Calls;
use crate::desk::Desk;
use crate::fault::DeskFault;
use crate::store::inputs::Inputs;
use crate::store::outputs::Outputs;
use crate::store::piece::Piece;
use ioam_base::memory::NoMemory;
use std::alloc::Global;

/// A desk in memory, which tells all that it holds. Which of its calls fail, and how much one of
/// them moves, can be chosen.
#[derive(Drop)]
pub struct MemoryDesk {
    alloc: Global,
    inputs: Inputs,
    outputs: Outputs,
    piece: Piece,
    calls: Calls,
    read_faults: u64,
    write_faults: u64,
}

impl MemoryDesk {
    /// A desk with no names and no slots, on which no call is to fail and one call moves as much
    /// as it can.
    pub fn new(alloc: Global) -> Result<MemoryDesk, NoMemory>
        ensures reading { IfOk result (λ desk. reading_of desk ≡ no_reading) }
        ensures writing { IfOk result (λ desk. writing_of desk ≡ no_writing) }
        ensures plan { IfOk result (λ desk. plan_of desk
            ≡ record { calls = 0; failing = []; piece = 2 ^ 64 - 1 }) }
    {
        Ok(MemoryDesk {
            alloc,
            inputs: Inputs::new(alloc),
            outputs: Outputs::new(alloc),
            piece: Piece::new(),
            calls: Calls::new(alloc),
            read_faults: 0,
            write_faults: 0,
        })
    }

    /// From then on the name holds these octets, whatever it was tied to. Nothing changes where no
    /// memory could be had.
    pub fn put_file(&mut self, name: &str, octets: &[u8]) -> Result<(), NoMemory>
        ensures ok { OnOk result
            (PutsFile (writing_of self.old) (writing_of self.new) name.now octets.now) }
        ensures err { OnErr result (writing_of self.new ≡ writing_of self.old) }
        ensures reading { reading_of self.new ≡ reading_of self.old }
        ensures plan { plan_of self.new ≡ plan_of self.old }
    {
        self.outputs.put_file(self.alloc, name, octets)
    }

    /// The octets that a name holds: those that were put there, or those that were written to the
    /// output slot that it is tied to.
    pub fn file(&self, name: &str) -> Option<&[u8]>
        ensures { option_copied result ≡ holds (writing_of self.now) name.now }
    {
        self.outputs.held(name)
    }

    /// Sets the most octets that one read or write moves.
    pub fn set_piece(&mut self, piece: usize)
        requires { 1 ≤ piece }
        ensures plan { plan_of self.new ≡ record (plan_of self.old) { piece = piece } }
        ensures reading { reading_of self.new ≡ reading_of self.old }
        ensures writing { writing_of self.new ≡ writing_of self.old }
    {
        self.piece.set(piece);
    }

    /// Lets a call fail. The calls of the four kinds are counted together from 1; one that had no
    /// memory isn't counted. Nothing changes where no memory could be had.
    pub fn fail_call(&mut self, call: u64) -> Result<(), NoMemory>
        ensures ok { OnOk result (plan_of self.new
            ≡ record (plan_of self.old) { failing = (plan_of self.old).failing ++ call ∷ [] }) }
        ensures err { OnErr result (plan_of self.new ≡ plan_of self.old) }
        ensures reading { reading_of self.new ≡ reading_of self.old }
        ensures writing { writing_of self.new ≡ writing_of self.old }
    {
        self.calls.list(call)
    }

    /// Counts a call that failed to open or to read an input.
    fn input_failed(&mut self) -> DeskFault
        ensures fault { result ≡ Failed }
        ensures reading { reading_of self.new
            ≡ record (reading_of self.old) { side = with_fault (reading_of self.old).side } }
        ensures writing { writing_of self.new ≡ writing_of self.old }
        ensures plan { plan_of self.new ≡ with_one_call (plan_of self.old) }
    {
        self.calls.count();
        self.read_faults = self.read_faults.saturating_add(1);
        DeskFault::Failed
    }

    /// Counts a call that failed to open or to write an output.
    fn output_failed(&mut self) -> DeskFault
        ensures fault { result ≡ Failed }
        ensures writing { writing_of self.new
            ≡ record (writing_of self.old) { side = with_fault (writing_of self.old).side } }
        ensures reading { reading_of self.new ≡ reading_of self.old }
        ensures plan { plan_of self.new ≡ with_one_call (plan_of self.old) }
    {
        self.calls.count();
        self.write_faults = self.write_faults.saturating_add(1);
        DeskFault::Failed
    }

    /// The octets over which an input slot is to be opened, or none where the call is to fail: it
    /// was listed, or the name is missing.
    fn to_open(&self, name: &str) -> Result<Option<Vec<u8>>, NoMemory>
        ensures { IfOk result (λ octets. option_map (λ v. v.items) octets
            ≡ (if will_fail (plan_of self.now) then None else holds (writing_of self.now) name.now)) }
    {
        if self.calls.next_fails() {
            return Ok(None);
        }
        match self.outputs.held(name) {
            Some(octets) => Ok(Some(octets.to_vec(self.alloc)?)),
            None => Ok(None),
        }
    }

    /// Opens an input slot over these octets.
    fn open_over(&mut self, name: &str, octets: Vec<u8>) -> Result<u32, DeskFault>
        ensures opened { OpenIn true (reading_of self.old) (Some octets.items) name.now
            result (reading_of self.new) }
        ensures outputs { writing_of self.new ≡ writing_of self.old }
        ensures fails { FailsIf false result }
        ensures faults { self.new.read_faults ≡ self.old.read_faults }
        ensures plan { plan_of self.new ≡ plan_after (plan_of self.old) result }
    {
        let slot = self.inputs.open(self.alloc, name, octets)?;
        self.calls.count();
        Ok(slot)
    }

    /// Fails to open an input slot.
    fn refuse_in(&mut self, name: &str) -> Result<u32, DeskFault>
        ensures opened { OpenIn true (reading_of self.old) None name.now
            result (reading_of self.new) }
        ensures outputs { writing_of self.new ≡ writing_of self.old }
        ensures fails { FailsIf true result }
        ensures faults { self.new.read_faults ≡ faults_after self.old.read_faults result }
        ensures plan { plan_of self.new ≡ plan_after (plan_of self.old) result }
    {
        self.inputs.refuse(self.alloc, name)?;
        Err(self.input_failed())
    }

    /// Fails to open an output slot.
    fn refuse_out(&mut self, name: &str) -> Result<u32, DeskFault>
        ensures opened { OpenOut true (writing_of self.old) name.now result (writing_of self.new) }
        ensures inputs { reading_of self.new ≡ reading_of self.old }
        ensures fails { FailsIf true result }
        ensures faults { self.new.write_faults ≡ faults_after self.old.write_faults result }
        ensures plan { plan_of self.new ≡ plan_after (plan_of self.old) result }
    {
        self.outputs.refuse(self.alloc, name)?;
        Err(self.output_failed())
    }
}

impl Desk for MemoryDesk {
    ghost tells = { true };

    ghost reading = { reading_of };

    ghost writing = { writing_of };

    fn open_in(&mut self, name: &str) -> Result<u32, DeskFault>
        ensures opened { OpenIn true (reading_of self.old) (holds (writing_of self.old) name.now) name.now
            result (reading_of self.new) }
        ensures outputs { writing_of self.new ≡ writing_of self.old }
        ensures fails { FailsIf
            (will_fail (plan_of self.old) || is_none (holds (writing_of self.old) name.now)) result }
        ensures faults { (reading_of self.new).side.faults
            ≡ faults_after (reading_of self.old).side.faults result }
        ensures plan { plan_of self.new ≡ plan_after (plan_of self.old) result }
    {
        match self.to_open(name)? {
            Some(octets) => self.open_over(name, octets),
            None => self.refuse_in(name),
        }
    }

    fn read(&mut self, slot: u32, into: &mut [u8]) -> Result<usize, DeskFault>
        requires input { slot < (reading_of self.old).side.slots }
        requires room { 0 < length into.old }
        ensures read { ReadInto true (reading_of self.old) slot into.new
            result (reading_of self.new) }
        ensures behind { KeepsBehind true into.old result into.new }
        ensures outputs { writing_of self.new ≡ writing_of self.old }
        ensures count { result ≡ (if will_fail (plan_of self.old) then Err Failed
            else Ok (min (plan_of self.old).piece
            (min (length into.old) (length ((reading_of self.old).left slot))))) }
        ensures faults { (reading_of self.new).side.faults
            ≡ faults_after (reading_of self.old).side.faults result }
        ensures plan { plan_of self.new ≡ plan_after (plan_of self.old) result }
    {
        if self.calls.next_fails() {
            return Err(self.input_failed());
        }
        self.calls.count();
        let most = self.piece.of(into.len());
        Ok(self.inputs.read(slot, into, most))
    }

    fn open_out(&mut self, name: &str) -> Result<u32, DeskFault>
        ensures opened { OpenOut true (writing_of self.old) name.now result (writing_of self.new) }
        ensures inputs { reading_of self.new ≡ reading_of self.old }
        ensures fails { FailsIf (will_fail (plan_of self.old)) result }
        ensures faults { (writing_of self.new).side.faults
            ≡ faults_after (writing_of self.old).side.faults result }
        ensures plan { plan_of self.new ≡ plan_after (plan_of self.old) result }
    {
        if self.calls.next_fails() {
            return self.refuse_out(name);
        }
        let slot = self.outputs.open(self.alloc, name)?;
        self.calls.count();
        Ok(slot)
    }

    fn write(&mut self, slot: u32, from: &[u8]) -> Result<usize, DeskFault>
        requires output { slot < (writing_of self.old).side.slots }
        requires some { 0 < length from.now }
        ensures written { WriteFrom true (writing_of self.old) slot from.now
            result (writing_of self.new) }
        ensures inputs { reading_of self.new ≡ reading_of self.old }
        ensures fails { FailsIf (will_fail (plan_of self.old)) result }
        ensures count { IfOk result
            (λ count. count ≡ min (plan_of self.old).piece (length from.now)) }
        ensures faults { (writing_of self.new).side.faults
            ≡ faults_after (writing_of self.old).side.faults result }
        ensures plan { plan_of self.new ≡ plan_after (plan_of self.old) result }
    {
        if self.calls.next_fails() {
            return Err(self.output_failed());
        }
        let count = self.piece.of(from.len());
        self.outputs.write(slot, &from[..count])?;
        self.calls.count();
        Ok(count)
    }
}
