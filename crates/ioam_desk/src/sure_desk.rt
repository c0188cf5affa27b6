//! The desk in memory on which no call fails.
ghost use Rattle.std.specs.Prelude.{◌≡◌, ◌<◌, ◌≤◌, ◌-◌, ◌^◌, [], true, false, Some, Ok, IfOk, OnOk, OnErr, min, length, MatchResult};
ghost use Rattle.std.specs.Option.{option_copied};
ghost use Rattle.ioam_desk.specs.Desk.{holds, OpenIn, OpensInput, ReadInto, KeepsBehind, OpenOut, WriteFrom};
ghost use Rattle.ioam_desk.specs.Desk.Held.{Stored};
ghost use Rattle.ioam_desk.specs.Files.{PutsFile};
ghost use Rattle.ioam_desk.specs.Faults.{FailsIf};
ghost use Rattle.ioam_desk.specs.Store.{no_reading, writing_from};
ghost use Rattle.ioam_desk.specs.SureDesk.{reading_of, writing_of, piece_of};

use crate::desk::Desk;
use crate::fault::DeskFault;
use crate::store::inputs::Inputs;
use crate::store::outputs::Outputs;
use crate::store::piece::Piece;
use ioam_base::memory::NoMemory;
use std::alloc::Global;

/// A desk in memory on which no call fails, but for want of memory: a name that was never put
/// holds no octets.
#[derive(Drop)]
pub struct SureDesk {
    alloc: Global,
    inputs: Inputs,
    outputs: Outputs,
    piece: Piece,
}

impl SureDesk {
    /// A desk with no slots, on which each name holds no octets and one call moves as much as it
    /// can.
    pub fn new(alloc: Global) -> Result<SureDesk, NoMemory>
        ensures reading { IfOk result (λ desk. reading_of desk ≡ no_reading) }
        ensures writing { IfOk result (λ desk. writing_of desk
            ≡ writing_from 0 [] [] (λ _. Some (Stored []))) }
        ensures piece { IfOk result (λ desk. piece_of desk ≡ 2 ^ 64 - 1) }
    {
        Ok(SureDesk {
            alloc,
            inputs: Inputs::new(alloc),
            outputs: Outputs::new(alloc),
            piece: Piece::new(),
        })
    }

    /// From then on the name holds these octets, whatever it was tied to. Nothing changes where no
    /// memory could be had.
    pub fn put_file(&mut self, name: &str, octets: &[u8]) -> Result<(), NoMemory>
        ensures ok { OnOk result
            (PutsFile (writing_of self.old) (writing_of self.new) name.now octets.now) }
        ensures err { OnErr result (writing_of self.new ≡ writing_of self.old) }
        ensures reading { reading_of self.new ≡ reading_of self.old }
        ensures piece { piece_of self.new ≡ piece_of self.old }
    {
        self.outputs.put_file(self.alloc, name, octets)
    }

    /// The octets that a name holds. Never None: a name that was never put holds no octets.
    pub fn file(&self, name: &str) -> Option<&[u8]>
        ensures { option_copied result ≡ holds (writing_of self.now) name.now }
    {
        Some(self.held(name))
    }

    /// Sets the most octets that one read or write moves.
    pub fn set_piece(&mut self, piece: usize)
        requires { 1 ≤ piece }
        ensures piece { piece_of self.new ≡ piece }
        ensures reading { reading_of self.new ≡ reading_of self.old }
        ensures writing { writing_of self.new ≡ writing_of self.old }
    {
        self.piece.set(piece);
    }

    /// The octets that a name holds.
    fn held(&self, name: &str) -> &[u8]
        ensures { holds (writing_of self.now) name.now ≡ Some result.now }
    {
        match self.outputs.held(name) {
            Some(octets) => octets,
            None => &[],
        }
    }

    /// Opens an input slot over what the name holds.
    fn open_over(&mut self, name: &str) -> Result<u32, NoMemory>
        ensures opened { MatchResult result
            (λ slot. OpensInput true (reading_of self.old) (reading_of self.new)
            (holds (writing_of self.old) name.now) name.now slot)
            (λ _. reading_of self.new ≡ reading_of self.old) }
        ensures outputs { writing_of self.new ≡ writing_of self.old }
        ensures piece { piece_of self.new ≡ piece_of self.old }
    {
        let octets = self.held(name).to_vec(self.alloc)?;
        self.inputs.open(self.alloc, name, octets)
    }
}

impl Desk for SureDesk {
    ghost tells = { true };

    ghost reading = { reading_of };

    ghost writing = { writing_of };

    fn open_in(&mut self, name: &str) -> Result<u32, DeskFault>
        ensures opened { OpenIn true (reading_of self.old) (holds (writing_of self.old) name.now) name.now
            result (reading_of self.new) }
        ensures outputs { writing_of self.new ≡ writing_of self.old }
        ensures fails { FailsIf false result }
        ensures piece { piece_of self.new ≡ piece_of self.old }
    {
        let slot = self.open_over(name)?;
        Ok(slot)
    }

    fn read(&mut self, slot: u32, into: &mut [u8]) -> Result<usize, DeskFault>
        requires input { slot < (reading_of self.old).side.slots }
        requires room { 0 < length into.old }
        ensures read { ReadInto true (reading_of self.old) slot into.new
            result (reading_of self.new) }
        ensures behind { KeepsBehind true into.old result into.new }
        ensures outputs { writing_of self.new ≡ writing_of self.old }
        ensures count { result ≡ Ok (min (piece_of self.old)
            (min (length into.old) (length ((reading_of self.old).left slot)))) }
        ensures piece { piece_of self.new ≡ piece_of self.old }
    {
        let most = self.piece.of(into.len());
        Ok(self.inputs.read(slot, into, most))
    }

    fn open_out(&mut self, name: &str) -> Result<u32, DeskFault>
        ensures opened { OpenOut true (writing_of self.old) name.now result (writing_of self.new) }
        ensures inputs { reading_of self.new ≡ reading_of self.old }
        ensures fails { FailsIf false result }
        ensures piece { piece_of self.new ≡ piece_of self.old }
    {
        let slot = self.outputs.open(self.alloc, name)?;
        Ok(slot)
    }

    fn write(&mut self, slot: u32, from: &[u8]) -> Result<usize, DeskFault>
        requires output { slot < (writing_of self.old).side.slots }
        requires some { 0 < length from.now }
        ensures written { WriteFrom true (writing_of self.old) slot from.now
            result (writing_of self.new) }
        ensures inputs { reading_of self.new ≡ reading_of self.old }
        ensures fails { FailsIf false result }
        ensures count { IfOk result
            (λ count. count ≡ min (piece_of self.old) (length from.now)) }
        ensures piece { piece_of self.new ≡ piece_of self.old }
    {
        let count = self.piece.of(from.len());
        self.outputs.write(slot, &from[..count])?;
        Ok(count)
    }
}
