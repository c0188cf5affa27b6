//! The outside, as a trait.
ghost use Rattle.std.specs.Prelude.{◌≡◌, ◌<◌, Bool, length};
ghost use Rattle.ioam_desk.specs.Desk.{Reading, Writing, holds, OpenIn, ReadInto, KeepsBehind, OpenOut, WriteFrom};

use crate::fault::DeskFault;

/// Where octets come from and go to. Slots of each kind are numbered 0, 1, 2, .. as they are opened.
///
/// What is always told is how many calls of each kind failed, the names that were given to the
/// opening calls, and how many slots there are; what the slots and the names hold is told only
/// where `tells` is true, since of a real file no contract can say what it holds.
pub trait Desk {
    ghost tells: { Bool };

    ghost reading: { Self → Reading };

    ghost writing: { Self → Writing };

    /// Opens a new input slot over the octets that the name holds. A missing name is a fault. The
    /// name is listed also where the answer is `Failed`.
    fn open_in(&mut self, name: &str) -> Result<u32, DeskFault>
        ensures opened { OpenIn tells (reading self.old) (holds (writing self.old) name.now) name.now result (reading self.new) }
        ensures outputs { writing self.new ≡ writing self.old };

    /// Reads the next octets of an input slot into the front of a buffer that isn't empty. The
    /// answer is how many, and 0 exactly at the end. Where `tells` is true the rest of the
    /// buffer stays as it was, after an error all of it.
    fn read(&mut self, slot: u32, into: &mut [u8]) -> Result<usize, DeskFault>
        requires input { slot < (reading self.old).side.slots }
        requires room { 0 < length into.old }
        ensures read { ReadInto tells (reading self.old) slot into.new result (reading self.new) }
        ensures behind { KeepsBehind tells into.old result into.new }
        ensures outputs { writing self.new ≡ writing self.old };

    /// Opens a new output slot, empty. From then on the name holds what is written there. The name
    /// is listed also where the answer is `Failed`.
    fn open_out(&mut self, name: &str) -> Result<u32, DeskFault>
        ensures opened { OpenOut tells (writing self.old) name.now result (writing self.new) }
        ensures inputs { reading self.new ≡ reading self.old };

    /// Appends octets, of which there are some, to an output slot. The answer is how many, at least 1.
    fn write(&mut self, slot: u32, from: &[u8]) -> Result<usize, DeskFault>
        requires output { slot < (writing self.old).side.slots }
        requires some { 0 < length from.now }
        ensures written { WriteFrom tells (writing self.old) slot from.now result (writing self.new) }
        ensures inputs { reading self.new ≡ reading self.old };
}
