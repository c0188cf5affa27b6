//! Opening of many outputs.
ghost use Rattle.std.specs.Prelude.{◌≡◌, [], ℕ, List, IsTrue, IfOk, OnErr, OnOk, length};
ghost use Rattle.ioam_desk.specs.Asked.{AsksFront};
ghost use Rattle.ioam_desk.specs.Desk.{opened_each};
ghost use Rattle.ioam_desk.specs.Touches.{Touches, state, opening, failing_out};
ghost use Rattle.ioam_desk_outputs.specs.Held.{HoldFronts};
ghost use Rattle.ioam_desk_outputs.specs.Names.{AreApart};
ghost use Rattle.ioam_desk_outputs.specs.Told.{AreOpen, AreTold, GathersNothing, unsaid};

use crate::output::Output;
use ioam_base::name::Name;
use ioam_desk::{Desk, DeskFault};
use std::alloc::Global;

/// Opens an output for each of these names, in their order. Nothing is said to them yet.
///
/// No two of the names are equal, as `first_repeat` tells. Where a name can't be opened (`Failed`),
/// or no memory can be had, the names behind it are not opened, and those before it stay open and
/// empty. Names that were not given to the opening call, and slots that were there, are as they were.
pub fn open_outputs<D: Desk>(
    alloc: Global,
    desk: &mut D,
    names: &[Name],
) -> Result<Vec<Output>, DeskFault>
    requires { AreApart names.now }
    ensures opened { IfOk result (λ outputs. AreTold D.tells (D.writing desk.new) (D.writing desk.old).side.slots names.now outputs.items (unsaid names.now)) }
    ensures open { IfOk result (λ outputs. AreOpen (D.writing desk.new) outputs.items) }
    ensures nothing { IfOk result (λ outputs. GathersNothing outputs.items) }
    ensures side { OnOk result ((D.writing desk.new).side ≡ opened_each (D.writing desk.old).side names.now) }
    ensures asked { AsksFront (D.writing desk.old).side.asked (D.writing desk.new).side.asked names.now }
    ensures fronts { OnErr result (IsTrue D.tells → (texts : List (List ℕ)) → length texts ≡ length names.now
        → HoldFronts (D.writing desk.old) (D.writing desk.new) 0 names.now texts) }
    ensures inputs { D.reading desk.new ≡ D.reading desk.old }
    ensures touches { Touches D.tells (opening [] names.now) (failing_out result)
        (state (D.reading desk.old) (D.writing desk.old)) (state (D.reading desk.new) (D.writing desk.new)) }
{
    let Ok(mut outputs) = Vec::with_capacity(alloc, names.len()) else {
        return Err(DeskFault::NoMemory);
    };
    'names: for name in names {
        match desk.open_out(name.text()) {
            Ok(slot) => {
                let gathered = Vec::new(alloc);
                match outputs.push(Output { slot, gathered }) {
                    Ok(()) => {}
                    Err(_) => return Err(DeskFault::NoMemory),
                }
            }
            Err(fault) => return Err(fault),
        }
    }
    Ok(outputs)
}
