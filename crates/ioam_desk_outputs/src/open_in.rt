//! Opening of many inputs.
ghost use Rattle.std.specs.Prelude.{◌≡◌, IfErr, IfOk, OnOk, [], length};
ghost use Rattle.ioam_desk.specs.Asked.{AsksFront};
ghost use Rattle.ioam_desk.specs.Desk.{opened_each};
ghost use Rattle.ioam_desk.specs.Touches.{Touches, state, opening, failing_open};
ghost use Rattle.ioam_desk_outputs.specs.Open.{AreSlots, AreUnended, AreUnread, OpensFewer};

use ioam_base::name::Name;
use ioam_desk::{Desk, DeskFault};
use std::alloc::Global;

/// Opens an input for each of `names`, in their order, and reads nothing. The answer is their slots.
///
/// If a name can't be opened (`Failed`), or memory runs out, the names after it are not opened.
pub fn open_inputs<D: Desk>(
    alloc: Global,
    desk: &mut D,
    names: &[Name],
) -> Result<Vec<u32>, DeskFault>
    ensures slots { IfOk result (λ slots. AreSlots (D.reading desk.old).side.slots (length names.now) slots.items) }
    ensures side { OnOk result ((D.reading desk.new).side ≡ opened_each (D.reading desk.old).side names.now) }
    ensures fewer { IfErr result (OpensFewer (D.reading desk.old).side (D.reading desk.new).side (length names.now)) }
    ensures asked { AsksFront (D.reading desk.old).side.asked (D.reading desk.new).side.asked names.now }
    ensures unread { AreUnread D.tells (D.reading desk.old) (D.reading desk.new) (D.writing desk.old) names.now }
    ensures unended { OnOk result (AreUnended (D.reading desk.old) (D.reading desk.new)) }
    ensures none { length names.now ≡ 0 → D.reading desk.new ≡ D.reading desk.old }
    ensures outputs { D.writing desk.new ≡ D.writing desk.old }
    ensures touches { Touches D.tells (opening names.now []) (failing_open result)
        (state (D.reading desk.old) (D.writing desk.old)) (state (D.reading desk.new) (D.writing desk.new)) }
{
    let Ok(mut slots) = Vec::with_capacity(alloc, names.len()) else {
        return Err(DeskFault::NoMemory);
    };
    'names: for name in names {
        match desk.open_in(name.text()) {
            Ok(slot) => match slots.push(slot) {
                Ok(()) => {}
                Err(_) => return Err(DeskFault::NoMemory),
            },
            Err(fault) => return Err(fault),
        }
    }
    Ok(slots)
}
