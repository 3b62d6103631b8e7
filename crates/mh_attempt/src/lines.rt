//! The lines of a script that make method handles.

ghost use Rattle.mh_handle.specs.Works.{GoesOn, IsReady, leaves_of};
ghost use Rattle.mh_attempt.specs.Operations.{MakesOperation};
ghost use Rattle.mh_link.specs.Operands.{Frame};
ghost use Rattle.mh_attempt.specs.Registers.{AreHeldBy, HasRoomForName, Hold, HoldOthers, HoldSome};
ghost use Rattle.mh_attempt.specs.Runs.{ReplacesTypes};

mod again;
mod combining;
mod nodes;
mod parts;
mod several;
mod uses;

use crate::registers::Registers;
use again::{join_again, joined_to};
use mh_handle::{Handle, HandleError, Work};
use mh_script::Operation;
use nodes::operands;
use parts::make_node;
use std::sync::Wait;

/// The handle that an operation makes of what the registers hold, for the register of this name.
/// Its operands are checked first, from left to right, and then the rule of its combinator. If the
/// register's own handle is joined to others, it is taken out and not copied.
pub(crate) fn node<'t, R: Wait>(
    w: &mut Work<'_, 't>,
    rt: &R,
    registers: &mut Registers<'_, 't>,
    name: &[u8],
    operation: &Operation,
) -> Result<Handle<'t>, HandleError>
    requires ready { IsReady w.old 4 }
    requires registers { HoldSome (leaves_of w.old) registers.old }
    requires kept { AreHeldBy w.old.seat.now registers.old }
    ensures goes_on { GoesOn 4 w.old w.new }
    ensures types { ReplacesTypes registers.old registers.new w.old w.new result }
    ensures others { HoldOthers name.now registers.old registers.new }
    ensures room { HasRoomForName registers.old → HasRoomForName registers.new }
    ensures line { (frame : Frame) → Hold (leaves_of w.old) registers.old frame
        → MakesOperation frame operation.now w.old w.new result }
{
    match joined_to(operation, name) {
        Some(with) => join_again(w, rt, registers, name, with),
        None => {
            let node = operands(w.leaves, registers, operation)?;
            make_node(w, rt, node)
        }
    }
}
