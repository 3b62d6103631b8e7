//! Lines that join something to the handle of the register which they assign, such as
//! `let all filter all 0 one`. No line uses that handle any more, so it is taken out of its
//! register. That comes last, when a handle of the other operand is made.

ghost use Rattle.std.specs.Prelude.{IfSome};
ghost use Rattle.mh_handle.specs.Works.{GoesOn, IsReady, leaves_of};
ghost use Rattle.mh_link.specs.Operands.{Frame};
ghost use Rattle.mh_attempt.specs.Again.{IsJoined, IsPair, MakesPair};
ghost use Rattle.mh_attempt.specs.Registers.{AreHeldBy, HasRoomForName, Hold, HoldOthers, HoldSome};
ghost use Rattle.mh_attempt.specs.Runs.{ReplacesTypes};

use crate::lines::combining::{check_two, of_two};
use crate::lines::nodes::OfTwo;
use crate::registers::Registers;
use mh_handle::{Handle, HandleError, Work};
use mh_script::{Operation, Register};
use mh_tree::Joint;
use std::sync::Wait;

/// How a part is joined to a target, if the target is the register of this name.
fn joined_by<'o>(
    target: &Register,
    name: &[u8],
    by: OfTwo,
    part: &'o Register,
) -> Option<(OfTwo, &'o Register)>
    ensures { IfSome result (λ with. IsJoined target.now name.now by part.entry with) }
{
    match target {
        Register::Assigned(own) if own.as_slice() == name => Some((by, part)),
        _ => None,
    }
}

/// What an operation joins to the handle of the register of this name, and how, if it does so.
pub(crate) fn joined_to<'o>(operation: &'o Operation, name: &[u8]) -> Option<(OfTwo, &'o Register)>
    ensures { IfSome result (λ with. IsPair operation.now name.now with.0 with.1.now) }
{
    match operation {
        Operation::Filter(target, at, part) => {
            joined_by(target, name, OfTwo::Joint(Joint::Filter(*at)), part)
        }
        Operation::FilterReturn(target, part) => {
            joined_by(target, name, OfTwo::Joint(Joint::FilterReturn), part)
        }
        Operation::Fold(target, at, part) => {
            joined_by(target, name, OfTwo::Joint(Joint::Fold(*at)), part)
        }
        Operation::Collect(target, at, part) => {
            joined_by(target, name, OfTwo::Joint(Joint::Collect(*at)), part)
        }
        Operation::TryFinally(target, part) => joined_by(target, name, OfTwo::TryFinally, part),
        _ => None,
    }
}

/// The handle of a register, and what is joined to it.
pub(crate) fn join_again<'t, R: Wait>(
    w: &mut Work<'_, 't>,
    rt: &R,
    registers: &mut Registers<'_, 't>,
    name: &[u8],
    with: (OfTwo, &Register),
) -> Result<Handle<'t>, HandleError>
    requires ready { IsReady w.old 4 }
    requires registers { HoldSome (leaves_of w.old) registers.old }
    requires kept { AreHeldBy w.old.seat.now registers.old }
    ensures goes_on { GoesOn 4 w.old w.new }
    ensures types { ReplacesTypes registers.old registers.new w.old w.new result }
    ensures others { HoldOthers name.now registers.old registers.new }
    ensures room { HasRoomForName registers.old → HasRoomForName registers.new }
    ensures made { (frame : Frame) → Hold (leaves_of w.old) registers.old frame
        → MakesPair frame name.now with.entry.0 with.entry.1.now w.old w.new result }
{
    let (by, part) = with;
    let shared = &*registers;
    let target = shared.assigned_handle(name)?;
    let part = shared.handle(part)?;
    let own = target.typed(w.leaves);
    let other = part.typed(w.leaves);
    let ty = check_two(w.alloc, own, by, other, w.classes())?;
    let joined = part.make(w, rt)?;
    match registers.take_handle(name) {
        Ok(taken) => of_two(w, rt, (taken, joined), by, ty),
        Err(error) => {
            joined.give_back(w);
            Err(HandleError::from(error))
        }
    }
}
