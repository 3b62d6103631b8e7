//! Handles of several operands: all of them, or none.

ghost use Rattle.std.specs.Prelude.{◌+◌, ◌≤◌, [], ◌∷◌, IfOk};
ghost use Rattle.mh_tree.specs.Tree.{Cases, Tree};
ghost use Rattle.mh_handle.specs.Works.{GoesOn, IsReady, StandsIn, leaves_of};
ghost use Rattle.mh_more.specs.Several.{StandForCases};
ghost use Rattle.mh_attempt.specs.Cases.{AreLeavesOfType, StandForEach, leaf_recipe};
ghost use Rattle.mh_attempt.specs.Cases.{own_weight, own_weights};
ghost use Rattle.mh_attempt.specs.Nodes.{AreAllOperands, IsOperand};
ghost use Rattle.mh_attempt.specs.Registers.{StandsFor};
ghost use Rattle.mh_attempt.specs.Several.{AddsAll, AddsBoth, AddsSwitched, AddsThree, AsksForms};
ghost use Rattle.mh_attempt.specs.Several.{AsksTheirTypes, GoesOnOnce, IsReadyOnce, NothingRefused};

use crate::handle::HandleOperand;
use mh_base::Seq;
use mh_handle::{Handle, HandleError, Work};
use mh_more::{Handles, Switched, with_first};
use mh_values::MethodTy;
use std::sync::Wait;

/// Handles of two operands.
pub(crate) fn make_both<'t, R: Wait>(
    w: &mut Work<'_, 't>,
    rt: &R,
    first: &HandleOperand<'_, 't>,
    second: &HandleOperand<'_, 't>,
) -> Result<(Handle<'t>, Handle<'t>), HandleError>
    requires ready { IsReady w.old 2 }
    requires first { IsOperand (leaves_of w.old) w.old.seat.now first.now }
    requires second { IsOperand (leaves_of w.old) w.old.seat.now second.now }
    ensures goes_on { GoesOn 2 w.old w.new }
    ensures accepted { NothingRefused result }
    ensures types { AddsBoth w.old w.new result }
    ensures asks { AsksForms (first.now ∷ second.now ∷ []) w.old w.new result }
    ensures asked { AsksTheirTypes (first.now ∷ second.now ∷ []) w.old w.new result }
    ensures first { (t : Tree) → StandsFor (leaves_of w.old) first.now t
        → IfOk result (λ made. StandsIn w.old made.0 t) }
    ensures second { (t : Tree) → StandsFor (leaves_of w.old) second.now t
        → IfOk result (λ made. StandsIn w.old made.1 t) }
{
    let first = first.make(w, rt)?;
    match second.make(w, rt) {
        Ok(second) => Ok((first, second)),
        Err(error) => {
            first.give_back(w);
            Err(error)
        }
    }
}

/// Handles of three operands.
pub(crate) fn make_three<'t, R: Wait>(
    w: &mut Work<'_, 't>,
    rt: &R,
    first: &HandleOperand<'_, 't>,
    second: &HandleOperand<'_, 't>,
    third: &HandleOperand<'_, 't>,
) -> Result<(Handle<'t>, Handle<'t>, Handle<'t>), HandleError>
    requires ready { IsReady w.old 3 }
    requires first { IsOperand (leaves_of w.old) w.old.seat.now first.now }
    requires second { IsOperand (leaves_of w.old) w.old.seat.now second.now }
    requires third { IsOperand (leaves_of w.old) w.old.seat.now third.now }
    ensures goes_on { GoesOn 3 w.old w.new }
    ensures accepted { NothingRefused result }
    ensures types { AddsThree w.old w.new result }
    ensures asks { AsksForms (first.now ∷ second.now ∷ third.now ∷ []) w.old w.new result }
    ensures asked { AsksTheirTypes (first.now ∷ second.now ∷ third.now ∷ []) w.old w.new result }
    ensures first { (t : Tree) → StandsFor (leaves_of w.old) first.now t
        → IfOk result (λ made. StandsIn w.old made.0 t) }
    ensures second { (t : Tree) → StandsFor (leaves_of w.old) second.now t
        → IfOk result (λ made. StandsIn w.old made.1 t) }
    ensures third { (t : Tree) → StandsFor (leaves_of w.old) third.now t
        → IfOk result (λ made. StandsIn w.old made.2 t) }
{
    let (first, second) = make_both(w, rt, first, second)?;
    match third.make(w, rt) {
        Ok(third) => Ok((first, second, third)),
        Err(error) => {
            first.give_back(w);
            second.give_back(w);
            Err(error)
        }
    }
}

/// Handles of operands of one type. The leaves among them have one form, so at most one number is
/// drawn.
fn make_all<'t, R: Wait>(
    w: &mut Work<'_, 't>,
    rt: &R,
    operands: &[HandleOperand<'_, 't>],
    ty: &MethodTy,
) -> Result<Handles<'t>, HandleError>
    requires ready { IsReadyOnce (leaf_recipe ty.now) (own_weights operands.now) w.old }
    requires operands { AreAllOperands (leaves_of w.old) w.old.seat.now operands.now }
    requires alike { AreLeavesOfType (leaves_of w.old) ty.now operands.now }
    ensures goes_on { GoesOnOnce (leaf_recipe ty.now) (own_weights operands.now) w.old w.new }
    ensures accepted { NothingRefused result }
    ensures types { AddsAll w.old w.new result }
    ensures asks { AsksForms operands.now w.old w.new result }
    ensures asked { AsksTheirTypes operands.now w.old w.new result }
    ensures stands { (ts : Cases) → StandForEach (leaves_of w.old) operands.now ts
        → IfOk result (λ made. StandForCases (leaves_of w.old) made ts) }
{
    let Some((first, others)) = operands.split_first() else {
        return Ok(Seq::new(w.alloc));
    };
    let first = first.make(w, rt)?;
    match make_all(w, rt, others, ty) {
        Ok(others) => Ok(with_first(w, first, others)?),
        Err(error) => {
            first.give_back(w);
            Err(error)
        }
    }
}

/// The handles of a switch of this type.
pub(crate) fn make_cases<'t, R: Wait>(
    w: &mut Work<'_, 't>,
    rt: &R,
    fallback: &HandleOperand<'_, 't>,
    cases: &[HandleOperand<'_, 't>],
    ty: &MethodTy,
) -> Result<Switched<'t>, HandleError>
    requires ready { IsReady w.old 3 }
    requires fallback { IsOperand (leaves_of w.old) w.old.seat.now fallback.now }
    requires cases { AreAllOperands (leaves_of w.old) w.old.seat.now cases.now }
    requires alike { AreLeavesOfType (leaves_of w.old) ty.now (fallback.now ∷ cases.now) }
    requires light { own_weight fallback.now + own_weights cases.now ≤ 256 }
    ensures goes_on { GoesOn 1 w.old w.new }
    ensures accepted { NothingRefused result }
    ensures types { AddsSwitched w.old w.new result }
    ensures asks { AsksForms (fallback.now ∷ cases.now) w.old w.new result }
    ensures asked { AsksTheirTypes (fallback.now ∷ cases.now) w.old w.new result }
    ensures fallback { (t : Tree) → StandsFor (leaves_of w.old) fallback.now t
        → IfOk result (λ made. StandsIn w.old made.fallback t) }
    ensures cases { (ts : Cases) → StandForEach (leaves_of w.old) cases.now ts
        → IfOk result (λ made. StandForCases (leaves_of w.old) made.cases ts) }
{
    let fallback = fallback.make(w, rt)?;
    match make_all(w, rt, cases, ty) {
        Ok(cases) => Ok(Switched { fallback, cases }),
        Err(error) => {
            fallback.give_back(w);
            Err(error)
        }
    }
}
