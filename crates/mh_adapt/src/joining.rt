//! Joints of a handle and a part. If the new handle is not made, both are given back.

ghost use Rattle.std.specs.Prelude.{◌≡◌, ◌≤◌, ◌+◌, ◌++◌, ◌∷◌, [], Ok, Err, IfOk, IsTrue, length};
ghost use Rattle.mh_tree.specs.Joints.{joint_row, joint_tree};
ghost use Rattle.mh_tree.specs.Tree.{Tree};
ghost use Rattle.mh_edit.specs.Applied.{applied};
ghost use Rattle.mh_edit.specs.Fit.{fits};
ghost use Rattle.mh_intern.specs.Exchanges.{Exchanges};
ghost use Rattle.mh_handle.specs.Errors.{of_check};
ghost use Rattle.mh_handle.specs.Grows.{GainsPart};
ghost use Rattle.mh_handle.specs.Obeys.{Obeys};
ghost use Rattle.mh_handle.specs.Parts.{no_parts};
ghost use Rattle.mh_handle.specs.Recipe.{recipe};
ghost use Rattle.mh_handle.specs.Stands.{HasShape, handle_body};
ghost use Rattle.mh_handle.specs.Works.{GoesOn, HoldsTypes, IsAccepted, IsReady, IsUnchanged};
ghost use Rattle.mh_handle.specs.Works.{Makes, StandsIn, TradesTypes, leaves_of, types_in};
ghost use Rattle.mh_adapt.specs.Parts.{GrowsByPart};

use crate::growths::joint_growth;
use crate::types::joint_type;
use mh_base::NoMemory;
use mh_handle::{Growth, Handle, HandleError, Work};
use mh_tree::{CheckError, Joint};
use mh_values::MethodTy;
use std::sync::Wait;

/// A handle, and the part that is joined to it.
#[derive(Drop)]
pub struct Pair<'t> {
    pub target: Handle<'t>,
    pub part: Handle<'t>,
}

/// Gives back the handle and the part, and answers the refusal.
pub(crate) fn refuse_with<'t>(
    w: &mut Work<'_, 't>,
    target: Handle<'t>,
    part: Handle<'t>,
    error: CheckError,
) -> Result<Handle<'t>, HandleError>
    requires of_types { w.old.seat.now.table ≡ w.old.types.now }
    requires held { HoldsTypes w.old (target.held ++ part.held) }
    ensures unchanged { IsUnchanged w.old w.new }
    ensures error { result ≡ Err (of_check error) }
    ensures types { Exchanges [] (target.entry.held ++ part.entry.held) []
        w.old.seat.now w.new.seat.now }
{
    target.give_back(w);
    part.refuse(w, error)
}

/// The handle after the edit, with the part. If none is made, both are given back.
pub(crate) fn grow_with<'t, R: Wait>(
    w: &mut Work<'_, 't>,
    rt: &R,
    target: Handle<'t>,
    by: Growth<'t>,
    part: Handle<'t>,
) -> Result<Handle<'t>, HandleError>
    requires none { by.parts ≡ no_parts }
    requires fits { IsTrue (fits by.key (handle_body target)) }
    requires shaped { HasShape (applied by.key (handle_body target)) by.ty }
    requires light { by.weight ≤ 256 }
    requires few { length target.held + length part.held ≤ by.weight }
    requires ready { IsReady w.old 1 }
    requires held { HoldsTypes w.old (target.held ++ part.held) }
    ensures goes_on { GoesOn 1 w.old w.new }
    ensures makes { Makes (target.entry.form.recipe ++ by.entry.key ∷ []) w.old w.new result }
    ensures accepted { IsAccepted result }
    ensures grows { GrowsByPart target.entry by.entry part.entry result }
    ensures types { TradesTypes (by.entry.ty ∷ []) (target.entry.held ++ part.entry.held)
        w.old w.new result }
{
    let mut by = by;
    match by.parts.push(w, part) {
        Ok(()) => target.grown(w, rt, by),
        Err(NoMemory) => {
            target.give_back(w);
            Err(HandleError::NoMemory)
        }
    }
}

/// The handle joined with the part, if the joint's rule gives this type. If none is made, both are
/// given back.
pub fn join<'t, R: Wait>(
    w: &mut Work<'_, 't>,
    rt: &R,
    pair: Pair<'t>,
    joint: Joint,
    ty: MethodTy,
) -> Result<Handle<'t>, HandleError>
    requires ruled { joint_row joint pair.target.ty pair.target.weight
        pair.part.ty pair.part.weight ≡ Ok ty }
    requires ready { IsReady w.old 1 }
    requires held { HoldsTypes w.old (pair.target.held ++ pair.part.held) }
    ensures goes_on { GoesOn 1 w.old w.new }
    ensures accepted { IsAccepted result }
    ensures typed { IfOk result (λ h. h.ty ≡ ty) }
    ensures makes { (a b : Tree) → StandsIn w.old pair.entry.target a
        → StandsIn w.old pair.entry.part b
        → Makes (recipe (leaves_of w.old) (joint_tree joint a b)) w.old w.new result }
    ensures types { TradesTypes (ty ∷ []) (pair.entry.target.held ++ pair.entry.part.held)
        w.old w.new result }
    ensures gains { IfOk result (GainsPart pair.entry.part pair.entry.target) }
    ensures stands { (a b : Tree) → StandsIn w.old pair.entry.target a
        → StandsIn w.old pair.entry.part b
        → IfOk result (λ h. StandsIn w.old h (joint_tree joint a b)) }
{
    let Pair { target, part } = pair;
    match joint_growth(w.alloc, ty, &target, joint, &part) {
        Ok(by) => grow_with(w, rt, target, by, part),
        Err(NoMemory) => refuse_with(w, target, part, CheckError::NoMemory),
    }
}

/// The handle joined with the part, or the refusal by the joint's rule.
pub(crate) fn check_and_join<'t, R: Wait>(
    w: &mut Work<'_, 't>,
    rt: &R,
    target: Handle<'t>,
    joint: Joint,
    part: Handle<'t>,
) -> Result<Handle<'t>, HandleError>
    requires ready { IsReady w.old 1 }
    requires held { HoldsTypes w.old (target.held ++ part.held) }
    ensures goes_on { GoesOn 1 w.old w.new }
    ensures obeys { Obeys (joint_row joint target.entry.ty target.entry.weight
        part.entry.ty part.entry.weight) result }
    ensures makes { (a b : Tree) → StandsIn w.old target.entry a → StandsIn w.old part.entry b
        → Makes (recipe (leaves_of w.old) (joint_tree joint a b)) w.old w.new result }
    ensures types { TradesTypes (types_in (joint_row joint target.entry.ty target.entry.weight
        part.entry.ty part.entry.weight)) (target.entry.held ++ part.entry.held)
        w.old w.new result }
    ensures gains { IfOk result (GainsPart part.entry target.entry) }
    ensures stands { (a b : Tree) → StandsIn w.old target.entry a → StandsIn w.old part.entry b
        → IfOk result (λ h. StandsIn w.old h (joint_tree joint a b)) }
{
    match joint_type(w, &target, joint, &part) {
        Ok(ty) => join(w, rt, Pair { target, part }, joint, ty),
        Err(error) => refuse_with(w, target, part, error),
    }
}
