//! Method handles as operands.

ghost use Rattle.std.specs.Prelude.{◌≡◌, ◌≤◌, ◌+◌, [], ◌∷◌, Ok, IfOk};
ghost use Rattle.mh_values.specs.declared.types.MethodTy.{MethodTy};
ghost use Rattle.mh_leaf.specs.LeafTable.{LeafTable};
ghost use Rattle.mh_tree.specs.Tree.{Tree, weight};
ghost use Rattle.mh_tree.specs.Typing.{type_of};
ghost use Rattle.mh_handle.specs.Works.{IsReady, GoesOn, IsAccepted, StandsIn, leaves_of};
ghost use Rattle.mh_attempt.specs.Asked.{AsksIfMade};
ghost use Rattle.mh_attempt.specs.AskedTypes.{AsksTypesOrThrows, types_made};
ghost use Rattle.mh_attempt.specs.Cases.{IsLeafOfType, leaf_recipe, own_weight};
ghost use Rattle.mh_attempt.specs.Nodes.{IsTypedAs};
ghost use Rattle.mh_attempt.specs.Recipes.{recipes_made};
ghost use Rattle.mh_attempt.specs.Registers.{IsHeldIn, StandsFor, StandsForSome};
ghost use Rattle.mh_attempt.specs.Several.{AddsTypes, DrawsOnce, LearnsOnce};

use mh_handle::{Handle, HandleError, Work, leaf};
use mh_leaves::Leaves;
use mh_tree::Typed;
use mh_values::{LeafId, MethodTy};
use std::sync::Wait;

/// A method handle that an operand names: one that a register holds, or a static argument that is a
/// leaf. A handle of the leaf is made only after the line has passed its checks.
#[derive(Clone, Copy)]
pub(crate) enum HandleOperand<'f, 't> {
    Held(&'f Handle<'t>),
    Leaf(LeafId),
}

impl<'f, 't> HandleOperand<'f, 't> {
    /// Its type.
    pub fn ty<'a>(&'a self, leaves: &'a Leaves) -> &'a MethodTy
        requires { StandsForSome leaves.now self.now }
        ensures { (t : Tree) → StandsFor leaves.now self.now t
            → type_of leaves.now t ≡ Ok result.now }
    {
        match self {
            HandleOperand::Held(handle) => handle.ty(),
            HandleOperand::Leaf(id) => leaves.ty(*id),
        }
    }

    /// The weight of its tree.
    pub fn weight(&self) -> u32
        ensures weight { (leaves : LeafTable) (t : Tree) → StandsFor leaves self.now t
            → result ≡ weight t }
        ensures own { result ≡ own_weight self.now }
        ensures light { result ≤ 256 }
    {
        match self {
            HandleOperand::Held(handle) => handle.weight(),
            HandleOperand::Leaf(_) => 1,
        }
    }

    /// Its type and the weight of its tree.
    pub fn typed<'a>(&'a self, leaves: &'a Leaves) -> Typed<'a>
        requires { StandsForSome leaves.now self.now }
        ensures typed { (t : Tree) → StandsFor leaves.now self.now t
            → IsTypedAs leaves.now t result.ty.now result.weight }
        ensures light { result.weight ≤ 256 }
    {
        Typed {
            ty: self.ty(leaves),
            weight: self.weight(),
        }
    }

    /// A handle of its own: a copy of the held one, or a new handle of the leaf.
    pub fn make<R: Wait>(&self, w: &mut Work<'_, 't>, rt: &R) -> Result<Handle<'t>, HandleError>
        requires ready { IsReady w.old 1 }
        requires stands { StandsForSome (leaves_of w.old) self.now }
        requires held { IsHeldIn w.old.seat.now self.now }
        ensures goes_on { GoesOn 1 w.old w.new }
        ensures accepted { IsAccepted result }
        ensures types { AddsTypes w.old w.new result }
        ensures asks { AsksIfMade (recipes_made (leaves_of w.old) (self.now ∷ []) [])
            w.old w.new result }
        ensures asked { AsksTypesOrThrows (types_made (leaves_of w.old) (self.now ∷ []) [])
            w.old w.new result }
        ensures stands { (t : Tree) → StandsFor (leaves_of w.old) self.now t
            → IfOk result (λ h. StandsIn w.old h t) }
        ensures draws { (ty : MethodTy) → IsLeafOfType (leaves_of w.old) ty self.now
            → DrawsOnce (leaf_recipe ty) w.old.pass.now w.new.pass.now }
        ensures learns { (ty : MethodTy) → IsLeafOfType (leaves_of w.old) ty self.now
            → IfOk result (λ h. LearnsOnce (leaf_recipe ty) w.old.pass.now w.new.pass.now) }
        ensures room { w.old.seat.now.room ≤ w.new.seat.now.room + own_weight self.now }
    {
        match self {
            HandleOperand::Held(handle) => Ok(handle.copy(w)?),
            HandleOperand::Leaf(id) => {
                let made = leaf(w, rt, *id)?;
                // It holds no more types than it weighs.
                let _ty = made.ty();
                Ok(made)
            }
        }
    }
}
