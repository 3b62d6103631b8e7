//! Adapters of a handle's arguments. If the new handle is not made, the old one is given back.

ghost use Rattle.std.specs.Prelude.{◌≡◌, ◌∷◌, [], IfOk, Ok};
ghost use Rattle.mh_tree.specs.Adapters.{adapter_row, adapter_tree};
ghost use Rattle.mh_tree.specs.Tree.{Tree};
ghost use Rattle.mh_handle.specs.Grows.{GainsNode};
ghost use Rattle.mh_handle.specs.Obeys.{Obeys};
ghost use Rattle.mh_handle.specs.Recipe.{recipe};
ghost use Rattle.mh_handle.specs.Works.{GoesOn, HoldsTypes, IsAccepted, IsReady, Makes};
ghost use Rattle.mh_handle.specs.Works.{StandsIn, TradesTypes, classes_of, leaves_of, types_in};

use crate::nodes::adapter_growth;
use crate::types::adapter_type;
use mh_base::NoMemory;
use mh_handle::{Handle, HandleError, Work};
use mh_tree::{Adapter, CheckError};
use mh_values::MethodTy;
use std::sync::Wait;

/// The adapted handle, if the adapter's rule gives this type. If none is made, the old handle is
/// given back.
pub fn adapt<'t, R: Wait>(
    w: &mut Work<'_, 't>,
    rt: &R,
    target: Handle<'t>,
    adapter: Adapter<'_>,
    ty: MethodTy,
) -> Result<Handle<'t>, HandleError>
    requires ruled { adapter_row (classes_of w.old) adapter target.ty target.weight ≡ Ok ty }
    requires ready { IsReady w.old 1 }
    requires held { HoldsTypes w.old target.held }
    ensures goes_on { GoesOn 1 w.old w.new }
    ensures accepted { IsAccepted result }
    ensures typed { IfOk result (λ h. h.ty ≡ ty) }
    ensures makes { (a : Tree) → StandsIn w.old target.entry a
        → Makes (recipe (leaves_of w.old) (adapter_tree adapter.entry a)) w.old w.new result }
    ensures types { TradesTypes (ty ∷ []) target.entry.held w.old w.new result }
    ensures gains { IfOk result (GainsNode target.entry) }
    ensures stands { (a : Tree) → StandsIn w.old target.entry a
        → IfOk result (λ h. StandsIn w.old h (adapter_tree adapter.entry a)) }
{
    match adapter_growth(w, &target, adapter, ty) {
        Ok(by) => target.grown(w, rt, by),
        Err(NoMemory) => target.refuse(w, CheckError::NoMemory),
    }
}

/// The adapted handle, or the refusal by the adapter's rule.
pub(crate) fn check_and_adapt<'t, R: Wait>(
    w: &mut Work<'_, 't>,
    rt: &R,
    target: Handle<'t>,
    adapter: Adapter<'_>,
) -> Result<Handle<'t>, HandleError>
    requires ready { IsReady w.old 1 }
    requires held { HoldsTypes w.old target.held }
    ensures goes_on { GoesOn 1 w.old w.new }
    ensures obeys { Obeys (adapter_row (classes_of w.old) adapter.entry
        target.entry.ty target.entry.weight) result }
    ensures makes { (a : Tree) → StandsIn w.old target.entry a
        → Makes (recipe (leaves_of w.old) (adapter_tree adapter.entry a)) w.old w.new result }
    ensures types { TradesTypes (types_in (adapter_row (classes_of w.old) adapter.entry
        target.entry.ty target.entry.weight)) target.entry.held w.old w.new result }
    ensures gains { IfOk result (GainsNode target.entry) }
    ensures stands { (a : Tree) → StandsIn w.old target.entry a
        → IfOk result (λ h. StandsIn w.old h (adapter_tree adapter.entry a)) }
{
    match adapter_type(w, &target, &adapter) {
        Ok(ty) => adapt(w, rt, target, adapter, ty),
        Err(error) => target.refuse(w, error),
    }
}
