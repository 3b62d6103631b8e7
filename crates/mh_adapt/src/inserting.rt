ghost use Rattle.std.specs.Prelude.{IfOk};
ghost use Rattle.mh_tree.specs.Rows.{bind_row, drop_row, permute_row};
ghost use Rattle.mh_tree.specs.Tree.{Tree};
ghost use Rattle.mh_tree.specs.Tree as tree;
ghost use Rattle.mh_handle.specs.Grows.{GainsNode};
ghost use Rattle.mh_handle.specs.Obeys.{Obeys};
ghost use Rattle.mh_handle.specs.Recipe.{recipe};
ghost use Rattle.mh_handle.specs.Works.{GoesOn, HoldsTypes, IsReady, Makes, StandsIn, TradesTypes};
ghost use Rattle.mh_handle.specs.Works.{classes_of, leaves_of, types_in};

use crate::adapting::check_and_adapt;
use mh_handle::{Handle, HandleError, Work};
use mh_tree::Adapter;
use mh_values::{MethodTy, Tys, Value};
use std::sync::Wait;

/// A handle that passes `value` to `target` at `position` and takes no argument for it
/// (`MethodHandles.insertArguments`, SE 17). Refused if there is no such parameter, or if the value
/// does not fit it.
pub fn bind<'t, R: Wait>(
    w: &mut Work<'_, 't>,
    rt: &R,
    target: Handle<'t>,
    position: u8,
    value: Value,
) -> Result<Handle<'t>, HandleError>
    requires ready { IsReady w.old 1 }
    requires held { HoldsTypes w.old target.held }
    ensures goes_on { GoesOn 1 w.old w.new }
    ensures obeys { Obeys (bind_row (classes_of w.old)
        target.entry.ty target.entry.weight position value) result }
    ensures makes { (a : Tree) → StandsIn w.old target.entry a
        → Makes (recipe (leaves_of w.old) (tree.Bind a position value)) w.old w.new result }
    ensures types { TradesTypes (types_in
        (bind_row (classes_of w.old) target.entry.ty target.entry.weight position value))
        target.entry.held w.old w.new result }
    ensures gains { IfOk result (GainsNode target.entry) }
    ensures stands { (a : Tree) → StandsIn w.old target.entry a
        → IfOk result (λ h. StandsIn w.old h (tree.Bind a position value)) }
{
    check_and_adapt(w, rt, target, Adapter::Bind { position, value })
}

/// A handle that takes arguments of the types `value_types` at `position` and does not pass them to
/// `target` (`MethodHandles.dropArguments`, SE 17). Refused if `position` is after the last
/// parameter.
pub fn drop_args<'t, R: Wait>(
    w: &mut Work<'_, 't>,
    rt: &R,
    target: Handle<'t>,
    position: u8,
    value_types: &Tys,
) -> Result<Handle<'t>, HandleError>
    requires ready { IsReady w.old 1 }
    requires held { HoldsTypes w.old target.held }
    ensures goes_on { GoesOn 1 w.old w.new }
    ensures obeys { Obeys
        (drop_row target.entry.ty target.entry.weight position value_types.now) result }
    ensures makes { (a : Tree) → StandsIn w.old target.entry a
        → Makes (recipe (leaves_of w.old) (tree.Drop a position value_types.now)) w.old w.new
        result }
    ensures types { TradesTypes (types_in
        (drop_row target.entry.ty target.entry.weight position value_types.now))
        target.entry.held w.old w.new result }
    ensures gains { IfOk result (GainsNode target.entry) }
    ensures stands { (a : Tree) → StandsIn w.old target.entry a
        → IfOk result (λ h. StandsIn w.old h (tree.Drop a position value_types.now)) }
{
    let adapter = Adapter::Drop {
        position,
        types: value_types,
    };
    check_and_adapt(w, rt, target, adapter)
}

/// A handle of the type `ty` that passes to each parameter of `target` the argument that `reorder`
/// names there (`MethodHandles.permuteArguments`, SE 17). Refused if `reorder` does not name an
/// argument of the same type for each parameter, or if the return types differ.
pub fn permute<'t, R: Wait>(
    w: &mut Work<'_, 't>,
    rt: &R,
    target: Handle<'t>,
    ty: &MethodTy,
    reorder: &[u8],
) -> Result<Handle<'t>, HandleError>
    requires ready { IsReady w.old 1 }
    requires held { HoldsTypes w.old target.held }
    ensures goes_on { GoesOn 1 w.old w.new }
    ensures obeys { Obeys
        (permute_row target.entry.ty target.entry.weight ty.now reorder.now) result }
    ensures makes { (a : Tree) → StandsIn w.old target.entry a
        → Makes (recipe (leaves_of w.old) (tree.Permute a ty.now reorder.now)) w.old w.new result }
    ensures types { TradesTypes (types_in
        (permute_row target.entry.ty target.entry.weight ty.now reorder.now))
        target.entry.held w.old w.new result }
    ensures gains { IfOk result (GainsNode target.entry) }
    ensures stands { (a : Tree) → StandsIn w.old target.entry a
        → IfOk result (λ h. StandsIn w.old h (tree.Permute a ty.now reorder.now)) }
{
    let adapter = Adapter::Permute {
        asked: ty,
        order: reorder,
    };
    check_and_adapt(w, rt, target, adapter)
}
