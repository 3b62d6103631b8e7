ghost use Rattle.std.specs.Prelude.{◌≡◌, ◌≤◌, ◌+◌, ◌-◌, ◌++◌, ◌∷◌, [], IfOk, Ok, length};
ghost use Rattle.mh_tree.specs.Check.{TellsRow};
ghost use Rattle.mh_tree.specs.Rows.{end_types, kept_by, tryfinally_row};
ghost use Rattle.mh_tree.specs.Tree.{Tree};
ghost use Rattle.mh_tree.specs.Tree as tree;
ghost use Rattle.mh_handle.specs.Obeys.{Obeys};
ghost use Rattle.mh_handle.specs.Recipe.{recipe, try_key};
ghost use Rattle.mh_handle.specs.Stands.{IsShaped};
ghost use Rattle.mh_handle.specs.Works.{GoesOn, HoldsTypes, IsAccepted, IsReady, Makes, StandsIn};
ghost use Rattle.mh_handle.specs.Works.{TradesTypes, leaves_of, types_in};
ghost use Rattle.mh_more.specs.Roots.{IsRoot};
ghost use Rattle.mh_more.specs.Several.{HasParts};

use crate::several::{Root, make_rooted_of, pair};
use mh_base::NoMemory;
use mh_edit::Key;
use mh_form::shape;
use mh_handle::{Handle, HandleError, Work};
use mh_tree::{CheckError, check_tryfinally};
use mh_values::{MethodTy, Ty};
use std::alloc::Global;
use std::sync::Wait;

/// How many of the arguments of a target that returns this a cleanup takes.
fn kept_by(cleanup: &MethodTy, ret: Option<Ty>) -> u8
    requires takes { length (end_types ret) ≤ length cleanup.now.params }
    requires few { kept_by cleanup.now ret ≤ 255 }
    ensures { result ≡ kept_by cleanup.now ret }
{
    let first = match ret {
        None => 1,
        Some(_) => 2,
    };
    (cleanup.params.len() - first) as u8
}

/// The type of a target with its cleanup.
fn tryfinally_type<'t>(
    w: &Work<'_, 't>,
    target: &Handle<'t>,
    cleanup: &Handle<'t>,
) -> Result<MethodTy, CheckError>
    ensures { TellsRow result (tryfinally_row target.now.ty target.now.weight cleanup.now.ty
        cleanup.now.weight) }
{
    check_tryfinally(
        w.alloc,
        target.ty(),
        target.weight(),
        cleanup.ty(),
        cleanup.weight(),
        w.classes(),
    )
}

/// What the root of a target with its cleanup makes, if their rule gives this type.
fn try_root(
    alloc: Global,
    ty: MethodTy,
    target: &Handle<'_>,
    cleanup: &Handle<'_>,
) -> Result<Root, NoMemory>
    requires { tryfinally_row target.now.ty target.now.weight cleanup.now.ty cleanup.now.weight
        ≡ Ok ty }
    ensures root { IfOk result (IsRoot ty (1 + target.now.weight + cleanup.now.weight)
        (try_key target.now.ty cleanup.now.ty)) }
    ensures shaped { IsShaped target.now × IsShaped cleanup.now }
{
    let kept = kept_by(cleanup.ty(), target.ty().ret);
    let key = Key::TryRoot {
        shape: shape(alloc, &ty)?,
        cleanup: kept,
    };
    Ok(Root {
        ty,
        weight: 1 + target.weight() + cleanup.weight(),
        key,
    })
}

/// A target with its cleanup, if their rule gives this type. If none is made, both handles are
/// given back.
pub fn tryfinally_of<'t, R: Wait>(
    w: &mut Work<'_, 't>,
    rt: &R,
    target: Handle<'t>,
    cleanup: Handle<'t>,
    ty: MethodTy,
) -> Result<Handle<'t>, HandleError>
    requires ruled { tryfinally_row target.ty target.weight cleanup.ty cleanup.weight ≡ Ok ty }
    requires ready { IsReady w.old 1 }
    requires held { HoldsTypes w.old (target.held ++ cleanup.held) }
    ensures goes_on { GoesOn 1 w.old w.new }
    ensures accepted { IsAccepted result }
    ensures typed { IfOk result (λ h. h.ty ≡ ty) }
    ensures makes { (a b : Tree) → StandsIn w.old target.entry a → StandsIn w.old cleanup.entry b
        → Makes (recipe (leaves_of w.old) (tree.TryFinally a b)) w.old w.new result }
    ensures types { TradesTypes (ty ∷ []) (target.entry.held ++ cleanup.entry.held)
        w.old w.new result }
    ensures gains { IfOk result (HasParts 1 (target.entry ∷ cleanup.entry ∷ [])) }
    ensures stands { (a b : Tree) → StandsIn w.old target.entry a → StandsIn w.old cleanup.entry b
        → IfOk result (λ h. StandsIn w.old h (tree.TryFinally a b)) }
{
    match try_root(w.alloc, ty, &target, &cleanup) {
        Ok(root) => {
            let handles = pair(w, target, cleanup)?;
            make_rooted_of(w, rt, handles, root)
        }
        Err(NoMemory) => {
            target.give_back(w);
            cleanup.refuse(w, CheckError::NoMemory)
        }
    }
}

/// A handle that runs `target` and then `cleanup`, however `target` ends
/// (`MethodHandles.tryFinally`, SE 17). After a result `cleanup` runs on null, the result if there
/// is one, and the first arguments, and its own result is the answer. After an exception it runs on
/// that, the default of the result and those arguments, and then the exception is thrown. Refused
/// if `cleanup` returns another type, or does not take an exception, then the result if there is
/// one, then the first parameters of `target`.
pub fn tryfinally<'t, R: Wait>(
    w: &mut Work<'_, 't>,
    rt: &R,
    target: Handle<'t>,
    cleanup: Handle<'t>,
) -> Result<Handle<'t>, HandleError>
    requires ready { IsReady w.old 1 }
    requires held { HoldsTypes w.old (target.held ++ cleanup.held) }
    ensures goes_on { GoesOn 1 w.old w.new }
    ensures obeys { Obeys (tryfinally_row target.entry.ty target.entry.weight cleanup.entry.ty
        cleanup.entry.weight) result }
    ensures makes { (a b : Tree) → StandsIn w.old target.entry a → StandsIn w.old cleanup.entry b
        → Makes (recipe (leaves_of w.old) (tree.TryFinally a b)) w.old w.new result }
    ensures types { TradesTypes (types_in (tryfinally_row target.entry.ty target.entry.weight
        cleanup.entry.ty cleanup.entry.weight)) (target.entry.held ++ cleanup.entry.held)
        w.old w.new result }
    ensures gains { IfOk result (HasParts 1 (target.entry ∷ cleanup.entry ∷ [])) }
    ensures stands { (a b : Tree) → StandsIn w.old target.entry a → StandsIn w.old cleanup.entry b
        → IfOk result (λ h. StandsIn w.old h (tree.TryFinally a b)) }
{
    match tryfinally_type(w, &target, &cleanup) {
        Ok(ty) => tryfinally_of(w, rt, target, cleanup, ty),
        Err(error) => {
            target.give_back(w);
            cleanup.refuse(w, error)
        }
    }
}
