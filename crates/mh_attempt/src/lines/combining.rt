//! The combinators of one handle, of two and of three: their rules, and the handles that they make.

ghost use Rattle.std.specs.Prelude.{◌≡◌, ◌∷◌, ◌++◌, [], Ok, IfOk};
ghost use Rattle.mh_tree.specs.Check.{TellsRow};
ghost use Rattle.mh_tree.specs.Tree.{Tree};
ghost use Rattle.mh_handle.specs.Recipe.{recipe};
ghost use Rattle.mh_handle.specs.Works.{GoesOn, HoldsTypes, IsAccepted, IsReady, Makes};
ghost use Rattle.mh_handle.specs.Works.{StandsIn, TradesTypes, classes_of, leaves_of};
ghost use Rattle.mh_attempt.specs.Nodes.{one_row, one_tree, three_row, three_tree, two_row, two_tree};

use crate::lines::nodes::{OfOne, OfThree, OfTwo};
use mh_adapt::{Pair, adapt, join};
use mh_branch::{Branches, Caught, Gathered, catch_of, gather_of, guard_of};
use mh_handle::{Handle, HandleError, Work};
use mh_more::{Looped, counted_of, tryfinally_of};
use mh_tree::{
    Adapter, CheckError, Typed, check_bind, check_catch, check_counted, check_drop, check_gather,
    check_guard, check_joint, check_permute, check_tryfinally,
};
use mh_values::{Classes, MethodTy};
use std::alloc::Global;
use std::sync::Wait;

/// The type that a combinator of one handle makes, or the refusal.
pub(crate) fn check_one(
    alloc: Global,
    target: Typed<'_>,
    by: &OfOne<'_>,
    classes: &Classes,
) -> Result<MethodTy, CheckError>
    ensures { TellsRow result
        (one_row classes.now by.now target.entry.ty.now target.entry.weight) }
{
    let (ty, weight) = (target.ty, target.weight);
    match by {
        OfOne::Bind(position, value) => check_bind(alloc, ty, weight, *position, value, classes),
        OfOne::Drop(position, types) => check_drop(alloc, ty, weight, *position, types, classes),
        OfOne::Permute(asked, order) => {
            check_permute(alloc, ty, weight, asked.get(), order, classes)
        }
        OfOne::Gather(array, count) => check_gather(alloc, ty, weight, *array, *count, classes),
    }
}

/// The type that a combinator of two handles makes, or the refusal.
pub(crate) fn check_two(
    alloc: Global,
    target: Typed<'_>,
    by: OfTwo,
    part: Typed<'_>,
    classes: &Classes,
) -> Result<MethodTy, CheckError>
    ensures { TellsRow result (two_row classes.now by target.entry.ty.now target.entry.weight
        part.entry.ty.now part.entry.weight) }
{
    let (ty, weight) = (target.ty, target.weight);
    match by {
        OfTwo::Joint(joint) => check_joint(alloc, target, joint, part, classes),
        OfTwo::Catch(class) => {
            check_catch(alloc, ty, weight, class, part.ty, part.weight, classes)
        }
        OfTwo::TryFinally => check_tryfinally(alloc, ty, weight, part.ty, part.weight, classes),
    }
}

/// The type that a combinator of three handles makes, or the refusal.
pub(crate) fn check_three(
    alloc: Global,
    parts: (Typed<'_>, Typed<'_>, Typed<'_>),
    by: OfThree,
    classes: &Classes,
) -> Result<MethodTy, CheckError>
    ensures { TellsRow result (three_row by parts.entry.0.ty.now parts.entry.0.weight
        parts.entry.1.ty.now parts.entry.1.weight parts.entry.2.ty.now parts.entry.2.weight) }
{
    let (a, b, c) = parts;
    match by {
        OfThree::Guard => check_guard(
            alloc, a.ty, a.weight, b.ty, b.weight, c.ty, c.weight, classes,
        ),
        OfThree::Counted => check_counted(
            alloc, a.ty, a.weight, b.ty, b.weight, c.ty, c.weight, classes,
        ),
    }
}

/// The handle that a combinator of one handle makes, if its rule gives this type.
pub(crate) fn of_one<'t, R: Wait>(
    w: &mut Work<'_, 't>,
    rt: &R,
    target: Handle<'t>,
    by: OfOne<'_>,
    ty: MethodTy,
) -> Result<Handle<'t>, HandleError>
    requires ruled { one_row (classes_of w.old) by target.ty target.weight ≡ Ok ty }
    requires ready { IsReady w.old 1 }
    requires held { HoldsTypes w.old target.held }
    ensures goes_on { GoesOn 1 w.old w.new }
    ensures accepted { IsAccepted result }
    ensures makes { (t : Tree) → StandsIn w.old target.entry t
        → Makes (recipe (leaves_of w.old) (one_tree by.entry t)) w.old w.new result }
    ensures types { TradesTypes (ty ∷ []) target.entry.held w.old w.new result }
    ensures stands { (t : Tree) → StandsIn w.old target.entry t
        → IfOk result (λ h. StandsIn w.old h (one_tree by.entry t)) }
{
    match by {
        OfOne::Bind(position, value) => adapt(w, rt, target, Adapter::Bind { position, value }, ty),
        OfOne::Drop(position, types) => {
            let types = &types;
            adapt(w, rt, target, Adapter::Drop { position, types }, ty)
        }
        OfOne::Permute(asked, order) => {
            let asked = asked.get();
            adapt(w, rt, target, Adapter::Permute { asked, order }, ty)
        }
        OfOne::Gather(array, count) => gather_of(w, rt, target, Gathered { array, count }, ty),
    }
}

/// The handle that a combinator of two handles makes, if its rule gives this type.
pub(crate) fn of_two<'t, R: Wait>(
    w: &mut Work<'_, 't>,
    rt: &R,
    parts: (Handle<'t>, Handle<'t>),
    by: OfTwo,
    ty: MethodTy,
) -> Result<Handle<'t>, HandleError>
    requires ruled { two_row (classes_of w.old) by parts.0.ty parts.0.weight
        parts.1.ty parts.1.weight ≡ Ok ty }
    requires ready { IsReady w.old 1 }
    requires held { HoldsTypes w.old (parts.0.held ++ parts.1.held) }
    ensures goes_on { GoesOn 1 w.old w.new }
    ensures accepted { IsAccepted result }
    ensures makes { (t p : Tree) → StandsIn w.old parts.entry.0 t → StandsIn w.old parts.entry.1 p
        → Makes (recipe (leaves_of w.old) (two_tree by t p)) w.old w.new result }
    ensures types { TradesTypes (ty ∷ []) (parts.entry.0.held ++ parts.entry.1.held)
        w.old w.new result }
    ensures stands { (t p : Tree) → StandsIn w.old parts.entry.0 t → StandsIn w.old parts.entry.1 p
        → IfOk result (λ h. StandsIn w.old h (two_tree by t p)) }
{
    let (target, part) = parts;
    match by {
        OfTwo::Joint(joint) => join(w, rt, Pair { target, part }, joint, ty),
        OfTwo::Catch(class) => {
            let caught = Caught {
                target,
                class,
                handler: part,
            };
            catch_of(w, rt, caught, ty)
        }
        OfTwo::TryFinally => tryfinally_of(w, rt, target, part, ty),
    }
}

/// The handle that a combinator of three handles makes, if its rule gives this type.
pub(crate) fn of_three<'t, R: Wait>(
    w: &mut Work<'_, 't>,
    rt: &R,
    parts: (Handle<'t>, Handle<'t>, Handle<'t>),
    by: OfThree,
    ty: MethodTy,
) -> Result<Handle<'t>, HandleError>
    requires ruled { three_row by parts.0.ty parts.0.weight
        parts.1.ty parts.1.weight parts.2.ty parts.2.weight ≡ Ok ty }
    requires ready { IsReady w.old 1 }
    requires held { HoldsTypes w.old (parts.0.held ++ parts.1.held ++ parts.2.held) }
    ensures goes_on { GoesOn 1 w.old w.new }
    ensures accepted { IsAccepted result }
    ensures makes { (a b d : Tree) → StandsIn w.old parts.entry.0 a → StandsIn w.old parts.entry.1 b
        → StandsIn w.old parts.entry.2 d
        → Makes (recipe (leaves_of w.old) (three_tree by a b d)) w.old w.new result }
    ensures types { TradesTypes (ty ∷ [])
        (parts.entry.0.held ++ parts.entry.1.held ++ parts.entry.2.held) w.old w.new result }
    ensures stands { (a b d : Tree) → StandsIn w.old parts.entry.0 a
        → StandsIn w.old parts.entry.1 b
        → StandsIn w.old parts.entry.2 d
        → IfOk result (λ h. StandsIn w.old h (three_tree by a b d)) }
{
    let (first, second, third) = parts;
    match by {
        OfThree::Guard => {
            let branches = Branches {
                test: first,
                target: second,
                fallback: third,
            };
            guard_of(w, rt, branches, ty)
        }
        OfThree::Counted => {
            let looped = Looped {
                iterations: first,
                init: second,
                body: third,
            };
            counted_of(w, rt, looped, ty)
        }
    }
}
