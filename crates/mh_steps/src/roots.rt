//! Handles that are made from leaves and constants alone.

ghost use Rattle.std.specs.Prelude.{[], IfOk};
ghost use Rattle.mh_handle.specs.Stands.{StandsForSome};
ghost use Rattle.mh_handle.specs.Works.{IsReady, GoesOn, leaves_of};
ghost use Rattle.mh_steps.specs.AnyTypes.{TradesAny};

use crate::leaves::{constant_of, leaf_at, leaves_at, two_constants, two_leaves};
use crate::literals::checked_type;
use crate::step::Root;
use mh_branch::{catch, guard, identity, throw};
use mh_handle::{Handle, HandleError, Work};
use mh_more::{counted, switch, tryfinally};
use mh_values::{ClassId, LeafId};
use std::sync::Wait;

fn guarded<'t, R: Wait>(
    w: &mut Work<'_, 't>,
    rt: &R,
    test: LeafId,
    target: LeafId,
    fallback: LeafId,
) -> Result<Handle<'t>, HandleError>
    requires ready { IsReady w.old 4 }
    ensures goes_on { GoesOn 4 w.old w.new }
    ensures types { TradesAny [] w.old w.new result }
    ensures stands { IfOk result (StandsForSome (leaves_of w.old)) }
{
    let (test, target) = two_leaves(w, rt, test, target)?;
    match leaf_at(w, rt, fallback) {
        Ok(fallback) => guard(w, rt, test, target, fallback),
        Err(error) => {
            test.give_back(w);
            target.give_back(w);
            Err(error)
        }
    }
}

fn caught<'t, R: Wait>(
    w: &mut Work<'_, 't>,
    rt: &R,
    target: LeafId,
    class: ClassId,
    handler: LeafId,
) -> Result<Handle<'t>, HandleError>
    requires ready { IsReady w.old 3 }
    ensures goes_on { GoesOn 3 w.old w.new }
    ensures types { TradesAny [] w.old w.new result }
    ensures stands { IfOk result (StandsForSome (leaves_of w.old)) }
{
    let (target, handler) = two_leaves(w, rt, target, handler)?;
    catch(w, rt, target, class, handler)
}

/// One case more than a switch may have.
pub(crate) const MOST_CASES: usize = 17;

/// A switch. More than 17 cases are answered as lack of memory; [`check`](crate::check) finds them
/// before.
fn switched<'t, R: Wait>(
    w: &mut Work<'_, 't>,
    rt: &R,
    fallback: LeafId,
    cases: &[LeafId],
) -> Result<Handle<'t>, HandleError>
    requires ready { IsReady w.old 19 }
    ensures goes_on { GoesOn 19 w.old w.new }
    ensures types { TradesAny [] w.old w.new result }
    ensures stands { IfOk result (StandsForSome (leaves_of w.old)) }
{
    if cases.len() > MOST_CASES {
        return Err(HandleError::NoMemory);
    }
    let fallback = leaf_at(w, rt, fallback)?;
    match leaves_at(w, rt, cases) {
        Ok(cases) => switch(w, rt, fallback, cases),
        Err(error) => {
            fallback.give_back(w);
            Err(error)
        }
    }
}

fn cleaned<'t, R: Wait>(
    w: &mut Work<'_, 't>,
    rt: &R,
    target: LeafId,
    cleanup: LeafId,
) -> Result<Handle<'t>, HandleError>
    requires ready { IsReady w.old 3 }
    ensures goes_on { GoesOn 3 w.old w.new }
    ensures types { TradesAny [] w.old w.new result }
    ensures stands { IfOk result (StandsForSome (leaves_of w.old)) }
{
    let (target, cleanup) = two_leaves(w, rt, target, cleanup)?;
    tryfinally(w, rt, target, cleanup)
}

fn looped<'t, R: Wait>(
    w: &mut Work<'_, 't>,
    rt: &R,
    turns: &str,
    body: LeafId,
) -> Result<Handle<'t>, HandleError>
    requires ready { IsReady w.old 4 }
    ensures goes_on { GoesOn 4 w.old w.new }
    ensures types { TradesAny [] w.old w.new result }
    ensures stands { IfOk result (StandsForSome (leaves_of w.old)) }
{
    let (iterations, init) = two_constants(w, rt, "()I", turns, "I:0")?;
    match leaf_at(w, rt, body) {
        Ok(body) => counted(w, rt, iterations, init, body),
        Err(error) => {
            iterations.give_back(w);
            init.give_back(w);
            Err(error)
        }
    }
}

/// The handle of a root, for which up to 19 numbers of forms may be drawn.
pub(crate) fn rooted<'t, R: Wait>(
    w: &mut Work<'_, 't>,
    rt: &R,
    root: Root,
) -> Result<Handle<'t>, HandleError>
    requires ready { IsReady w.old 19 }
    ensures goes_on { GoesOn 19 w.old w.new }
    ensures types { TradesAny [] w.old w.new result }
    ensures stands { IfOk result (StandsForSome (leaves_of w.old)) }
{
    let classes = w.leaves.classes();
    match root {
        Root::Leaf(id) => leaf_at(w, rt, id),
        Root::Constant(text, value) => constant_of(w, rt, text, value),
        Root::Identity(text) => {
            let ty = checked_type(w.alloc, text, classes)?.ret;
            identity(w, rt, ty)
        }
        Root::Throw(text, class) => {
            let ret = checked_type(w.alloc, text, classes)?.ret;
            throw(w, rt, ret, class)
        }
        Root::Guard(test, target, fallback) => guarded(w, rt, test, target, fallback),
        Root::Catch(target, class, handler) => caught(w, rt, target, class, handler),
        Root::Switch(fallback, cases) => switched(w, rt, fallback, cases),
        Root::TryFinally(target, cleanup) => cleaned(w, rt, target, cleanup),
        Root::Counted(turns, body) => looped(w, rt, turns, body),
    }
}
