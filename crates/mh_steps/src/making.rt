//! Handles made by a root and adapters, which are given as texts.

ghost use Rattle.std.specs.Prelude.{◌≡◌, ◌++◌, ◌≤◌, [], length, IfOk};
ghost use Rattle.mh_intern.specs.Exchanges.{Exchanges};
ghost use Rattle.mh_handle.specs.Stands.{StandsForSome};
ghost use Rattle.mh_handle.specs.Works.{HoldsTypes, IsReady, IsUnchanged, GoesOn, leaves_of};
ghost use Rattle.mh_steps.specs.AnyTypes.{TradesAny};

use crate::leaves::leaf_at;
use crate::literals::{checked_type, checked_value};
use crate::roots::rooted;
use crate::step::{Joined, Root, Step, Typed};
use mh_adapt::{bind, collect, drop_args, filter, filterret, fold, permute};
use mh_astype::as_type;
use mh_base::NoMemory;
use mh_branch::gather;
use mh_handle::{Handle, HandleError, Work};
use mh_more::explicit;
use mh_spread::spread;
use mh_values::{LeafId, MethodTy};
use std::sync::Wait;

/// Lack of memory, after a handle is given back.
fn given_back<'t>(w: &mut Work<'_, 't>, handle: Handle<'t>) -> HandleError
    requires of_types { w.old.seat.now.table ≡ w.old.types.now }
    requires held { HoldsTypes w.old handle.held }
    ensures unchanged { IsUnchanged w.old w.new }
    ensures types { Exchanges [] handle.entry.held [] w.old.seat.now w.new.seat.now }
{
    handle.give_back(w);
    HandleError::NoMemory
}

fn bound<'t, R: Wait>(
    w: &mut Work<'_, 't>,
    rt: &R,
    target: Handle<'t>,
    position: u8,
    text: &str,
) -> Result<Handle<'t>, HandleError>
    requires ready { IsReady w.old 1 }
    requires held { HoldsTypes w.old target.held }
    requires stands { StandsForSome (leaves_of w.old) target }
    ensures goes_on { GoesOn 1 w.old w.new }
    ensures types { TradesAny target.entry.held w.old w.new result }
    ensures stands { IfOk result (StandsForSome (leaves_of w.old)) }
{
    match checked_value(w.alloc, text, w.leaves.classes()) {
        Ok(value) => bind(w, rt, target, position, value),
        Err(NoMemory) => Err(given_back(w, target)),
    }
}

fn by_type<'t, R: Wait>(
    w: &mut Work<'_, 't>,
    rt: &R,
    target: Handle<'t>,
    ty: &MethodTy,
    how: Typed,
) -> Result<Handle<'t>, HandleError>
    requires ready { IsReady w.old 2 }
    requires held { HoldsTypes w.old target.held }
    requires stands { StandsForSome (leaves_of w.old) target }
    ensures goes_on { GoesOn 2 w.old w.new }
    ensures types { TradesAny target.entry.held w.old w.new result }
    ensures stands { IfOk result (StandsForSome (leaves_of w.old)) }
{
    match how {
        Typed::Drop(position) => drop_args(w, rt, target, position, &ty.params),
        Typed::Permute(reorder) => permute(w, rt, target, ty, reorder),
        Typed::Spread(count) => spread(w, rt, target, ty.ret, count),
        Typed::Gather(count) => gather(w, rt, target, ty.ret, count),
        Typed::AsType => as_type(w, rt, target, ty),
        Typed::Explicit => explicit(w, rt, target, ty),
    }
}

fn with_type<'t, R: Wait>(
    w: &mut Work<'_, 't>,
    rt: &R,
    target: Handle<'t>,
    text: &str,
    how: Typed,
) -> Result<Handle<'t>, HandleError>
    requires ready { IsReady w.old 2 }
    requires held { HoldsTypes w.old target.held }
    requires stands { StandsForSome (leaves_of w.old) target }
    ensures goes_on { GoesOn 2 w.old w.new }
    ensures types { TradesAny target.entry.held w.old w.new result }
    ensures stands { IfOk result (StandsForSome (leaves_of w.old)) }
{
    match checked_type(w.alloc, text, w.leaves.classes()) {
        Ok(ty) => by_type(w, rt, target, &ty, how),
        Err(NoMemory) => Err(given_back(w, target)),
    }
}

fn by_part<'t, R: Wait>(
    w: &mut Work<'_, 't>,
    rt: &R,
    target: Handle<'t>,
    part: Handle<'t>,
    how: Joined,
) -> Result<Handle<'t>, HandleError>
    requires ready { IsReady w.old 1 }
    requires held { HoldsTypes w.old (target.held ++ part.held) }
    requires stands { StandsForSome (leaves_of w.old) target }
    requires part { StandsForSome (leaves_of w.old) part }
    ensures goes_on { GoesOn 1 w.old w.new }
    ensures types { TradesAny (target.entry.held ++ part.entry.held) w.old w.new result }
    ensures stands { IfOk result (StandsForSome (leaves_of w.old)) }
{
    match how {
        Joined::Filter(position) => filter(w, rt, target, position, part),
        Joined::Fold(position) => fold(w, rt, target, position, part),
        Joined::Collect(position) => collect(w, rt, target, position, part),
    }
}

fn with_part<'t, R: Wait>(
    w: &mut Work<'_, 't>,
    rt: &R,
    target: Handle<'t>,
    id: LeafId,
    how: Joined,
) -> Result<Handle<'t>, HandleError>
    requires ready { IsReady w.old 2 }
    requires held { HoldsTypes w.old target.held }
    requires stands { StandsForSome (leaves_of w.old) target }
    ensures goes_on { GoesOn 2 w.old w.new }
    ensures types { TradesAny target.entry.held w.old w.new result }
    ensures stands { IfOk result (StandsForSome (leaves_of w.old)) }
{
    match leaf_at(w, rt, id) {
        Ok(part) => by_part(w, rt, target, part, how),
        Err(error) => {
            target.give_back(w);
            Err(error)
        }
    }
}

fn doubled<'t, R: Wait>(
    w: &mut Work<'_, 't>,
    rt: &R,
    target: Handle<'t>,
) -> Result<Handle<'t>, HandleError>
    requires ready { IsReady w.old 2 }
    requires held { HoldsTypes w.old target.held }
    requires stands { StandsForSome (leaves_of w.old) target }
    ensures goes_on { GoesOn 2 w.old w.new }
    ensures types { TradesAny target.entry.held w.old w.new result }
    ensures stands { IfOk result (StandsForSome (leaves_of w.old)) }
{
    match target.copy(w) {
        Ok(part) => filterret(w, rt, target, part),
        Err(NoMemory) => Err(given_back(w, target)),
    }
}

fn adapted<'t, R: Wait>(
    w: &mut Work<'_, 't>,
    rt: &R,
    target: Handle<'t>,
    step: Step,
) -> Result<Handle<'t>, HandleError>
    requires ready { IsReady w.old 2 }
    requires held { HoldsTypes w.old target.held }
    requires stands { StandsForSome (leaves_of w.old) target }
    ensures goes_on { GoesOn 2 w.old w.new }
    ensures types { TradesAny target.entry.held w.old w.new result }
    ensures stands { IfOk result (StandsForSome (leaves_of w.old)) }
{
    match step {
        Step::Bind(position, text) => bound(w, rt, target, position, text),
        Step::Typed(text, how) => with_type(w, rt, target, text, how),
        Step::Joined(id, how) => with_part(w, rt, target, id, how),
        Step::Doubled => doubled(w, rt, target),
    }
}

/// The handle of a root after up to 100 steps, for which up to 219 numbers of forms may be drawn.
/// What [`check`](crate::check) refuses is answered as lack of memory here.
pub fn made<'t, R: Wait>(
    w: &mut Work<'_, 't>,
    rt: &R,
    root: Root,
    steps: &[Step],
) -> Result<Handle<'t>, HandleError>
    requires ready { IsReady w.old 219 }
    requires few { length steps.now ≤ 100 }
    ensures goes_on { GoesOn 219 w.old w.new }
    ensures types { TradesAny [] w.old w.new result }
    ensures stands { IfOk result (StandsForSome (leaves_of w.old)) }
{
    let mut h = rooted(w, rt, root)?;
    for step in steps {
        h = adapted(w, rt, h, *step)?;
    }
    Ok(h)
}
