//! Handles of leaves and constants: one, two, or several.

ghost use Rattle.std.specs.Prelude.{[], length, IfOk};
ghost use Rattle.mh_handle.specs.Stands.{StandsForSome};
ghost use Rattle.mh_handle.specs.Works.{IsReady, GoesOn, leaves_of};
ghost use Rattle.mh_steps.specs.AnyTypes.{TradesAnyAll, TradesAnyBoth, TradesAny};
ghost use Rattle.mh_steps.specs.SomeCases.{StandForSome};

use crate::literals::{checked_type, checked_value};
use mh_base::Seq;
use mh_branch::constant;
use mh_handle::{Handle, HandleError, Work, leaf};
use mh_more::{Handles, with_first};
use mh_values::LeafId;
use std::sync::Wait;

/// The handle of a leaf. A number that no leaf has is answered as lack of memory; [`check`] finds
/// it before.
///
/// [`check`]: crate::check
pub(crate) fn leaf_at<'t, R: Wait>(
    w: &mut Work<'_, 't>,
    rt: &R,
    id: LeafId,
) -> Result<Handle<'t>, HandleError>
    requires ready { IsReady w.old 1 }
    ensures goes_on { GoesOn 1 w.old w.new }
    ensures types { TradesAny [] w.old w.new result }
    ensures stands { IfOk result (StandsForSome (leaves_of w.old)) }
{
    if id.0 >= w.leaves.count() {
        return Err(HandleError::NoMemory);
    }
    leaf(w, rt, id)
}

/// The handles of two leaves.
pub(crate) fn two_leaves<'t, R: Wait>(
    w: &mut Work<'_, 't>,
    rt: &R,
    one: LeafId,
    other: LeafId,
) -> Result<(Handle<'t>, Handle<'t>), HandleError>
    requires ready { IsReady w.old 2 }
    ensures goes_on { GoesOn 2 w.old w.new }
    ensures one { IfOk result (λ both. StandsForSome (leaves_of w.old) both.0) }
    ensures other { IfOk result (λ both. StandsForSome (leaves_of w.old) both.1) }
    ensures types { TradesAnyBoth w.old w.new result }
{
    let one = leaf_at(w, rt, one)?;
    match leaf_at(w, rt, other) {
        Ok(other) => Ok((one, other)),
        Err(error) => {
            one.give_back(w);
            Err(error)
        }
    }
}

/// The handles of leaves, in their order.
pub(crate) fn leaves_at<'t, R: Wait>(
    w: &mut Work<'_, 't>,
    rt: &R,
    ids: &[LeafId],
) -> Result<Handles<'t>, HandleError>
    requires ready { IsReady w.old (length ids.now) }
    ensures goes_on { GoesOn (length ids.now) w.old w.new }
    ensures types { TradesAnyAll w.old w.new result }
    ensures stands { IfOk result (StandForSome (leaves_of w.old)) }
{
    let Some((first, others)) = ids.split_first() else {
        return Ok(Seq::new(w.alloc));
    };
    let first = leaf_at(w, rt, *first)?;
    match leaves_at(w, rt, others) {
        Ok(others) => Ok(with_first(w, first, others)?),
        Err(error) => {
            first.give_back(w);
            Err(error)
        }
    }
}

/// The handle of a constant. Its type is the return type of a descriptor.
pub(crate) fn constant_of<'t, R: Wait>(
    w: &mut Work<'_, 't>,
    rt: &R,
    text: &str,
    value: &str,
) -> Result<Handle<'t>, HandleError>
    requires ready { IsReady w.old 1 }
    ensures goes_on { GoesOn 1 w.old w.new }
    ensures types { TradesAny [] w.old w.new result }
    ensures stands { IfOk result (StandsForSome (leaves_of w.old)) }
{
    let classes = w.leaves.classes();
    let ret = checked_type(w.alloc, text, classes)?.ret;
    let value = checked_value(w.alloc, value, classes)?;
    constant(w, rt, ret, value)
}

/// The handles of two constants of one type.
pub(crate) fn two_constants<'t, R: Wait>(
    w: &mut Work<'_, 't>,
    rt: &R,
    text: &str,
    one: &str,
    other: &str,
) -> Result<(Handle<'t>, Handle<'t>), HandleError>
    requires ready { IsReady w.old 2 }
    ensures goes_on { GoesOn 2 w.old w.new }
    ensures one { IfOk result (λ both. StandsForSome (leaves_of w.old) both.0) }
    ensures other { IfOk result (λ both. StandsForSome (leaves_of w.old) both.1) }
    ensures types { TradesAnyBoth w.old w.new result }
{
    let one = constant_of(w, rt, text, one)?;
    match constant_of(w, rt, text, other) {
        Ok(other) => Ok((one, other)),
        Err(error) => {
            one.give_back(w);
            Err(error)
        }
    }
}
