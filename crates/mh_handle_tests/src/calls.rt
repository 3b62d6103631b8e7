//! One call of a handle, in each way that the library has.

ghost use Rattle.std.specs.Prelude.{◌≡◌};
ghost use Rattle.mh_values.specs.HasType.{HaveTypes};
ghost use Rattle.mh_handle.specs.Stands.{StandsForSome};
ghost use Rattle.mh_handle.specs.Works.{GoesOn, IsReady, classes_of, leaves_of};

use mh_astype::{invoke_exact, invoke_generic};
use mh_base::NoMemory;
use mh_handle::{Answer, Handle, HandleError, Work};
use mh_leaves::Leaves;
use mh_steps::{Broken, call_typed};
use mh_values::{Items, MethodTy, are_typed};
use std::alloc::Global;
use std::sync::Wait;

/// A way to call a handle on arguments of its type.
#[derive(Clone, Copy, Debug)]
pub(crate) enum Way {
    /// Twice in one machine, as `call_typed` does; the second call answers.
    Twice,
    /// By the handle itself.
    Own,
    /// By its form, as one that was edited without more fields.
    Edited,
    /// As `MethodHandle.invokeExact` does.
    Exact,
    /// As `MethodHandle.invoke` does, by the handle's type without its result.
    Generic,
}

fn call_own<'t>(
    alloc: Global,
    handle: &Handle<'t>,
    leaves: &Leaves,
    args: &Items,
) -> Result<Answer, NoMemory>
    requires typed { HaveTypes leaves.now.classes args.now handle.now.ty.params }
    requires stands { StandsForSome leaves.now handle.now }
{
    handle.invoke(alloc, leaves, args, 0)
}

fn call_edited<'t>(
    alloc: Global,
    handle: &Handle<'t>,
    leaves: &Leaves,
    args: &Items,
) -> Result<Answer, NoMemory>
    requires typed { HaveTypes leaves.now.classes args.now handle.now.ty.params }
    requires stands { StandsForSome leaves.now handle.now }
{
    let more = Vec::new(alloc);
    let ret = handle.ty().ret;
    handle.invoke_edited(alloc, handle.form(), more, ret, leaves, args, 0)
}

fn call_exact<'t>(
    alloc: Global,
    handle: &Handle<'t>,
    leaves: &Leaves,
    args: &Items,
) -> Result<Answer, NoMemory>
    requires typed { HaveTypes leaves.now.classes args.now handle.now.ty.params }
    requires stands { StandsForSome leaves.now handle.now }
{
    invoke_exact(alloc, handle, leaves, handle.ty(), args, 0)
}

/// A call by the handle's type without its result, to which the handle is converted.
fn call_generic<'t, R: Wait>(
    w: &mut Work<'_, 't>,
    rt: &R,
    handle: &Handle<'t>,
    args: &Items,
) -> Result<Answer, HandleError>
    requires typed { HaveTypes (classes_of w.old) args.now handle.now.ty.params }
    requires stands { StandsForSome (leaves_of w.old) handle.now }
    requires ready { IsReady w.old 1 }
    ensures goes_on { GoesOn 1 w.old w.new }
    ensures seat { w.new.seat.now ≡ w.old.seat.now }
{
    let call = MethodTy {
        params: handle.ty().params.copy()?,
        ret: None,
    };
    Ok(invoke_generic(w, rt, handle, &call, args, 0)?)
}

/// What a call answers. The arguments have the types of the handle's parameters, or they are a
/// broken fixture.
pub(crate) fn call<'t, R: Wait>(
    w: &mut Work<'_, 't>,
    rt: &R,
    handle: &Handle<'t>,
    way: Way,
    args: &Items,
) -> Result<Answer, Broken>
    requires ready { IsReady w.old 1 }
    requires stands { StandsForSome (leaves_of w.old) handle.now }
    ensures goes_on { GoesOn 1 w.old w.new }
    ensures seat { w.new.seat.now ≡ w.old.seat.now }
{
    let (alloc, leaves) = (w.alloc, w.leaves);
    if !are_typed(
        args.as_slice(),
        handle.ty().params.as_slice(),
        leaves.classes(),
    ) {
        return Err(Broken::Fixture("arguments of other types than the parameters"));
    }
    match way {
        Way::Twice => Ok(call_typed(alloc, handle, leaves, args)?),
        Way::Own => Ok(call_own(alloc, handle, leaves, args)?),
        Way::Edited => Ok(call_edited(alloc, handle, leaves, args)?),
        Way::Exact => Ok(call_exact(alloc, handle, leaves, args)?),
        Way::Generic => Ok(call_generic(w, rt, handle, args)?),
    }
}
