ghost use Rattle.std.specs.Prelude.{◌≡◌, ◌&&◌, IfOk, Ok, false, length};
ghost use Rattle.mh_values.specs.HasType.{HaveTypes};
ghost use Rattle.mh_values.specs.Same.{is_same_method_type};
ghost use Rattle.mh_tree.specs.Meaning.{exact, generic, mean};
ghost use Rattle.mh_tree.specs.Rows.{astype_row};
ghost use Rattle.mh_tree.specs.Tree.{Tree, AsType};
ghost use Rattle.mh_handle.specs.Answers.{IsAnswer, answer_in};
ghost use Rattle.mh_convert.specs.Conversion.{is_trivial_ret};
ghost use Rattle.mh_handle.specs.Recipe.{are_trivial, convert_keys, recipe};
ghost use Rattle.mh_handle.specs.Stands.{Stands, StandsForSome};
ghost use Rattle.mh_handle.specs.Works.{IsReady, GoesOn, StandsIn, classes_of, leaves_of};
ghost use Rattle.mh_astype.specs.Calls.{AsksBy, IsRefusal, call_keys, exact_keys, generic_keys};

use crate::conversions::{convert_fields, convert_key, is_trivial};
use mh_base::NoMemory;
use mh_convert::Rules;
use mh_form::Machine;
use mh_handle::{Answer, EditError, Ended, Handle, Work};
use mh_leaves::Leaves;
use mh_tree::{CheckError, check_astype, mismatch};
use mh_values::{Classes, Exc, Items, MethodTy, Outcome, is_same_method_type};
use std::alloc::Global;
use std::sync::Wait;

/// A call by a type that must be equal to the handle's (`MethodHandle.invokeExact`, SE 17), after
/// `n` earlier leaf calls. If the types differ, it throws a `WrongMethodTypeException` and calls no
/// leaf.
pub fn invoke_exact<'t>(
    alloc: Global,
    handle: &Handle<'t>,
    leaves: &Leaves,
    call: &MethodTy,
    args: &Items,
    n: u32,
) -> Result<Answer, NoMemory>
    requires typed { HaveTypes leaves.now.classes args.now call.now.params }
    requires stands { StandsForSome leaves.now handle.now }
    ensures { (t : Tree) → Stands leaves.now handle.now t → IfOk result
        (IsAnswer (exact leaves.now t call.now args.now n) (exact_keys leaves.now t call.now)) }
{
    invoke_exact_with(&mut Machine::new(alloc), handle, leaves, call, args, n)
}

/// A call as by `invoke_exact`, in a machine that is kept from call to call. The answer takes the
/// leaf calls out of the machine.
pub fn invoke_exact_with<'t>(
    machine: &mut Machine,
    handle: &Handle<'t>,
    leaves: &Leaves,
    call: &MethodTy,
    args: &Items,
    n: u32,
) -> Result<Answer, NoMemory>
    requires typed { HaveTypes leaves.now.classes args.now call.now.params }
    requires stands { StandsForSome leaves.now handle.now }
    ensures { (t : Tree) → Stands leaves.now handle.now t → IfOk result
        (IsAnswer (exact leaves.now t call.now args.now n) (exact_keys leaves.now t call.now)) }
{
    if is_same_method_type(handle.ty(), call) {
        handle.invoke_with(machine, leaves, args, n)
    } else {
        let exc = mismatch(machine.alloc(), handle.ty(), call, leaves.classes())?;
        Ok(Answer::thrown(machine.alloc(), exc))
    }
}

/// A call as by `invoke_exact`, in a machine that is kept from call to call. The leaf calls stay in
/// the machine until its next call.
pub fn invoke_exact_on<'t>(
    machine: &mut Machine,
    handle: &Handle<'t>,
    leaves: &Leaves,
    call: &MethodTy,
    args: &Items,
    n: u32,
) -> Result<Ended, NoMemory>
    requires typed { HaveTypes leaves.now.classes args.now call.now.params }
    requires stands { StandsForSome leaves.now handle.now }
    ensures { (t : Tree) → Stands leaves.now handle.now t → IfOk result (λ ended. IsAnswer
        (exact leaves.now t call.now args.now n) (exact_keys leaves.now t call.now)
        (answer_in ended machine.new)) }
{
    if is_same_method_type(handle.ty(), call) {
        handle.invoke_on(machine, leaves, args, n)
    } else {
        machine.clear();
        let exc = mismatch(machine.alloc(), handle.ty(), call, leaves.classes())?;
        Ok(Ended {
            outcome: Outcome::Throw(exc),
            keys: 0,
        })
    }
}

/// A call through the conversions to the type, if at least one changes something.
fn invoke_converted<'t, R: Wait>(
    machine: &mut Machine,
    w: &mut Work<'_, 't>,
    rt: &R,
    handle: &Handle<'t>,
    call: &MethodTy,
    args: &Items,
    n: u32,
) -> Result<Answer, EditError>
    requires row { astype_row (classes_of w.old) handle.now.ty handle.now.weight call.now
        ≡ Ok call.now }
    requires changes { (are_trivial (classes_of w.old) call.now.params handle.now.ty.params &&
        is_trivial_ret (classes_of w.old) handle.now.ty.ret call.now.ret) ≡ false }
    requires typed { HaveTypes (classes_of w.old) args.now call.now.params }
    requires stands { StandsForSome (leaves_of w.old) handle.now }
    requires ready { IsReady w.old 1 }
    ensures goes_on { GoesOn 1 w.old w.new }
    ensures seat { w.new.seat.now ≡ w.old.seat.now }
    ensures asks { AsksBy handle.now.form.recipe
        (convert_keys (classes_of w.old) call.now handle.now.ty) w.old w.new result }
    ensures answer { (t : Tree) → StandsIn w.old handle.now t
        → IfOk result (IsAnswer (mean (leaves_of w.old) (AsType t call.now) args.now n)
        (length (recipe (leaves_of w.old) (AsType t call.now)))) }
{
    let classes = w.classes();
    let key = convert_key(w.alloc, call, handle.ty(), classes)?;
    let more = convert_fields(w.alloc, Rules::AsType, call, handle.ty(), classes)?;
    let leaves = w.leaves;
    let form = w.edit(rt, handle.form(), key)?;
    Ok(handle.invoke_edited_with(machine, form, more, call.ret, leaves, args, n)?)
}

/// A call through the conversions to the type, whether or not one changes anything.
fn invoke_used<'t, R: Wait>(
    machine: &mut Machine,
    w: &mut Work<'_, 't>,
    rt: &R,
    handle: &Handle<'t>,
    call: &MethodTy,
    args: &Items,
    n: u32,
) -> Result<Answer, EditError>
    requires row { astype_row (classes_of w.old) handle.now.ty handle.now.weight call.now
        ≡ Ok call.now }
    requires typed { HaveTypes (classes_of w.old) args.now call.now.params }
    requires stands { StandsForSome (leaves_of w.old) handle.now }
    requires ready { IsReady w.old 1 }
    ensures goes_on { GoesOn 1 w.old w.new }
    ensures seat { w.new.seat.now ≡ w.old.seat.now }
    ensures asks { AsksBy handle.now.form.recipe
        (convert_keys (classes_of w.old) call.now handle.now.ty) w.old w.new result }
    ensures answer { (t : Tree) → StandsIn w.old handle.now t
        → IfOk result (IsAnswer (mean (leaves_of w.old) (AsType t call.now) args.now n)
        (length (recipe (leaves_of w.old) (AsType t call.now)))) }
{
    if is_trivial(call, handle.ty(), w.classes()) {
        Ok(handle.invoke_with(machine, w.leaves, args, n)?)
    } else {
        invoke_converted(machine, w, rt, handle, call, args, n)
    }
}

/// Why the handle cannot be converted to the type, or `None` if it can.
fn refusal<'t>(
    alloc: Global,
    handle: &Handle<'t>,
    call: &MethodTy,
    classes: &Classes,
) -> Result<Option<Exc>, NoMemory>
    ensures { IfOk result (IsRefusal
        (astype_row classes.now handle.now.ty handle.now.weight call.now) call.now) }
{
    match check_astype(alloc, handle.ty(), handle.weight(), call, classes) {
        Ok(_) => Ok(None),
        Err(CheckError::Refused(exc)) => Ok(Some(exc)),
        Err(CheckError::NoMemory) => Err(NoMemory),
    }
}

/// A call by any type (`MethodHandle.invoke`, SE 17), after `n` earlier leaf calls. It does what
/// `as_type` and then a call would do, but makes no handle. If the type is refused, it throws that
/// exception, calls no leaf and makes no edit.
pub fn invoke_generic<'t, R: Wait>(
    w: &mut Work<'_, 't>,
    rt: &R,
    handle: &Handle<'t>,
    call: &MethodTy,
    args: &Items,
    n: u32,
) -> Result<Answer, EditError>
    requires typed { HaveTypes (classes_of w.old) args.now call.now.params }
    requires stands { StandsForSome (leaves_of w.old) handle.now }
    requires ready { IsReady w.old 1 }
    ensures goes_on { GoesOn 1 w.old w.new }
    ensures seat { w.new.seat.now ≡ w.old.seat.now }
    ensures asks { AsksBy handle.now.form.recipe
        (call_keys (classes_of w.old) handle.now.ty handle.now.weight call.now) w.old w.new result }
    ensures answer { (t : Tree) → StandsIn w.old handle.now t → IfOk result
        (IsAnswer (generic (leaves_of w.old) t call.now args.now n)
        (generic_keys (leaves_of w.old) t call.now)) }
{
    invoke_generic_with(&mut Machine::new(w.alloc), w, rt, handle, call, args, n)
}

/// A call as by `invoke_generic`, in a machine that is kept from call to call. The answer takes the
/// leaf calls out of the machine.
pub fn invoke_generic_with<'t, R: Wait>(
    machine: &mut Machine,
    w: &mut Work<'_, 't>,
    rt: &R,
    handle: &Handle<'t>,
    call: &MethodTy,
    args: &Items,
    n: u32,
) -> Result<Answer, EditError>
    requires typed { HaveTypes (classes_of w.old) args.now call.now.params }
    requires stands { StandsForSome (leaves_of w.old) handle.now }
    requires ready { IsReady w.old 1 }
    ensures goes_on { GoesOn 1 w.old w.new }
    ensures seat { w.new.seat.now ≡ w.old.seat.now }
    ensures asks { AsksBy handle.now.form.recipe
        (call_keys (classes_of w.old) handle.now.ty handle.now.weight call.now) w.old w.new result }
    ensures answer { (t : Tree) → StandsIn w.old handle.now t → IfOk result
        (IsAnswer (generic (leaves_of w.old) t call.now args.now n)
        (generic_keys (leaves_of w.old) t call.now)) }
{
    if is_same_method_type(handle.ty(), call) {
        return Ok(handle.invoke_with(machine, w.leaves, args, n)?);
    }
    if let Some(exc) = refusal(w.alloc, handle, call, w.leaves.classes())? {
        return Ok(Answer::thrown(w.alloc, exc));
    }
    invoke_used(machine, w, rt, handle, call, args, n)
}
