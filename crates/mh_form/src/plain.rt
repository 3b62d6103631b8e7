//! The names that run no part.

ghost use Rattle.std.specs.Prelude.{◌≡◌, ◌≢◌, IfOk, []};
ghost use Rattle.mh_values.specs.Computation.{Stuck};
ghost use Rattle.mh_form.specs.declared.name.Name.TheVariants.{Get, Call, Conv, Ret, MakeArray, CheckArray, Elem, Join, Raise};
ghost use Rattle.mh_form.specs.Run.{step};
ghost use Rattle.mh_form.specs.Stack.{done, on_stack, step_on};

use crate::array::{check_array, item_in, make_array};
use crate::convert::{convert_result, convert_slot};
use crate::going::Going;
use crate::invocation::Invocation;
use crate::join::join_at;
use crate::leaf::call_at;
use crate::lookup::{comp_in, conv_in, leaf_in, pieces_in, ret_in, slot_in};
use crate::slots::{pick, raise, result_in};
use crate::stack::Stack;
use crate::{Bound, Operands};
use mh_base::{Copied, NoMemory};

/// A copy of the slot in a field.
#[inline(always)]
pub(crate) fn get(
    stack: &mut Stack,
    call: &Invocation<'_>,
    bound: &Bound<'_>,
    field: u32,
) -> Result<Going, NoMemory>
    requires { step_on call.now.leaves.now call.now.n bound.now (Get field) stack.old ≢ Stuck }
    ensures done { IfOk result (λ g. done g stack.new ≡ on_stack stack.old
        (step_on call.now.leaves.now call.now.n bound.now (Get field) stack.old)) }
    ensures below { IfOk result (λ g. stack.new.below ≡ stack.old.below) }
{
    let Some(slot) = slot_in(bound, call.leaves, field) else {
        unreachable!()
    };
    stack.push_copy(slot)?;
    Ok(Going::On)
}

/// Calls the leaf in a field.
#[inline(always)]
pub(crate) fn call_leaf(
    stack: &mut Stack,
    call: &Invocation<'_>,
    bound: &Bound<'_>,
    field: u32,
    args: &Operands,
) -> Result<Going, NoMemory>
    requires { step_on call.now.leaves.now call.now.n bound.now (Call field args.now) stack.old
        ≢ Stuck }
    ensures done { IfOk result (λ g. done g stack.new ≡ on_stack stack.old
        (step_on call.now.leaves.now call.now.n bound.now (Call field args.now) stack.old)) }
    ensures below { IfOk result (λ g. stack.new.below ≡ stack.old.below) }
{
    let Some(leaf) = leaf_in(bound, call.leaves, field) else {
        unreachable!()
    };
    call_at(stack, call, leaf, args)
}

/// Converts the slot at a place by the conversion in a field.
#[inline(always)]
pub(crate) fn convert(
    stack: &mut Stack,
    call: &Invocation<'_>,
    bound: &Bound<'_>,
    field: u32,
    slot: u32,
) -> Result<Going, NoMemory>
    requires { step_on call.now.leaves.now call.now.n bound.now (Conv field slot) stack.old
        ≢ Stuck }
    ensures done { IfOk result (λ g. done g stack.new ≡ on_stack stack.old
        (step_on call.now.leaves.now call.now.n bound.now (Conv field slot) stack.old)) }
    ensures below { IfOk result (λ g. stack.new.below ≡ stack.old.below) }
{
    let Some(conv) = conv_in(bound, call.leaves, field) else {
        unreachable!()
    };
    let slot = stack.at(slot).copy(stack.alloc())?;
    stack.give(convert_slot(conv, slot, call.leaves.classes()))
}

/// Converts a result by the return conversion in a field.
#[inline(always)]
pub(crate) fn convert_returned(
    stack: &mut Stack,
    call: &Invocation<'_>,
    bound: &Bound<'_>,
    field: u32,
    slot: Option<u32>,
) -> Result<Going, NoMemory>
    requires { step_on call.now.leaves.now call.now.n bound.now (Ret field slot) stack.old ≢ Stuck }
    ensures done { IfOk result (λ g. done g stack.new ≡ on_stack stack.old
        (step_on call.now.leaves.now call.now.n bound.now (Ret field slot) stack.old)) }
    ensures below { IfOk result (λ g. stack.new.below ≡ stack.old.below) }
{
    let Some(conv) = ret_in(bound, call.leaves, field) else {
        unreachable!()
    };
    let given = result_in(stack.alloc(), slot, stack.frame())?;
    stack.give(convert_result(conv, given, call.leaves.classes()))
}

/// Makes an array of the slots at these places, of the component type in a field.
#[inline(never)]
pub(crate) fn array(
    stack: &mut Stack,
    call: &Invocation<'_>,
    bound: &Bound<'_>,
    field: u32,
    items: &Operands,
) -> Result<Going, NoMemory>
    requires { step_on call.now.leaves.now call.now.n bound.now
        (MakeArray field items.now) stack.old
        ≢ Stuck }
    ensures done { IfOk result (λ g. done g stack.new ≡ on_stack stack.old
        (step_on call.now.leaves.now call.now.n bound.now (MakeArray field items.now) stack.old)) }
    ensures below { IfOk result (λ g. stack.new.below ≡ stack.old.below) }
{
    let items = pick(stack.alloc(), stack.frame(), items)?;
    let Some(comp) = comp_in(bound, call.leaves, field) else {
        unreachable!()
    };
    let array = make_array(stack.alloc(), comp, items, call.leaves.classes())?;
    stack.give(array)
}

/// Checks that the slot at a place holds an array of this many items.
#[inline(never)]
pub(crate) fn check(stack: &mut Stack, slot: u32, count: u32) -> Result<Going, NoMemory>
    requires { step (CheckArray slot count) [] stack.old.frame 0 ≢ Stuck }
    ensures done { IfOk result (λ g. done g stack.new ≡ on_stack stack.old
        (step (CheckArray slot count) [] stack.old.frame 0)) }
    ensures below { IfOk result (λ g. stack.new.below ≡ stack.old.below) }
{
    let checked = check_array(stack.alloc(), stack.at(slot), count)?;
    stack.give(checked)
}

/// An item of the array in the slot at a place.
#[inline(never)]
pub(crate) fn item(stack: &mut Stack, slot: u32, item: u32) -> Result<Going, NoMemory>
    requires { step (Elem slot item) [] stack.old.frame 0 ≢ Stuck }
    ensures done { IfOk result (λ g. done g stack.new ≡ on_stack stack.old
        (step (Elem slot item) [] stack.old.frame 0)) }
    ensures below { IfOk result (λ g. stack.new.below ≡ stack.old.below) }
{
    let item = item_in(stack.alloc(), stack.at(slot), item)?;
    stack.give(Ok(item))
}

/// Joins the pieces in a field, with the slots at these places as their arguments.
#[inline(always)]
pub(crate) fn join(
    stack: &mut Stack,
    call: &Invocation<'_>,
    bound: &Bound<'_>,
    field: u32,
    args: &Operands,
) -> Result<Going, NoMemory>
    requires { step_on call.now.leaves.now call.now.n bound.now (Join field args.now) stack.old
        ≢ Stuck }
    ensures done { IfOk result (λ g. done g stack.new ≡ on_stack stack.old
        (step_on call.now.leaves.now call.now.n bound.now (Join field args.now) stack.old)) }
    ensures below { IfOk result (λ g. stack.new.below ≡ stack.old.below) }
{
    let Some(pieces) = pieces_in(bound, call.leaves, field) else {
        unreachable!()
    };
    let joined = join_at(
        stack.alloc(),
        pieces,
        stack.frame(),
        args,
        call.leaves.classes(),
    )?;
    stack.give(joined)
}

/// Throws the exception in the slot at a place.
#[inline(never)]
pub(crate) fn throw(stack: &mut Stack, slot: u32) -> Result<Going, NoMemory>
    requires { step (Raise slot) [] stack.old.frame 0 ≢ Stuck }
    ensures done { IfOk result (λ g. done g stack.new ≡ on_stack stack.old
        (step (Raise slot) [] stack.old.frame 0)) }
    ensures below { IfOk result (λ g. stack.new.below ≡ stack.old.below) }
{
    let slot = stack.at(slot).copy(stack.alloc())?;
    Ok(stack.throw(raise(slot)))
}
