//! Leaves on slots.

ghost use Rattle.std.specs.Prelude.{◌≡◌, ◌≢◌, ◌<◌, ◌++◌, ◌∷◌, List, [], IfOk, OnOk, None, Some, length, slice_get};
ghost use Rattle.mh_values.specs.declared.value.Value.{Value};
ghost use Rattle.mh_values.specs.Computation.{Gave, Stuck, raised};
ghost use Rattle.mh_leaf.specs.declared.leaf.Leaf.{Leaf};
ghost use Rattle.mh_leaf.specs.Outcome.{calls_of, leaf_mean};
ghost use Rattle.mh_form.specs.Erasure.{erased_ran, typed_at, typed_slot};
ghost use Rattle.mh_form.specs.Slots.{called_at, filled};
ghost use Rattle.mh_form.specs.Stack.{done, on_stack};

use crate::going::Going;
use crate::invocation::Invocation;
use crate::on_slots::on_slots;
use crate::slots::{raised, slot_at};
use crate::stack::Stack;
use crate::{Operands, Slot, typed};
use mh_base::{Copied, NoMemory};
use mh_leaf::lacks_receiver;
use mh_values::{Classes, LeafId, Ty, Tys, Value};
use std::alloc::Global;

/// A copy of the slot at a place, as the value of a type that it stands for.
#[inline(always)]
fn typed_slot(
    alloc: Global,
    ty: Ty,
    slots: &[Slot],
    place: u32,
    classes: &Classes,
) -> Result<Value, NoMemory>
    requires { typed_slot classes.now ty (slice_get slots.now place) ≢ None }
    ensures { IfOk result
        (λ value. typed_slot classes.now ty (slice_get slots.now place) ≡ Some value) }
{
    let slot = slot_at(slots, place).copy(alloc)?;
    Ok(typed(ty, slot, classes))
}

/// Puts the slots at these places into a vector without items, as the values of types that they
/// stand for, one for each.
#[inline(always)]
pub(crate) fn typed_at(
    values: &mut Vec<Value>,
    types: &Tys,
    slots: &[Slot],
    places: &Operands,
    classes: &Classes,
) -> Result<(), NoMemory>
    requires typed { typed_at classes.now slots.now types.now places.now ≢ None }
    requires empty { values.old.items ≡ [] }
    ensures { OnOk result
        (typed_at classes.now slots.now types.now places.now ≡ Some values.new.items) }
{
    let alloc = *values.allocator();
    for i in 0..types.len() {
        if i >= places.len() {
            unreachable!()
        }
        let value = typed_slot(alloc, *types.get(i), slots, *places.get(i), classes)?;
        values.push(value)?;
    }
    Ok(())
}

/// Notes a call of a leaf on the slots at these places, if it runs on the arguments that are
/// loaded. These are the values of those slots.
#[inline(always)]
fn note(
    stack: &mut Stack,
    call: &Invocation<'_>,
    id: LeafId,
    types: &Tys,
    places: &Operands,
) -> Result<(), NoMemory>
    requires leaf { id.0 < length call.now.leaves.now.leaves }
    requires loaded { typed_at call.now.leaves.now.classes stack.old.frame types.now places.now
        ≡ Some stack.old.args }
    ensures calls { (leaf : Leaf) → slice_get call.now.leaves.now.leaves id.0 ≡ Some leaf →
        OnOk result (stack.new.calls ≡ stack.old.calls ++ calls_of id leaf stack.old.args) }
    ensures frame { OnOk result (stack.new.frame ≡ stack.old.frame) }
    ensures below { OnOk result (stack.new.below ≡ stack.old.below) }
{
    if lacks_receiver(call.leaves.is_virtual(id), stack.args()) {
        return Ok(());
    }
    stack.note(id, types, places, call.leaves.classes())
}

/// Calls a leaf on the arguments that are loaded, which are the slots at these places as values of
/// its types.
#[inline(always)]
fn call_loaded(
    stack: &mut Stack,
    call: &Invocation<'_>,
    id: LeafId,
    types: &Tys,
    places: &Operands,
) -> Result<Going, NoMemory>
    requires leaf { id.0 < length call.now.leaves.now.leaves }
    requires loaded { typed_at call.now.leaves.now.classes stack.old.frame types.now places.now
        ≡ Some stack.old.args }
    requires runs { leaf_mean call.now.leaves.now id stack.old.args
        (raised call.now.n stack.old.calls)
        ≢ Stuck }
    ensures done { IfOk result (λ g. done g stack.new ≡ on_stack stack.old (filled (erased_ran
        (leaf_mean call.now.leaves.now id stack.old.args (raised call.now.n stack.old.calls))))) }
    ensures below { IfOk result (λ g. stack.new.below ≡ stack.old.below) }
{
    let n = raised(call.n, stack.calls());
    let outcome = call.leaves.leaf_does(stack.alloc(), id, stack.args(), n)?;
    note(stack, call, id, types, places)?;
    stack.finish(outcome)
}

/// Calls a leaf on the slots at these places, which are the erasures of values of its types, by way
/// of these values.
#[inline(never)]
fn call_on_values(
    stack: &mut Stack,
    call: &Invocation<'_>,
    id: LeafId,
    places: &Operands,
) -> Result<Going, NoMemory>
    requires { called_at call.now.leaves.now id stack.old.frame places.now
        (raised call.now.n stack.old.calls) ≢ Stuck }
    ensures done { IfOk result (λ g. done g stack.new ≡ on_stack stack.old (filled
        (called_at call.now.leaves.now id stack.old.frame places.now
        (raised call.now.n stack.old.calls)))) }
    ensures below { IfOk result (λ g. stack.new.below ≡ stack.old.below) }
{
    let leaves = call.leaves;
    if id.0 >= leaves.count() {
        unreachable!()
    }
    let types = &leaves.ty(id).params;
    stack.load(types, places, leaves.classes())?;
    call_loaded(stack, call, id, types, places)
}

/// Gives what a leaf gave on the slots at these places, and notes its call.
#[inline(always)]
fn give_called(
    stack: &mut Stack,
    call: &Invocation<'_>,
    id: LeafId,
    places: &Operands,
    slot: Slot,
) -> Result<Going, NoMemory>
    requires leaf { id.0 < length call.now.leaves.now.leaves }
    ensures done { (leaf : Leaf) (args : List Value) →
        slice_get call.now.leaves.now.leaves id.0 ≡ Some leaf →
        typed_at call.now.leaves.now.classes stack.old.frame leaf.ty.params places.now
        ≡ Some args → IfOk result (λ g. done g stack.new
        ≡ on_stack stack.old (Gave slot (record { leaf = id; args = args } ∷ []))) }
    ensures below { IfOk result (λ g. stack.new.below ≡ stack.old.below) }
{
    let leaves = call.leaves;
    stack.note(id, &leaves.leaf(id).ty.params, places, leaves.classes())?;
    stack.give(Ok(slot))
}

/// Calls a leaf on the slots at these places, which are the erasures of values of its types.
#[inline(always)]
pub(crate) fn call_at(
    stack: &mut Stack,
    call: &Invocation<'_>,
    id: LeafId,
    places: &Operands,
) -> Result<Going, NoMemory>
    requires { called_at call.now.leaves.now id stack.old.frame places.now
        (raised call.now.n stack.old.calls) ≢ Stuck }
    ensures done { IfOk result (λ g. done g stack.new ≡ on_stack stack.old (filled
        (called_at call.now.leaves.now id stack.old.frame places.now
        (raised call.now.n stack.old.calls)))) }
    ensures below { IfOk result (λ g. stack.new.below ≡ stack.old.below) }
{
    if id.0 >= call.leaves.count() {
        unreachable!()
    }
    let leaf = call.leaves.leaf(id);
    if leaf.is_virtual {
        return call_on_values(stack, call, id, places);
    }
    let before = raised(call.n, stack.calls());
    match on_slots(
        stack.alloc(),
        leaf.kind,
        stack.frame(),
        places.as_slice(),
        before,
    )? {
        Some(slot) => give_called(stack, call, id, places, slot),
        None => call_on_values(stack, call, id, places),
    }
}
