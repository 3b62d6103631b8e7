//! Slots by their place, and what a slot holds.

ghost use Rattle.std.specs.Prelude.{◌≡◌, ◌≢◌, ◌++◌, ◌∷◌, IfOk, OnOk, None, Some, [], slice_get};
ghost use Rattle.mh_values.specs.Computation.{Stuck, Threw, raised};
ghost use Rattle.mh_form.specs.declared.slot.Slot.{Slot};
ghost use Rattle.mh_form.specs.Run.{picked, result_at};
ghost use Rattle.mh_form.specs.Slots.{holds_one, raised_slot};

use crate::{Calls, Operands, Slot, Slots};
use mh_base::{Copied, NoMemory, Seq};
use mh_values::{ClassId, Exc, Value};
use std::alloc::Global;

/// The count of leaf calls after these, modulo 2^32.
#[inline(always)]
pub(crate) fn raised(n: u32, calls: &Calls) -> u32
    ensures { result ≡ raised n calls.now }
{
    ((n as u64 + calls.len() as u64 % 0x1_0000_0000) % 0x1_0000_0000) as u32
}

/// The slot at a place.
#[inline(always)]
pub(crate) fn slot_at(slots: &[Slot], place: u32) -> &Slot
    requires { slice_get slots.now place ≢ None }
    ensures { slice_get slots.now place ≡ Some result.now }
{
    &slots[place as usize]
}

/// Puts a copy of a slot at the end of slots.
fn push_copy(alloc: Global, slots: &mut Slots, slot: &Slot) -> Result<(), NoMemory>
    ensures { OnOk result (slots.new ≡ slots.old ++ slot.now ∷ []) }
{
    let copy = slot.copy(alloc)?;
    slots.push(copy)
}

/// Copies of the slots at these places.
pub(crate) fn pick(alloc: Global, slots: &[Slot], places: &Operands) -> Result<Slots, NoMemory>
    requires { picked slots.now places.now ≢ None }
    ensures { IfOk result (λ xs. picked slots.now places.now ≡ Some xs) }
{
    let mut xs = Seq::new(alloc);
    for place in places.as_slice() {
        push_copy(alloc, &mut xs, slot_at(slots, *place))?;
    }
    Ok(xs)
}

/// A copy of the slot at the place of a result, if it has one.
#[inline(always)]
pub(crate) fn result_in(
    alloc: Global,
    place: Option<u32>,
    slots: &[Slot],
) -> Result<Option<Slot>, NoMemory>
    requires { result_at place slots.now ≢ None }
    ensures { IfOk result (λ given. result_at place slots.now ≡ Some given) }
{
    let Some(place) = place else {
        return Ok(None);
    };
    Ok(Some(slot_at(slots, place).copy(alloc)?))
}

#[inline(always)]
pub(crate) fn holds_one(slot: &Slot) -> bool
    ensures { result ≡ holds_one slot.now }
{
    match slot {
        Slot::I(number) => *number == 1,
        _ => false,
    }
}

/// The exception that throwing a slot throws.
pub(crate) fn raise(slot: Slot) -> Exc
    requires { raised_slot {B = Slot} slot ≢ Stuck }
    ensures { raised_slot {B = Slot} slot ≡ Threw result [] }
{
    match slot {
        Slot::L(Value::Thrown(exc)) => exc,
        Slot::L(Value::Null) => Exc::bare(ClassId::NULL_POINTER),
        Slot::L(_) => Exc::bare(ClassId::CLASS_CAST),
        _ => unreachable!(),
    }
}
