//! Leaves that need no values of the slots on which they are called.

ghost use Rattle.std.specs.Prelude.{◌≡◌, ◌≢◌, IfOk, None, option_copied, option_map};
ghost use Rattle.std.specs.Int.{cast_signed, w32};
ghost use Rattle.mh_leaf.specs.Outcome.{is_same_int};
ghost use Rattle.mh_form.specs.OnSlots.{first_at, ints_at, longs_at, on_slots, only_at, picked_at};
ghost use Rattle.mh_form.specs.OnSlots.{reference, references_at, returned_slot, truth};
ghost use Rattle.mh_form.specs.Run.{picked};

use crate::slots::{holds_one, slot_at};
use crate::{Slot, erase};
use mh_base::{Copied, NoMemory};
use mh_leaf::{Kind, joined, measured};
use mh_values::{Outcome, Value};
use std::alloc::Global;

/// The ints in the slots at two places.
#[inline(always)]
fn ints_at(slots: &[Slot], places: &[u32]) -> Option<(i32, i32)>
    requires { picked slots.now places.now ≢ None }
    ensures { result ≡ ints_at slots.now places.now }
{
    let [first, second] = places else {
        return None;
    };
    match (slot_at(slots, *first), slot_at(slots, *second)) {
        (Slot::I(a), Slot::I(b)) => Some((*a, *b)),
        _ => None,
    }
}

/// The longs in the slots at two places.
#[inline(always)]
fn longs_at(slots: &[Slot], places: &[u32]) -> Option<(i64, i64)>
    requires { picked slots.now places.now ≢ None }
    ensures { result ≡ longs_at slots.now places.now }
{
    let [first, second] = places else {
        return None;
    };
    match (slot_at(slots, *first), slot_at(slots, *second)) {
        (Slot::J(a), Slot::J(b)) => Some((*a, *b)),
        _ => None,
    }
}

/// The references in the slots at two places.
#[inline(always)]
fn references_at<'a>(slots: &'a [Slot], places: &[u32]) -> Option<(&'a Value, &'a Value)>
    requires { picked slots.now places.now ≢ None }
    ensures { option_map (λ p. (p.0.now, p.1.now)) result ≡ references_at slots.now places.now }
{
    let [first, second] = places else {
        return None;
    };
    match (slot_at(slots, *first), slot_at(slots, *second)) {
        (Slot::L(a), Slot::L(b)) => Some((a, b)),
        _ => None,
    }
}

/// The reference in a slot.
#[inline(always)]
fn reference(slot: &Slot) -> Option<&Value>
    ensures { option_copied result ≡ reference slot.now }
{
    match slot {
        Slot::L(value) => Some(value),
        _ => None,
    }
}

/// The slot of the value that an outcome returns.
#[inline(always)]
fn returned_slot(outcome: Outcome) -> Option<Slot>
    ensures { result ≡ returned_slot outcome }
{
    match outcome {
        Outcome::Return(Some(value)) => Some(erase(value)),
        _ => None,
    }
}

/// A boolean as a slot.
#[inline(always)]
fn truth(holds: bool) -> Slot
    ensures { result ≡ truth holds }
{
    Slot::I(i32::from(holds))
}

/// The slot at the one place.
#[inline(always)]
fn only_at<'a>(slots: &'a [Slot], places: &[u32]) -> Option<&'a Slot>
    requires { picked slots.now places.now ≢ None }
    ensures { option_copied result ≡ only_at slots.now places.now }
{
    match places {
        [place] => Some(slot_at(slots, *place)),
        _ => None,
    }
}

/// The slot at the first of two or more places.
#[inline(always)]
fn first_at<'a>(slots: &'a [Slot], places: &[u32]) -> Option<&'a Slot>
    requires { picked slots.now places.now ≢ None }
    ensures { option_copied result ≡ first_at slots.now places.now }
{
    match places {
        [place, _, ..] => Some(slot_at(slots, *place)),
        _ => None,
    }
}

/// The slot at the second of three places if the one at the first holds int 1, otherwise that at
/// the third.
#[inline(always)]
fn picked_at<'a>(slots: &'a [Slot], places: &[u32]) -> Option<&'a Slot>
    requires { picked slots.now places.now ≢ None }
    ensures { option_copied result ≡ picked_at slots.now places.now }
{
    let [test, first, second] = places else {
        return None;
    };
    if holds_one(slot_at(slots, *test)) {
        Some(slot_at(slots, *first))
    } else {
        Some(slot_at(slots, *second))
    }
}

/// A copy of a slot, if there is one.
#[inline(always)]
fn copied(alloc: Global, slot: Option<&Slot>) -> Result<Option<Slot>, NoMemory>
    ensures { IfOk result (λ copy. copy ≡ option_copied slot.entry) }
{
    match slot {
        Some(slot) => Ok(Some(slot.copy(alloc)?)),
        None => Ok(None),
    }
}

/// Whether two ints are equal.
#[inline(always)]
fn is_same_int(a: i32, b: i32) -> bool
    ensures { result ≡ is_same_int a b }
{
    a == b
}

/// `iadd`.
#[inline(always)]
#[tactic(auto, using(std::proofs::lemmas::Int::wraps))]
fn sum(slots: &[Slot], places: &[u32]) -> Option<Slot>
    requires { picked slots.now places.now ≢ None }
    ensures { result ≡ on_slots Kind.Iadd slots.now places.now 0 }
{
    let (a, b) = ints_at(slots, places)?;
    Some(Slot::I(a.wrapping_add(b)))
}

/// `isub`.
#[inline(always)]
#[tactic(auto, using(std::proofs::lemmas::Int::wraps))]
fn difference(slots: &[Slot], places: &[u32]) -> Option<Slot>
    requires { picked slots.now places.now ≢ None }
    ensures { result ≡ on_slots Kind.Isub slots.now places.now 0 }
{
    let (a, b) = ints_at(slots, places)?;
    Some(Slot::I(a.wrapping_sub(b)))
}

/// `imul`.
#[inline(always)]
#[tactic(auto, using(std::proofs::lemmas::Int::wraps))]
fn product(slots: &[Slot], places: &[u32]) -> Option<Slot>
    requires { picked slots.now places.now ≢ None }
    ensures { result ≡ on_slots Kind.Imul slots.now places.now 0 }
{
    let (a, b) = ints_at(slots, places)?;
    Some(Slot::I(a.wrapping_mul(b)))
}

/// `ladd`.
#[inline(always)]
#[tactic(auto, using(std::proofs::lemmas::Int::wraps))]
fn long_sum(slots: &[Slot], places: &[u32]) -> Option<Slot>
    requires { picked slots.now places.now ≢ None }
    ensures { result ≡ on_slots Kind.Ladd slots.now places.now 0 }
{
    let (a, b) = longs_at(slots, places)?;
    Some(Slot::J(a.wrapping_add(b)))
}

/// `ieq`.
#[inline(always)]
fn equal(slots: &[Slot], places: &[u32]) -> Option<Slot>
    requires { picked slots.now places.now ≢ None }
    ensures { result ≡ on_slots Kind.Ieq slots.now places.now 0 }
{
    let (a, b) = ints_at(slots, places)?;
    Some(truth(is_same_int(a, b)))
}

/// `ilt`.
#[inline(always)]
fn less(slots: &[Slot], places: &[u32]) -> Option<Slot>
    requires { picked slots.now places.now ≢ None }
    ensures { result ≡ on_slots Kind.Ilt slots.now places.now 0 }
{
    let (a, b) = ints_at(slots, places)?;
    Some(truth(a < b))
}

/// `not`.
#[inline(always)]
fn negated(slots: &[Slot], places: &[u32]) -> Option<Slot>
    requires { picked slots.now places.now ≢ None }
    ensures { result ≡ on_slots Kind.Not slots.now places.now 0 }
{
    let slot = only_at(slots, places)?;
    Some(truth(!holds_one(slot)))
}

/// `concat`, if the whole is not too long for a text.
fn concatenated(alloc: Global, slots: &[Slot], places: &[u32]) -> Result<Option<Slot>, NoMemory>
    requires { picked slots.now places.now ≢ None }
    ensures { IfOk result (λ given. given ≡ on_slots Kind.Concat slots.now places.now 0) }
{
    let Some((first, second)) = references_at(slots, places) else {
        return Ok(None);
    };
    Ok(returned_slot(joined(alloc, first, second)?))
}

/// `length` of a text.
fn length(slots: &[Slot], places: &[u32]) -> Option<Slot>
    requires { picked slots.now places.now ≢ None }
    ensures { result ≡ on_slots Kind.Length slots.now places.now 0 }
{
    let value = reference(only_at(slots, places)?)?;
    returned_slot(measured(value)?)
}

/// The signed number with the bits of a count.
#[inline(always)]
fn signed(n: u32) -> i32
    ensures { result ≡ cast_signed w32 n }
{
    n.cast_signed()
}

/// What a leaf of a kind gives on the slots at these places, after `n` earlier leaf calls of the
/// invocation; `None` if that needs values of the slots.
#[inline(always)]
pub(crate) fn on_slots(
    alloc: Global,
    kind: Kind,
    slots: &[Slot],
    places: &[u32],
    n: u32,
) -> Result<Option<Slot>, NoMemory>
    requires { picked slots.now places.now ≢ None }
    ensures { IfOk result (λ given. given ≡ on_slots kind slots.now places.now n) }
{
    match kind {
        Kind::Iadd => Ok(sum(slots, places)),
        Kind::Isub => Ok(difference(slots, places)),
        Kind::Imul => Ok(product(slots, places)),
        Kind::Ladd => Ok(long_sum(slots, places)),
        Kind::Ieq => Ok(equal(slots, places)),
        Kind::Ilt => Ok(less(slots, places)),
        Kind::Not => Ok(negated(slots, places)),
        Kind::Same => copied(alloc, only_at(slots, places)),
        Kind::First => copied(alloc, first_at(slots, places)),
        Kind::Pick => copied(alloc, picked_at(slots, places)),
        Kind::Tick => Ok(Some(Slot::I(signed(n)))),
        Kind::Note => Ok(Some(Slot::I(0))),
        Kind::Concat => concatenated(alloc, slots, places),
        Kind::Length => Ok(length(slots, places)),
        Kind::Idiv | Kind::Throw(_) => Ok(None),
    }
}
