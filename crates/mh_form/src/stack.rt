ghost use Rattle.std.specs.Prelude.{◌≡◌, ◌≢◌, ◌++◌, ◌∷◌, ◌≤◌, ◌<◌, ◌^◌, List, [], pos, IfOk, OnOk};
ghost use Rattle.std.specs.Prelude.{None, Some, length, option_to_list, slice_get, take, map};
ghost use Rattle.std.specs.Option.{option_map};
ghost use Rattle.std.specs.declared.alloc.Global.{Global};
ghost use Rattle.mh_values.specs.declared.value.Value.{Value};
ghost use Rattle.mh_values.specs.declared.value.Value.TheVariants.{Thrown};
ghost use Rattle.mh_leaf.specs.Outcome.{ran_of};
ghost use Rattle.mh_form.specs.declared.slot.Slot.TheVariants as slot;
ghost use Rattle.mh_form.specs.Erasure.{erased, erased_ran, typed_at};
ghost use Rattle.mh_form.specs.Run.{picked, result_at};
ghost use Rattle.mh_form.specs.Slots.{filled, none_as_zero};
ghost use Rattle.mh_form.specs.Stack.{begun, done, left, on_stack, slot_or_exc, with_slot, with_slots};

use crate::erasure::number_slot;
use crate::going::Going;
use crate::leaf::typed_at;
use crate::slots::slot_at;
use crate::{Calls, Operands, Slot, Slots, erase};
use mh_base::{Copied, NoMemory, clear_within};
use mh_values::{ClassId, Classes, Exc, Items, LeafId, Outcome, Tys, Value};
use std::alloc::Global;
use std::marker::Model;
use std::mem;

/// A bound on the slots that most runs put after their arguments.
const ROOM_FOR_NAMES: usize = 8;

/// The most slots for which a stack on which nothing runs keeps room.
const MOST_SLOTS_KEPT: usize = 4_096;

/// The slots of the run under way above those of the runs that wait for it. Also the arguments of
/// the leaf that is called, the leaf calls so far, and the exception that was thrown last.
#[derive(Drop)]
pub(crate) struct Stack {
    slots: Vec<Slot>,
    base: usize,
    args: Vec<Value>,
    calls: Calls,
    thrown: Exc,
}

impl Model for Stack {
    ghost use Rattle.std.specs.Prelude.{◌≤◌, length, take, drop};
    ghost use Rattle.mh_form.specs.Stack.{StackView};

    ghost Value = { StackView };

    ghost view = { λ m. record {
      below = take m.base m.slots.items;
      frame = drop m.base m.slots.items;
      args = m.args.items;
      calls = m.calls;
      thrown = m.thrown;
    } };

    ghost invariant = { λ m. m.base ≤ length m.slots.items };
}

impl Stack {
    /// A stack for a run on these slots, which are not copied.
    pub(crate) fn on(alloc: Global, slots: Slots) -> Stack
        ensures below { result.below ≡ [] }
        ensures frame { result.frame ≡ slots }
        ensures calls { result.calls ≡ [] }
    {
        Stack {
            slots: slots.into_vec(),
            base: 0,
            args: Vec::new(alloc),
            calls: Calls::new(alloc),
            thrown: Exc::bare(ClassId::NULL_POINTER),
        }
    }

    /// Drops all that was left of the last run, however that ended: slots and leaf calls.
    pub(crate) fn clear(&mut self)
        ensures below { self.new.below ≡ [] }
        ensures frame { self.new.frame ≡ [] }
        ensures calls { self.new.calls ≡ [] }
    {
        self.rest();
        self.calls.clear();
    }

    /// Drops all slots, after a run, and keeps memory for 4,096 of them at most. The leaf calls
    /// stay.
    pub(crate) fn rest(&mut self)
        ensures below { self.new.below ≡ [] }
        ensures frame { self.new.frame ≡ [] }
        ensures calls { self.new.calls ≡ self.old.calls }
    {
        self.base = 0;
        clear_within(&mut self.slots, MOST_SLOTS_KEPT);
    }

    /// Begins a run on copies of these values as slots, whatever was left.
    #[inline(always)]
    pub(crate) fn begin_on(&mut self, values: &Items) -> Result<(), NoMemory>
        ensures frame { OnOk result (self.new.frame ≡ map erased values.now) }
        ensures calls { OnOk result (self.new.calls ≡ []) }
    {
        self.clear();
        self.slots
            .reserve(values.len().saturating_add(ROOM_FOR_NAMES))?;
        for value in values.as_slice() {
            self.push_erased(value)?;
        }
        Ok(())
    }

    // Puts a copy of a value, as a slot, after those of the run under way. A value of each kind is
    // written where it is copied, which takes half as many instructions.
    #[inline(always)]
    fn push_erased(&mut self, value: &Value) -> Result<(), NoMemory>
        ensures { OnOk result (self.new ≡ with_slot self.old (erased value.now)) }
    {
        match value {
            Value::Prim(number) => self.push(number_slot(*number)),
            Value::Text(text) => {
                let text = text.copy()?;
                self.push(Slot::L(Value::Text(text)))
            }
            _ => {
                let copy = value.copy(self.alloc())?;
                self.push(Slot::L(copy))
            }
        }
    }

    /// Puts other leaf calls in place of those so far, and answers these.
    pub(crate) fn exchange_calls(&mut self, calls: Calls) -> Calls
        ensures given { result ≡ self.old.calls }
        ensures held { self.new ≡ record self.old { calls = calls } }
    {
        mem::replace(&mut self.calls, calls)
    }

    /// The allocator of the stack; there is one.
    #[inline(always)]
    pub(crate) fn alloc(&self) -> Global
        ensures { (other : Global) → result ≡ other }
    {
        *self.slots.allocator()
    }

    /// The slots of the run under way.
    #[inline(always)]
    pub(crate) fn frame(&self) -> &[Slot]
        ensures { result.now ≡ self.now.frame }
    {
        &self.slots[self.base..]
    }

    /// The slot at a place of the run under way.
    #[inline(always)]
    pub(crate) fn at(&self, place: u32) -> &Slot
        requires { slice_get self.now.frame place ≢ None }
        ensures { slice_get self.now.frame place ≡ Some result.now }
    {
        slot_at(self.frame(), place)
    }

    /// The arguments of the leaf that is called.
    #[inline(always)]
    pub(crate) fn args(&self) -> &[Value]
        ensures { result.now ≡ self.now.args }
    {
        &self.args
    }

    /// The leaf calls so far.
    #[inline(always)]
    pub(crate) fn calls(&self) -> &Calls
        ensures { result.now ≡ self.now.calls }
    {
        &self.calls
    }

    /// The leaf calls.
    pub(crate) fn into_calls(self) -> Calls
        ensures { result ≡ self.calls }
    {
        self.calls
    }

    /// The exception that was thrown last.
    pub(crate) fn thrown(&self) -> &Exc
        ensures { result.now ≡ self.now.thrown }
    {
        &self.thrown
    }

    /// Puts a slot after those of the run under way.
    #[inline(always)]
    pub(crate) fn push(&mut self, slot: Slot) -> Result<(), NoMemory>
        ensures { OnOk result (self.new ≡ with_slot self.old slot) }
    {
        if self.slots.len() >= self.slots.capacity() {
            self.slots.reserve(1)?;
        }
        self.slots.push_reserved(slot);
        Ok(())
    }

    /// Holds an exception, which ends the run under way.
    #[inline(always)]
    pub(crate) fn throw(&mut self, exc: Exc) -> Going
        ensures going { result ≡ Going.Threw }
        ensures held { self.new ≡ record self.old { thrown = exc } }
    {
        self.thrown = exc;
        Going::Threw
    }

    /// What a name gave that calls no leaf.
    #[inline(always)]
    pub(crate) fn give(&mut self, given: Result<Slot, Exc>) -> Result<Going, NoMemory>
        ensures done { IfOk result (λ g. done g self.new ≡ on_stack self.old (slot_or_exc given)) }
        ensures below { IfOk result (λ g. self.new.below ≡ self.old.below) }
    {
        match given {
            Ok(slot) => {
                self.push(slot)?;
                Ok(Going::On)
            }
            Err(exc) => Ok(self.throw(exc)),
        }
    }

    /// Takes the slots at these places as the arguments of a leaf, as values of its types.
    #[inline(always)]
    pub(crate) fn load(
        &mut self,
        types: &Tys,
        places: &Operands,
        classes: &Classes,
    ) -> Result<(), NoMemory>
        requires { typed_at classes.now self.old.frame types.now places.now ≢ None }
        ensures args { OnOk result
            (typed_at classes.now self.old.frame types.now places.now ≡ Some self.new.args) }
        ensures same { OnOk result (self.new ≡ record self.old { args = self.new.args }) }
    {
        self.args.clear();
        let slots = &self.slots[self.base..];
        typed_at(&mut self.args, types, slots, places, classes)
    }

    /// Notes a call of a leaf on the slots at these places, as values of its types. No value is
    /// made.
    #[inline(always)]
    pub(crate) fn note(
        &mut self,
        leaf: LeafId,
        types: &Tys,
        places: &Operands,
        classes: &Classes,
    ) -> Result<(), NoMemory>
        ensures calls { (args : List Value) → typed_at classes.now self.old.frame types.now
            places.now ≡ Some args → OnOk result
            (self.new.calls ≡ self.old.calls ++ record { leaf = leaf; args = args } ∷ []) }
        ensures same { OnOk result (self.new ≡ record self.old { calls = self.new.calls }) }
    {
        self.calls
            .push(leaf, &self.slots, &self.base, types, places, classes)
    }

    /// What a leaf gave, after its call was noted.
    #[inline(always)]
    pub(crate) fn finish(&mut self, outcome: Outcome) -> Result<Going, NoMemory>
        ensures done { IfOk result (λ g. done g self.new
            ≡ on_stack self.old (filled (erased_ran (ran_of outcome [])))) }
        ensures below { IfOk result (λ g. self.new.below ≡ self.old.below) }
    {
        match outcome {
            Outcome::Return(None) => self.give(Ok(Slot::I(0))),
            Outcome::Return(Some(value)) => self.give(Ok(erase(value))),
            Outcome::Throw(exc) => self.give(Err(exc)),
        }
    }

    // Puts copies of the slots at these places after all slots.
    #[inline(always)]
    fn push_copies(&mut self, places: &Operands) -> Result<(), NoMemory>
        requires { picked self.old.frame places.now ≢ None }
        ensures { OnOk result (option_map (with_slots self.old) (picked self.old.frame places.now)
            ≡ Some self.new) }
    {
        for place in places.as_slice() {
            self.push_copy_at(*place)?;
        }
        Ok(())
    }

    /// Puts a copy of a slot after all slots. A slot of each kind is written where it is copied.
    #[inline(always)]
    pub(crate) fn push_copy(&mut self, slot: &Slot) -> Result<(), NoMemory>
        ensures { OnOk result (self.new ≡ with_slot self.old slot.now) }
    {
        match slot {
            Slot::I(number) => self.push(Slot::I(*number)),
            Slot::J(number) => self.push(Slot::J(*number)),
            Slot::L(Value::Text(text)) => {
                let text = text.copy()?;
                self.push(Slot::L(Value::Text(text)))
            }
            Slot::L(value) => {
                let copy = value.copy(self.alloc())?;
                self.push(Slot::L(copy))
            }
        }
    }

    // Puts a copy of the slot at a place after all slots. A slot of each kind is written where it
    // is copied.
    #[inline(always)]
    fn push_copy_at(&mut self, place: u32) -> Result<(), NoMemory>
        requires { slice_get self.old.frame place ≢ None }
        ensures { OnOk result (option_map (with_slot self.old) (slice_get self.old.frame place)
            ≡ Some self.new) }
    {
        let alloc = self.alloc();
        match self.at(place) {
            Slot::I(number) => {
                let number = *number;
                self.push(Slot::I(number))
            }
            Slot::J(number) => {
                let number = *number;
                self.push(Slot::J(number))
            }
            Slot::L(Value::Text(text)) => {
                let text = text.copy()?;
                self.push(Slot::L(Value::Text(text)))
            }
            Slot::L(value) => {
                let copy = value.copy(alloc)?;
                self.push(Slot::L(copy))
            }
        }
    }

    // How many slots the run under way has.
    #[inline(always)]
    fn count(&self) -> usize
        ensures { result ≡ length self.now.frame }
    {
        self.slots.len() - self.base
    }

    // The first slots of the run under way wait, and the others begin a run.
    #[inline(always)]
    fn begin(&mut self, count: usize)
        requires { count ≤ length self.old.frame }
        ensures { self.new ≡ begun count self.old }
    {
        self.base += count;
    }

    /// Begins a run on copies of the slots at these places, while the run under way waits. Answers
    /// how many slots that has.
    #[inline(always)]
    pub(crate) fn enter(&mut self, places: &Operands) -> Result<usize, NoMemory>
        requires { picked self.old.frame places.now ≢ None }
        ensures frame { OnOk result (picked self.old.frame places.now ≡ Some self.new.frame) }
        ensures below { OnOk result (self.new.below ≡ self.old.below ++ self.old.frame) }
        ensures calls { OnOk result (self.new.calls ≡ self.old.calls) }
        ensures count { IfOk result (λ count. count ≡ length self.old.frame) }
    {
        let count = self.count();
        self.push_copies(places)?;
        self.begin(count);
        Ok(count)
    }

    // Puts copies of the first slots of the run under way after all slots.
    fn push_first(&mut self, count: usize) -> Result<(), NoMemory>
        requires { count ≤ length self.old.frame }
        ensures { OnOk result (self.new ≡ with_slots self.old (take count self.old.frame)) }
    {
        let alloc = self.alloc();
        for place in 0..count {
            let copy = self.frame()[place].copy(alloc)?;
            self.push(copy)?;
        }
        Ok(())
    }

    // Puts copies of the first `kept` slots of the run under way after all slots. It had `own`
    // slots before others were put there.
    fn push_kept(&mut self, own: usize, kept: usize) -> Result<(), NoMemory>
        requires { own ≤ length self.old.frame }
        ensures { OnOk result (self.new
            ≡ with_slots self.old (take kept (take own self.old.frame))) }
    {
        if kept < own {
            self.push_first(kept)
        } else {
            self.push_first(own)
        }
    }

    /// Begins a run on copies of the slots of the run under way, which waits. Answers how many
    /// slots that has.
    pub(crate) fn enter_again(&mut self) -> Result<usize, NoMemory>
        ensures frame { OnOk result (self.new.frame ≡ self.old.frame) }
        ensures below { OnOk result (self.new.below ≡ self.old.below ++ self.old.frame) }
        ensures calls { OnOk result (self.new.calls ≡ self.old.calls) }
        ensures count { IfOk result (λ count. count ≡ length self.old.frame) }
    {
        let count = self.count();
        self.push_first(count)?;
        self.begin(count);
        Ok(count)
    }

    /// Begins a run on copies of the first `kept` slots of the run under way, which waits. Answers
    /// how many slots that has.
    pub(crate) fn enter_first(&mut self, kept: u32) -> Result<usize, NoMemory>
        ensures frame { OnOk result (self.new.frame ≡ take kept self.old.frame) }
        ensures below { OnOk result (self.new.below ≡ self.old.below ++ self.old.frame) }
        ensures calls { OnOk result (self.new.calls ≡ self.old.calls) }
        ensures count { IfOk result (λ count. count ≡ length self.old.frame) }
    {
        let count = self.count();
        self.push_kept(count, kept as usize)?;
        self.begin(count);
        Ok(count)
    }

    // Puts a slot after those of the run under way, if there is one.
    fn push_if_any(&mut self, slot: Option<Slot>) -> Result<(), NoMemory>
        ensures { OnOk result (self.new ≡ with_slots self.old (option_to_list slot)) }
    {
        match slot {
            Some(slot) => self.push(slot),
            None => Ok(()),
        }
    }

    // Puts the slot of a number after those of the run under way.
    fn push_number(&mut self, number: u32) -> Result<(), NoMemory>
        requires { number < 2 ^ 31 }
        ensures { OnOk result (self.new ≡ with_slot self.old (slot.I (pos number))) }
    {
        self.push(Slot::I(number as i32))
    }

    /// Begins a run on a slot, if there is one, an int, and copies of the first `kept` slots of the
    /// run under way, which waits. Answers how many slots that has.
    pub(crate) fn enter_turn(
        &mut self,
        given: Option<Slot>,
        number: u32,
        kept: u32,
    ) -> Result<usize, NoMemory>
        requires { number < 2 ^ 31 }
        ensures frame { OnOk result (self.new.frame
            ≡ option_to_list given ++ slot.I (pos number) ∷ take kept self.old.frame) }
        ensures below { OnOk result (self.new.below ≡ self.old.below ++ self.old.frame) }
        ensures calls { OnOk result (self.new.calls ≡ self.old.calls) }
        ensures count { IfOk result (λ count. count ≡ length self.old.frame) }
    {
        let count = self.count();
        self.push_if_any(given)?;
        self.push_number(number)?;
        self.push_kept(count, kept as usize)?;
        self.begin(count);
        Ok(count)
    }

    /// Takes the last slot of the run under way out of it.
    pub(crate) fn take_last(&mut self) -> Slot
        requires { self.old.frame ≢ [] }
        ensures given { self.old.frame ≡ self.new.frame ++ result ∷ [] }
        ensures below { self.new.below ≡ self.old.below }
        ensures calls { self.new.calls ≡ self.old.calls }
    {
        match self.slots.pop() {
            Some(slot) => slot,
            None => unreachable!(),
        }
    }

    // Drops all slots of the run under way except the first `kept`.
    fn keep_first(&mut self, kept: u32)
        ensures frame { self.new.frame ≡ take kept self.old.frame }
        ensures below { self.new.below ≡ self.old.below }
        ensures calls { self.new.calls ≡ self.old.calls }
        ensures thrown { self.new.thrown ≡ self.old.thrown }
    {
        let end = self.base + kept as usize;
        self.slots.truncate(end);
    }

    // Puts a slot before those of the run under way.
    fn put_first(&mut self, slot: Slot) -> Result<(), NoMemory>
        ensures frame { OnOk result (self.new.frame ≡ slot ∷ self.old.frame) }
        ensures below { OnOk result (self.new.below ≡ self.old.below) }
        ensures calls { OnOk result (self.new.calls ≡ self.old.calls) }
    {
        self.slots.insert(self.base, slot)?;
        Ok(())
    }

    // Puts a slot before those of the run under way, if there is one.
    fn put_if_any(&mut self, slot: Option<Slot>) -> Result<(), NoMemory>
        ensures frame { OnOk result (self.new.frame ≡ option_to_list slot ++ self.old.frame) }
        ensures below { OnOk result (self.new.below ≡ self.old.below) }
        ensures calls { OnOk result (self.new.calls ≡ self.old.calls) }
    {
        match slot {
            Some(slot) => self.put_first(slot),
            None => Ok(()),
        }
    }

    /// The run under way gives way to one on a slot, on another if there is one, and on the first
    /// `kept` of its own slots.
    pub(crate) fn end_with(
        &mut self,
        first: Slot,
        second: Option<Slot>,
        kept: u32,
    ) -> Result<(), NoMemory>
        ensures frame { OnOk result (self.new.frame
            ≡ first ∷ (option_to_list second ++ take kept self.old.frame)) }
        ensures below { OnOk result (self.new.below ≡ self.old.below) }
        ensures calls { OnOk result (self.new.calls ≡ self.old.calls) }
    {
        self.keep_first(kept);
        self.put_if_any(second)?;
        self.put_first(first)
    }

    // Takes the slot at a place out of the run under way, and leaves int 0 there.
    #[inline(always)]
    fn take_at(&mut self, place: usize) -> Slot
        requires { slice_get self.old.frame place ≢ None }
        ensures given { slice_get self.old.frame place ≡ Some result }
        ensures below { self.new.below ≡ self.old.below }
        ensures calls { self.new.calls ≡ self.old.calls }
    {
        let at = self.base + place;
        mem::replace(&mut self.slots[at], Slot::I(0))
    }

    /// Takes the result out of the run under way, if there is a place for it.
    #[inline(always)]
    pub(crate) fn take_result(&mut self, out: Option<u32>) -> Option<Slot>
        requires { result_at out self.old.frame ≢ None }
        ensures given { result_at out self.old.frame ≡ Some result }
        ensures calls { self.new.calls ≡ self.old.calls }
    {
        match out {
            Some(place) => Some(self.take_at(place as usize)),
            None => None,
        }
    }

    // Takes the slot that the run under way gives: int 0 if it gives none.
    #[inline(always)]
    fn take_slot(&mut self, out: Option<u32>) -> Slot
        requires { result_at out self.old.frame ≢ None }
        ensures given { option_map none_as_zero (result_at out self.old.frame) ≡ Some result }
        ensures below { self.new.below ≡ self.old.below }
        ensures calls { self.new.calls ≡ self.old.calls }
    {
        match out {
            Some(place) => self.take_at(place as usize),
            None => Slot::I(0),
        }
    }

    /// Takes the exception that was thrown last.
    pub(crate) fn take_thrown(&mut self) -> Exc
        ensures given { result ≡ self.old.thrown }
        ensures frame { self.new.frame ≡ self.old.frame }
        ensures below { self.new.below ≡ self.old.below }
        ensures calls { self.new.calls ≡ self.old.calls }
    {
        mem::replace(&mut self.thrown, Exc::bare(ClassId::NULL_POINTER))
    }

    /// Drops the slots of the run under way, and goes on with the run that waits, which has `count`
    /// slots.
    #[inline(always)]
    pub(crate) fn leave(&mut self, count: usize)
        requires { count ≤ length self.old.below }
        ensures { self.new ≡ left count self.old }
    {
        self.slots.truncate(self.base);
        self.base -= count;
    }

    /// Goes on with the run that waits, which has `count` slots, and gives it the result of the run
    /// under way.
    #[inline(always)]
    pub(crate) fn leave_with(&mut self, out: Option<u32>, count: usize) -> Result<(), NoMemory>
        requires out { result_at out self.old.frame ≢ None }
        requires waits { count ≤ length self.old.below }
        ensures frame { OnOk result (option_map
            (λ r. (left count self.old).frame ++ none_as_zero r ∷ []) (result_at out self.old.frame)
            ≡ Some self.new.frame) }
        ensures below { OnOk result (self.new.below ≡ (left count self.old).below) }
        ensures calls { OnOk result (self.new.calls ≡ self.old.calls) }
    {
        let given = self.take_slot(out);
        self.leave(count);
        self.push(given)
    }

    /// Goes on with the run that waits, which has `count` slots, and gives it the last slot of the
    /// run under way, which comes after `others` others.
    pub(crate) fn leave_with_last(&mut self, others: usize, count: usize) -> Result<(), NoMemory>
        requires last { slice_get self.old.frame others ≢ None }
        requires waits { count ≤ length self.old.below }
        ensures frame { OnOk result (option_map (λ s. (left count self.old).frame ++ s ∷ [])
            (slice_get self.old.frame others) ≡ Some self.new.frame) }
        ensures below { OnOk result (self.new.below ≡ (left count self.old).below) }
        ensures calls { OnOk result (self.new.calls ≡ self.old.calls) }
    {
        let given = self.take_at(others);
        self.leave(count);
        self.push(given)
    }

    /// The run under way gives way to that of a handler, on the exception and on the first `kept`
    /// of its own slots.
    pub(crate) fn hand_over(&mut self, kept: u32) -> Result<(), NoMemory>
        ensures frame { OnOk result
            (self.new.frame ≡ slot.L (Thrown self.old.thrown) ∷ take kept self.old.frame) }
        ensures below { OnOk result (self.new.below ≡ self.old.below) }
        ensures calls { OnOk result (self.new.calls ≡ self.old.calls) }
    {
        let exc = self.take_thrown();
        self.keep_first(kept);
        self.put_first(Slot::L(Value::Thrown(exc)))
    }
}
