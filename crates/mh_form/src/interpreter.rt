ghost use Rattle.std.specs.Prelude.{◌≡◌, ◌≢◌, ◌≤◌, ◌+◌, [], if◌then◌else◌, IfOk, None, length, map};
ghost use Rattle.mh_values.specs.Computation.{Stuck, after, found, raised, is_caught};
ghost use Rattle.mh_form.specs.declared.name.Name.TheVariants.{Link};
ghost use Rattle.mh_form.specs.Run.{finally_field, guarded_field, loop_field, picked, ran_of_outcome, ran_of_run, run_bound, run_field, senses_in};
ghost use Rattle.mh_form.specs.Slots.{filled, holds_one};
ghost use Rattle.mh_form.specs.Erasure.{erased};
ghost use Rattle.mh_leaf.specs.Ending.{most_turns};
ghost use Rattle.mh_form.specs.Endings.{bounded_on, cleaned_up, field_on, finally_on, loop_on};
ghost use Rattle.mh_form.specs.Endings.{rethrown_on, started_on, taken, turns_on};
ghost use Rattle.mh_form.specs.Guards.{caught_on, guarded_on};
ghost use Rattle.mh_form.specs.Stack.{done, left, on_stack, slots_on, step_on};

use crate::ending::{
    Ending, Looping, Turning, case_field, default_slot, given, loop_from, turns_before,
};
use crate::going::Going;
use crate::invocation::Invocation;
use crate::lookup::class_in;
use crate::machine::Machine;
use crate::plain::{array, call_leaf, check, convert, convert_returned, get, item, join, throw};
use crate::slots::holds_one;
use crate::stack::Stack;
use crate::{Bound, Field, Name, Operands, Ran, Slot, SlotOutcome, Slots};
use mh_base::{Copied, NoMemory};
use mh_leaves::Leaves;
use mh_values::{ClassId, Exc, Items, Value};
use std::alloc::Global;

/// A part that is guarded: its field, the class of exceptions that are handled, the field of the
/// handler, and how many arguments the handler takes after the exception.
#[derive(Clone, Copy)]
struct Guard {
    part: u32,
    class: ClassId,
    handler: u32,
    kept: u32,
}

/// Runs a part on the slots of the run under way, and goes on with the run that waits for it, which
/// has `count` slots. That run gets what the part gave, or stays as it is if the part threw.
#[cycle(run)]
#[inline(always)]
fn run_part(
    stack: &mut Stack,
    call: &Invocation<'_>,
    part: &Bound<'_>,
    count: usize,
) -> Result<Going, NoMemory>
    requires waits { count ≤ length stack.old.below }
    requires well_formed { run_bound call.now.leaves.now part.now stack.old.frame
        (raised call.now.n stack.old.calls) ≢ Stuck }
    ensures done { IfOk result (λ g. done g stack.new ≡ on_stack (left count stack.old) (filled
        (run_bound call.now.leaves.now part.now stack.old.frame
        (raised call.now.n stack.old.calls)))) }
    ensures below { IfOk result (λ g. stack.new.below ≡ (left count stack.old).below) }
    ensures threw { IfOk result (λ g. g ≡ Going.Threw → stack.new.frame
        ≡ (left count stack.old).frame) }
{
    match run_in(stack, call, part)? {
        Going::On => {
            stack.leave_with(part.body.out, count)?;
            Ok(Going::On)
        }
        Going::Threw => {
            stack.leave(count);
            Ok(Going::Threw)
        }
    }
}

/// Runs the part in a field on the slots of the run under way, in the same way.
#[cycle(run)]
#[inline(always)]
fn run_entered(
    stack: &mut Stack,
    call: &Invocation<'_>,
    bound: &Bound<'_>,
    field: u32,
    count: usize,
) -> Result<Going, NoMemory>
    requires waits { count ≤ length stack.old.below }
    requires well_formed { run_field (senses_in call.now.leaves.now bound.now) field stack.old.frame
        (raised call.now.n stack.old.calls) ≢ Stuck }
    ensures done { IfOk result (λ g. done g stack.new ≡ on_stack (left count stack.old) (filled
        (run_field (senses_in call.now.leaves.now bound.now) field stack.old.frame
        (raised call.now.n stack.old.calls)))) }
    ensures below { IfOk result (λ g. stack.new.below ≡ (left count stack.old).below) }
    ensures threw { IfOk result (λ g. g ≡ Going.Threw → stack.new.frame
        ≡ (left count stack.old).frame) }
{
    let at = field as usize;
    if at >= bound.fields.len() {
        unreachable!()
    }
    match &bound.fields[at] {
        Field::Part(part) => run_part(stack, call, part, count),
        _ => unreachable!(),
    }
}

/// Runs the part in a field on the slots at these places.
#[cycle(run)]
#[inline(always)]
fn step_link(
    stack: &mut Stack,
    call: &Invocation<'_>,
    bound: &Bound<'_>,
    field: u32,
    args: &Operands,
) -> Result<Going, NoMemory>
    requires well_formed { step_on call.now.leaves.now call.now.n bound.now (Link field args.now)
        stack.old ≢ Stuck }
    ensures done { IfOk result (λ g. done g stack.new ≡ on_stack stack.old
        (step_on call.now.leaves.now call.now.n bound.now (Link field args.now) stack.old)) }
    ensures below { IfOk result (λ g. stack.new.below ≡ stack.old.below) }
{
    let count = stack.enter(args)?;
    run_entered(stack, call, bound, field, count)
}

/// What a handler gives on the exception of a guarded part and the arguments of that part, which
/// are the slots of the run under way. An exception of another class goes on.
#[cycle(run)]
fn handle(
    stack: &mut Stack,
    call: &Invocation<'_>,
    bound: &Bound<'_>,
    guard: Guard,
    count: usize,
) -> Result<Going, NoMemory>
    requires waits { count ≤ length stack.old.below }
    requires well_formed { caught_on call.now.leaves.now call.now.n bound.now guard stack.old
        ≢ Stuck }
    ensures done { IfOk result (λ g. done g stack.new ≡ on_stack (left count stack.old) (filled
        (caught_on call.now.leaves.now call.now.n bound.now guard stack.old))) }
    ensures below { IfOk result (λ g. stack.new.below ≡ (left count stack.old).below) }
{
    let classes = call.leaves.classes();
    if !classes.subclass(stack.thrown().class(), guard.class) {
        stack.leave(count);
        return Ok(Going::Threw);
    }
    stack.hand_over(guard.kept)?;
    run_entered(stack, call, bound, guard.handler, count)
}

/// Runs a guarded part on copies of the slots of the run under way, and its handler on those
/// themselves.
#[cycle(run)]
fn run_guarded(
    stack: &mut Stack,
    call: &Invocation<'_>,
    bound: &Bound<'_>,
    guard: Guard,
    count: usize,
) -> Result<Going, NoMemory>
    requires waits { count ≤ length stack.old.below }
    requires well_formed { guarded_on call.now.leaves.now call.now.n bound.now guard stack.old
        ≢ Stuck }
    ensures done { IfOk result (λ g. done g stack.new ≡ on_stack (left count stack.old) (filled
        (guarded_on call.now.leaves.now call.now.n bound.now guard stack.old))) }
    ensures below { IfOk result (λ g. stack.new.below ≡ (left count stack.old).below) }
{
    let kept = stack.enter_again()?;
    match run_entered(stack, call, bound, guard.part, kept)? {
        Going::On => {
            stack.leave_with_last(kept, count)?;
            Ok(Going::On)
        }
        Going::Threw => handle(stack, call, bound, guard, count),
    }
}

/// Runs a guarded part on the slots at these places.
#[cycle(run)]
#[inline(never)]
fn step_guarded(
    stack: &mut Stack,
    call: &Invocation<'_>,
    bound: &Bound<'_>,
    guard: Guard,
    args: &Operands,
) -> Result<Going, NoMemory>
    requires well_formed { found (picked stack.old.frame args.now) (λ xs. filled
        (guarded_field (senses_in call.now.leaves.now bound.now) guard.part
        (is_caught call.now.leaves.now.classes guard.class) guard.handler guard.kept xs
        (raised call.now.n stack.old.calls))) ≢ Stuck }
    ensures done { IfOk result (λ g. done g stack.new ≡ on_stack stack.old
        (found (picked stack.old.frame args.now) (λ xs. filled
        (guarded_field (senses_in call.now.leaves.now bound.now) guard.part
        (is_caught call.now.leaves.now.classes guard.class) guard.handler guard.kept xs
        (raised call.now.n stack.old.calls))))) }
    ensures below { IfOk result (λ g. stack.new.below ≡ stack.old.below) }
{
    let count = stack.enter(args)?;
    run_guarded(stack, call, bound, guard, count)
}

/// The field of one of two parts: the first if the slot of the test is int 1.
#[inline(always)]
fn chosen(test: &Slot, field: u32, other: u32) -> u32
    ensures { result ≡ (if holds_one test.now then field else other) }
{
    if holds_one(test) { field } else { other }
}

/// Runs the part in a field on the slots of the run under way, and goes on with the run that waits
/// for it, which has this many slots. Answers the slot that the part gave, or none if it threw.
#[cycle(run)]
fn run_taking(
    stack: &mut Stack,
    call: &Invocation<'_>,
    bound: &Bound<'_>,
    field: u32,
    count: usize,
) -> Result<Option<Slot>, NoMemory>
    requires waits { count ≤ length stack.old.below }
    requires well_formed { run_field (senses_in call.now.leaves.now bound.now) field stack.old.frame
        (raised call.now.n stack.old.calls) ≢ Stuck }
    ensures taken { IfOk result (λ o. taken o stack.new ≡ after stack.old.calls
        (field_on call.now.leaves.now call.now.n bound.now field stack.old)) }
    ensures frame { IfOk result (λ o. stack.new.frame ≡ (left count stack.old).frame) }
    ensures below { IfOk result (λ o. stack.new.below ≡ (left count stack.old).below) }
{
    match run_entered(stack, call, bound, field, count)? {
        Going::On => Ok(Some(stack.take_last())),
        Going::Threw => Ok(None),
    }
}

/// Runs the cleanup of a part that gave a slot.
#[cycle(run)]
fn clean_up(
    stack: &mut Stack,
    call: &Invocation<'_>,
    bound: &Bound<'_>,
    ending: Ending,
    slot: Slot,
    count: usize,
) -> Result<Going, NoMemory>
    requires waits { count ≤ length stack.old.below }
    requires well_formed { cleaned_up call.now.leaves.now call.now.n bound.now ending slot stack.old
        ≢ Stuck }
    ensures done { IfOk result (λ g. done g stack.new ≡ on_stack (left count stack.old)
        (cleaned_up call.now.leaves.now call.now.n bound.now ending slot stack.old)) }
    ensures below { IfOk result (λ g. stack.new.below ≡ (left count stack.old).below) }
{
    stack.end_with(Slot::L(Value::Null), given(ending.ret, slot), ending.kept)?;
    run_entered(stack, call, bound, ending.cleanup, count)
}

/// Runs the cleanup of a part that threw, and throws the exception again.
#[cycle(run)]
fn clean_up_thrown(
    stack: &mut Stack,
    call: &Invocation<'_>,
    bound: &Bound<'_>,
    ending: Ending,
    count: usize,
) -> Result<Going, NoMemory>
    requires waits { count ≤ length stack.old.below }
    requires well_formed { rethrown_on call.now.leaves.now call.now.n bound.now ending stack.old
        ≢ Stuck }
    ensures done { IfOk result (λ g. done g stack.new ≡ on_stack (left count stack.old)
        (rethrown_on call.now.leaves.now call.now.n bound.now ending stack.old)) }
    ensures below { IfOk result (λ g. stack.new.below ≡ (left count stack.old).below) }
{
    let alloc = stack.alloc();
    let exc = stack.thrown().copy(alloc)?;
    let again = exc.copy(alloc)?;
    stack.end_with(
        Slot::L(Value::Thrown(exc)),
        default_slot(ending.ret),
        ending.kept,
    )?;
    match run_entered(stack, call, bound, ending.cleanup, count)? {
        Going::On => Ok(stack.throw(again)),
        Going::Threw => Ok(Going::Threw),
    }
}

/// Runs a part on copies of the slots of the run under way, and its cleanup on those themselves.
#[cycle(run)]
fn run_finally(
    stack: &mut Stack,
    call: &Invocation<'_>,
    bound: &Bound<'_>,
    ending: Ending,
    count: usize,
) -> Result<Going, NoMemory>
    requires waits { count ≤ length stack.old.below }
    requires well_formed { finally_on call.now.leaves.now call.now.n bound.now ending stack.old
        ≢ Stuck }
    ensures done { IfOk result (λ g. done g stack.new ≡ on_stack (left count stack.old)
        (finally_on call.now.leaves.now call.now.n bound.now ending stack.old)) }
    ensures below { IfOk result (λ g. stack.new.below ≡ (left count stack.old).below) }
{
    let own = stack.enter_again()?;
    match run_taking(stack, call, bound, ending.part, own)? {
        Some(slot) => clean_up(stack, call, bound, ending, slot, count),
        None => clean_up_thrown(stack, call, bound, ending, count),
    }
}

/// Runs the turns of a loop on the slots of the run under way, and goes on with the run that waits
/// for it. That run gets what the last turn gave.
#[cycle(run)]
fn run_turns(
    stack: &mut Stack,
    call: &Invocation<'_>,
    bound: &Bound<'_>,
    turning: Turning,
    count: usize,
) -> Result<Going, NoMemory>
    requires waits { count ≤ length stack.old.below }
    requires few { turning.turns ≤ most_turns }
    requires well_formed { turns_on call.now.leaves.now call.now.n bound.now turning.looping 0
        turning.turns turning.first stack.old ≢ Stuck }
    ensures done { IfOk result (λ g. done g stack.new ≡ on_stack (left count stack.old)
        (turns_on call.now.leaves.now call.now.n bound.now turning.looping 0
        turning.turns turning.first stack.old)) }
    ensures below { IfOk result (λ g. stack.new.below ≡ (left count stack.old).below) }
{
    let Turning {
        looping,
        turns,
        first,
    } = turning;
    let mut last = first;
    for number in 0..turns {
        let own = stack.enter_turn(given(looping.ret, last), number, looping.counts.body)?;
        match run_taking(stack, call, bound, looping.body, own)? {
            Some(slot) => last = slot,
            None => {
                stack.leave(count);
                return Ok(Going::Threw);
            }
        }
    }
    stack.leave(count);
    stack.push(last)?;
    Ok(Going::On)
}

/// Runs the start of a loop of this many turns on the first slots of the run under way, and then
/// its turns.
#[cycle(run)]
fn run_started(
    stack: &mut Stack,
    call: &Invocation<'_>,
    bound: &Bound<'_>,
    looping: Looping,
    turns: u32,
    count: usize,
) -> Result<Going, NoMemory>
    requires waits { count ≤ length stack.old.below }
    requires few { turns ≤ most_turns }
    requires well_formed { started_on call.now.leaves.now call.now.n bound.now looping turns
        stack.old ≢ Stuck }
    ensures done { IfOk result (λ g. done g stack.new ≡ on_stack (left count stack.old)
        (started_on call.now.leaves.now call.now.n bound.now looping turns stack.old)) }
    ensures below { IfOk result (λ g. stack.new.below ≡ (left count stack.old).below) }
{
    let own = stack.enter_first(looping.counts.init)?;
    match run_taking(stack, call, bound, looping.init, own)? {
        Some(first) => {
            let turning = Turning {
                looping,
                turns,
                first,
            };
            run_turns(stack, call, bound, turning, count)
        }
        None => {
            stack.leave(count);
            Ok(Going::Threw)
        }
    }
}

/// Runs a loop whose iterations gave a slot: `InternalError` if its int is above the most turns.
#[cycle(run)]
fn run_bounded(
    stack: &mut Stack,
    call: &Invocation<'_>,
    bound: &Bound<'_>,
    looping: Looping,
    end: &Slot,
    count: usize,
) -> Result<Going, NoMemory>
    requires waits { count ≤ length stack.old.below }
    requires well_formed { bounded_on call.now.leaves.now call.now.n bound.now looping end.now
        stack.old ≢ Stuck }
    ensures done { IfOk result (λ g. done g stack.new ≡ on_stack (left count stack.old)
        (bounded_on call.now.leaves.now call.now.n bound.now looping end.now stack.old)) }
    ensures below { IfOk result (λ g. stack.new.below ≡ (left count stack.old).below) }
{
    match turns_before(end) {
        Some(turns) => run_started(stack, call, bound, looping, turns, count),
        None => {
            let exc = Exc::saying(stack.alloc(), ClassId::INTERNAL_ERROR, b"loop")?;
            stack.leave(count);
            Ok(stack.throw(exc))
        }
    }
}

/// Runs a loop on the slots of the run under way.
#[cycle(run)]
fn run_loop(
    stack: &mut Stack,
    call: &Invocation<'_>,
    bound: &Bound<'_>,
    looping: Looping,
    count: usize,
) -> Result<Going, NoMemory>
    requires waits { count ≤ length stack.old.below }
    requires well_formed { loop_on call.now.leaves.now call.now.n bound.now looping stack.old
        ≢ Stuck }
    ensures done { IfOk result (λ g. done g stack.new ≡ on_stack (left count stack.old)
        (loop_on call.now.leaves.now call.now.n bound.now looping stack.old)) }
    ensures below { IfOk result (λ g. stack.new.below ≡ (left count stack.old).below) }
{
    let own = stack.enter_first(looping.counts.iterations)?;
    match run_taking(stack, call, bound, looping.iterations, own)? {
        Some(end) => run_bounded(stack, call, bound, looping, &end, count),
        None => {
            stack.leave(count);
            Ok(Going::Threw)
        }
    }
}

/// Runs a part with its cleanup on the slots at these places.
#[cycle(run)]
#[inline(never)]
fn step_finally(
    stack: &mut Stack,
    call: &Invocation<'_>,
    bound: &Bound<'_>,
    ending: Ending,
    args: &Operands,
) -> Result<Going, NoMemory>
    requires well_formed { found (picked stack.old.frame args.now) (λ xs. finally_field
        (senses_in call.now.leaves.now bound.now) ending.part ending.cleanup ending.kept ending.ret
        xs (raised call.now.n stack.old.calls)) ≢ Stuck }
    ensures done { IfOk result (λ g. done g stack.new ≡ on_stack stack.old
        (found (picked stack.old.frame args.now) (λ xs. finally_field
        (senses_in call.now.leaves.now bound.now) ending.part ending.cleanup ending.kept ending.ret
        xs (raised call.now.n stack.old.calls)))) }
    ensures below { IfOk result (λ g. stack.new.below ≡ stack.old.below) }
{
    let count = stack.enter(args)?;
    run_finally(stack, call, bound, ending, count)
}

/// Runs a loop on the slots at these places.
#[cycle(run)]
#[inline(never)]
fn step_loop(
    stack: &mut Stack,
    call: &Invocation<'_>,
    bound: &Bound<'_>,
    looping: Looping,
    args: &Operands,
) -> Result<Going, NoMemory>
    requires fields { looping.init ≡ looping.iterations + 1 }
    requires last { looping.body ≡ looping.iterations + 2 }
    requires well_formed { found (picked stack.old.frame args.now) (λ xs. loop_field
        (senses_in call.now.leaves.now bound.now) looping.iterations looping.counts looping.ret
        xs (raised call.now.n stack.old.calls)) ≢ Stuck }
    ensures done { IfOk result (λ g. done g stack.new ≡ on_stack stack.old
        (found (picked stack.old.frame args.now) (λ xs. loop_field
        (senses_in call.now.leaves.now bound.now) looping.iterations looping.counts looping.ret
        xs (raised call.now.n stack.old.calls)))) }
    ensures below { IfOk result (λ g. stack.new.below ≡ stack.old.below) }
{
    let count = stack.enter(args)?;
    run_loop(stack, call, bound, looping, count)
}

/// Runs a name on the slots of the run under way, which gets one slot more.
#[cycle(run)]
#[inline(always)]
fn step(
    stack: &mut Stack,
    call: &Invocation<'_>,
    bound: &Bound<'_>,
    name: &Name,
) -> Result<Going, NoMemory>
    requires well_formed { step_on call.now.leaves.now call.now.n bound.now name.now stack.old
        ≢ Stuck }
    ensures done { IfOk result (λ g. done g stack.new ≡ on_stack stack.old
        (step_on call.now.leaves.now call.now.n bound.now name.now stack.old)) }
    ensures below { IfOk result (λ g. stack.new.below ≡ stack.old.below) }
{
    match name {
        Name::Get(field) => get(stack, call, bound, *field),
        Name::Call(field, args) => call_leaf(stack, call, bound, *field, args),
        Name::Link(field, args) => step_link(stack, call, bound, *field, args),
        Name::Select(test, field, other, args) => {
            let part = chosen(stack.at(*test), *field, *other);
            step_link(stack, call, bound, part, args)
        }
        Name::Guarded(part, class, handler, args, kept) => {
            let Some(class) = class_in(bound, call.leaves, *class) else {
                unreachable!()
            };
            let guard = Guard {
                part: *part,
                class,
                handler: *handler,
                kept: *kept,
            };
            step_guarded(stack, call, bound, guard, args)
        }
        Name::Finally(part, cleanup, args, kept, ret) => {
            let ending = Ending {
                part: *part,
                cleanup: *cleanup,
                kept: *kept,
                ret: *ret,
            };
            step_finally(stack, call, bound, ending, args)
        }
        Name::Switch(slot, first, count, args) => {
            let part = case_field(stack.at(*slot), *first, *count)?;
            step_link(stack, call, bound, part, args)
        }
        Name::Loop(first, args, counts, ret) => {
            let looping = loop_from(*first, *counts, *ret)?;
            step_loop(stack, call, bound, looping, args)
        }
        Name::Conv(field, slot) | Name::Cast(field, slot) => {
            convert(stack, call, bound, *field, *slot)
        }
        Name::Ret(field, slot) => convert_returned(stack, call, bound, *field, *slot),
        Name::MakeArray(field, items) => array(stack, call, bound, *field, items),
        Name::CheckArray(slot, count) => check(stack, *slot, *count),
        Name::Elem(slot, at) => item(stack, *slot, *at),
        Name::Join(field, args) => join(stack, call, bound, *field, args),
        Name::Raise(slot) => throw(stack, *slot),
    }
}

/// Runs the names of a body in order on the slots of the run under way, until one throws.
#[cycle(run)]
fn run_in(stack: &mut Stack, call: &Invocation<'_>, bound: &Bound<'_>) -> Result<Going, NoMemory>
    requires well_formed { slots_on call.now.leaves.now call.now.n bound.now stack.old ≢ Stuck }
    ensures done { IfOk result (λ g. done g stack.new ≡ after stack.old.calls
        (slots_on call.now.leaves.now call.now.n bound.now stack.old)) }
    ensures below { IfOk result (λ g. stack.new.below ≡ stack.old.below) }
{
    for name in bound.body.names.as_slice() {
        match step(stack, call, bound, name)? {
            Going::On => {}
            Going::Threw => return Ok(Going::Threw),
        }
    }
    Ok(Going::On)
}

/// Runs a body on the slots of the run under way, and takes its result.
fn run_whole(
    stack: &mut Stack,
    call: &Invocation<'_>,
    bound: &Bound<'_>,
) -> Result<SlotOutcome, NoMemory>
    requires first { stack.old.calls ≡ [] }
    requires well_formed { run_bound call.now.leaves.now bound.now stack.old.frame call.now.n
        ≢ Stuck }
    ensures { IfOk result (λ outcome. ran_of_outcome outcome stack.new.calls
        ≡ run_bound call.now.leaves.now bound.now stack.old.frame call.now.n) }
{
    match run_in(stack, call, bound)? {
        Going::On => Ok(SlotOutcome::Return(stack.take_result(bound.body.out))),
        Going::Threw => Ok(SlotOutcome::Throw(stack.take_thrown())),
    }
}

/// Runs a body on its fields and on arguments, after `n` earlier leaf calls of the invocation. The
/// names run in order until one throws. Each puts one slot at the end of a list that begins with
/// the arguments. The body must be well formed for its fields, the arguments, `n` and the leaves:
/// each name that is reached finds what it takes.
pub fn run<'t>(
    alloc: Global,
    bound: &Bound<'t>,
    args: Slots,
    n: u32,
    leaves: &Leaves,
) -> Result<Ran, NoMemory>
    requires well_formed { run_bound leaves.now bound.now args n ≢ Stuck }
    ensures { IfOk result (λ r. ran_of_run r ≡ run_bound leaves.now bound.now args n) }
{
    let mut stack = Stack::on(alloc, args);
    let outcome = run_whole(&mut stack, &Invocation { leaves, n }, bound)?;
    Ok(Ran {
        outcome,
        calls: stack.into_calls(),
    })
}

/// Runs a body as `run` does, in a machine that is kept from call to call, on values, which are its
/// arguments when they are erased. Its leaf calls stay in the machine until the next run. Nothing
/// of the run before is seen, even if that run found no memory.
pub fn run_on(
    machine: &mut Machine,
    bound: &Bound<'_>,
    args: &Items,
    n: u32,
    leaves: &Leaves,
) -> Result<SlotOutcome, NoMemory>
    requires { run_bound leaves.now bound.now (map erased args.now) n ≢ Stuck }
    ensures { IfOk result (λ outcome. ran_of_outcome outcome machine.new
        ≡ run_bound leaves.now bound.now (map erased args.now) n) }
{
    machine.stack.begin_on(args)?;
    let ended = run_whole(&mut machine.stack, &Invocation { leaves, n }, bound);
    machine.stack.rest();
    ended
}
