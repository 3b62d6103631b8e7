//! What runs a part and then others, whatever the part gave: cleanups and loops.

ghost use Rattle.std.specs.Prelude.{◌≡◌, ◌≢◌, ◌+◌, ◌≤◌, ℕ, [], IfOk, IfSome, None, Some, option_to_list};
ghost use Rattle.mh_values.specs.Computation.{Gave, Stuck};
ghost use Rattle.mh_leaf.specs.Ending.{most_turns};
ghost use Rattle.mh_form.specs.Slots.{bounded_slot, case_field, default_slots, given, told_turns};

use crate::{Basic, BasicRet, LoopCounts, Slot};
use mh_base::NoMemory;
use mh_values::Value;

/// A part and its cleanup: their fields, how many of the arguments the cleanup takes, and what the
/// part gives.
#[derive(Clone, Copy)]
pub(crate) struct Ending {
    pub(crate) part: u32,
    pub(crate) cleanup: u32,
    pub(crate) kept: u32,
    pub(crate) ret: BasicRet,
}

/// A loop: the fields of its parts, how many of the arguments each takes, and what it gives.
#[derive(Clone, Copy)]
pub(crate) struct Looping {
    pub(crate) iterations: u32,
    pub(crate) init: u32,
    pub(crate) body: u32,
    pub(crate) counts: LoopCounts,
    pub(crate) ret: BasicRet,
}

/// The turns of a loop, and the slot that the first takes.
pub(crate) struct Turning {
    pub(crate) looping: Looping,
    pub(crate) turns: u32,
    pub(crate) first: Slot,
}

/// The most turns of a loop.
const MOST_TURNS: u32 = 64;

/// The turns of a loop that ends before the int in a slot, or none if they are too many.
pub(crate) fn turns_before(end: &Slot) -> Option<u32>
    requires { bounded_slot {B = ℕ} end.now (λ turns. Gave turns []) ≢ Stuck }
    ensures told { told_turns result ≡ bounded_slot end.now (λ turns. Gave turns []) }
    ensures few { IfSome result (λ turns. turns ≤ most_turns) }
{
    let Slot::I(end) = end else { unreachable!() };
    match u32::try_from(*end) {
        Ok(turns) if turns > MOST_TURNS => None,
        Ok(turns) => Some(turns),
        Err(_) => Some(0),
    }
}

// The field after a number of others.
fn later(field: u32, more: u32) -> Result<u32, NoMemory>
    ensures { IfOk result (λ found. found ≡ field + more) }
{
    field.checked_add(more).ok_or(NoMemory)
}

/// The loop whose parts are in this field and the next two.
pub(crate) fn loop_from(first: u32, counts: LoopCounts, ret: BasicRet) -> Result<Looping, NoMemory>
    ensures iterations { IfOk result (λ l. l.iterations ≡ first) }
    ensures init { IfOk result (λ l. l.init ≡ first + 1) }
    ensures body { IfOk result (λ l. l.body ≡ first + 2) }
    ensures counts { IfOk result (λ l. l.counts ≡ counts) }
    ensures ret { IfOk result (λ l. l.ret ≡ ret) }
{
    Ok(Looping {
        iterations: first,
        init: later(first, 1)?,
        body: later(first, 2)?,
        counts,
        ret,
    })
}

/// The field of the case that an int picks: the fallback is in the first field, and this many cases
/// follow.
pub(crate) fn case_field(number: &Slot, first: u32, count: u32) -> Result<u32, NoMemory>
    requires { case_field first count number.now ≢ None }
    ensures { IfOk result (λ field. case_field first count number.now ≡ Some field) }
{
    let Slot::I(number) = number else {
        unreachable!()
    };
    match u32::try_from(*number) {
        Ok(case) if case < count => later(first, case + 1),
        _ => Ok(first),
    }
}

/// The slot that a part gave, if it is not void.
pub(crate) fn given(ret: BasicRet, slot: Slot) -> Option<Slot>
    ensures { option_to_list result ≡ given ret slot }
{
    match ret {
        BasicRet::V => None,
        BasicRet::Is(_) => Some(slot),
    }
}

/// The slot of the default of what a part gives, if it is not void.
pub(crate) fn default_slot(ret: BasicRet) -> Option<Slot>
    ensures { option_to_list result ≡ default_slots ret }
{
    match ret {
        BasicRet::V => None,
        BasicRet::Is(Basic::L) => Some(Slot::L(Value::Null)),
        BasicRet::Is(Basic::I) => Some(Slot::I(0)),
        BasicRet::Is(Basic::J) => Some(Slot::J(0)),
    }
}
