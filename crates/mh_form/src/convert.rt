//! Conversions of slots and of results.

ghost use Rattle.std.specs.Prelude.{◌≡◌, ◌≢◌};
ghost use Rattle.mh_values.specs.Computation.{Stuck};
ghost use Rattle.mh_form.specs.Slots.{converted, filled, ret_converted, slot_or_throw};
ghost use Rattle.mh_form.specs.Stack.{slot_or_exc};

use crate::{Slot, erase, typed};
use mh_convert::{Conv, RetConv, Rules, default_value};
use mh_values::{Classes, Exc, Value};

/// A value that was given as a slot, or the exception.
#[inline(always)]
pub(crate) fn slot_or_throw(given: Result<Value, Exc>) -> Result<Slot, Exc>
    ensures { slot_or_exc result ≡ slot_or_throw given }
{
    match given {
        Ok(value) => Ok(erase(value)),
        Err(exc) => Err(exc),
    }
}

/// The conversion of an argument, and the rules by which it is done.
#[derive(Clone, Copy)]
pub(crate) struct Converting {
    pub(crate) rules: Rules,
    pub(crate) conv: Conv,
}

/// The conversion of a result, and the rules by which it is done.
#[derive(Clone, Copy)]
pub(crate) struct Returning {
    pub(crate) rules: Rules,
    pub(crate) conv: RetConv,
}

#[inline(always)]
pub(crate) fn convert_slot(by: Converting, slot: Slot, classes: &Classes) -> Result<Slot, Exc>
    requires { converted by.rules classes.now by.conv slot ≢ Stuck }
    ensures { slot_or_exc result ≡ converted by.rules classes.now by.conv slot }
{
    let value = typed(by.conv.from, slot, classes);
    slot_or_throw(by.rules.convert(by.conv, value, classes))
}

#[inline(always)]
pub(crate) fn convert_result(
    by: Returning,
    given: Option<Slot>,
    classes: &Classes,
) -> Result<Slot, Exc>
    requires { ret_converted by.rules classes.now by.conv given ≢ Stuck }
    ensures { slot_or_exc result ≡ filled (ret_converted by.rules classes.now by.conv given) }
{
    let rules = by.rules;
    match (by.conv, given) {
        (RetConv::Keep, Some(slot)) => Ok(slot),
        (RetConv::Keep, None) | (RetConv::Discard, _) => Ok(Slot::I(0)),
        (RetConv::Default(ty), _) => Ok(erase(default_value(ty))),
        (RetConv::Value(conv), Some(slot)) => {
            convert_slot(Converting { rules, conv }, slot, classes)
        }
        (RetConv::Value(_), None) => unreachable!(),
    }
}
