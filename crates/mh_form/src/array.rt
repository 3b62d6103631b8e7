//! Arrays in slots.

ghost use Rattle.std.specs.Prelude.{◌≡◌, ◌≢◌, IfOk, None, Some, replicate, length, map};
ghost use Rattle.mh_values.specs.Array.{array_of, item_of_value, item_type, items_of_values, value_of_item};
ghost use Rattle.mh_values.specs.Computation.{Stuck};
ghost use Rattle.mh_form.specs.Slots.{checked_array, filled, item_in, made_array};
ghost use Rattle.mh_form.specs.Stack.{slot_or_exc};

use crate::convert::slot_or_throw;
use crate::{Slot, Slots, all_typed, erase};
use mh_base::{Copied, Frozen, NoMemory, Seq};
use mh_values::{Cell, Cells, ClassId, Classes, Comp, Exc, Items, Ty, Tys, Value};
use std::alloc::Global;
use std::mem;

fn item_type(comp: Comp) -> Ty
    ensures { result ≡ item_type comp }
{
    match comp {
        Comp::Prim(primitive) => Ty::Prim(primitive),
        Comp::Class(class) => Ty::Class(class),
    }
}

/// The type of the items of an array, for each of these slots.
fn item_types(alloc: Global, comp: Comp, slots: &Slots) -> Result<Tys, NoMemory>
    ensures { IfOk result (λ types. types ≡ map (λ s. item_type comp) slots.now) }
{
    let mut types = Seq::new(alloc);
    for _slot in slots.as_slice() {
        types.push(item_type(comp))?;
    }
    Ok(types)
}

/// A value as an item of an array, which an array is not.
fn item_of(value: Value) -> Option<Cell>
    ensures { result ≡ item_of_value value }
{
    match value {
        Value::Prim(number) => Some(Cell::Prim(number)),
        Value::Boxed(number) => Some(Cell::Boxed(number)),
        Value::Text(text) => Some(Cell::Text(text)),
        Value::Object(class, number) => Some(Cell::Object(class, number)),
        Value::Thrown(exc) => Some(Cell::Thrown(exc)),
        Value::Array(..) => None,
        Value::Null => Some(Cell::Null),
    }
}

fn items_of(alloc: Global, values: Items) -> Result<Option<Cells>, NoMemory>
    ensures { IfOk result (λ items. items ≡ items_of_values values) }
{
    let mut values = values.into_vec();
    let mut items = Seq::new(alloc);
    for i in 0..values.len() {
        let value = mem::replace(&mut values[i], Value::Null);
        let Some(item) = item_of(value) else {
            return Ok(None);
        };
        items.push(item)?;
    }
    let items = Frozen::of(alloc, items)?;
    Ok(Some(items))
}

fn array_of(alloc: Global, comp: Comp, values: Items) -> Result<Result<Value, Exc>, NoMemory>
    ensures { IfOk result (λ array. array ≡ array_of comp values) }
{
    match items_of(alloc, values)? {
        Some(items) => Ok(Ok(Value::Array(comp, items))),
        None => Ok(Err(Exc::saying(alloc, ClassId::INTERNAL_ERROR, b"nested array")?)),
    }
}

pub(crate) fn make_array(
    alloc: Global,
    comp: Comp,
    slots: Slots,
    classes: &Classes,
) -> Result<Result<Slot, Exc>, NoMemory>
    requires { made_array classes.now comp slots ≢ Stuck }
    ensures { IfOk result (λ r. slot_or_exc r ≡ made_array classes.now comp slots) }
{
    let types = item_types(alloc, comp, &slots)?;
    let values = all_typed(alloc, &types, slots, classes)?;
    Ok(slot_or_throw(array_of(alloc, comp, values)?))
}

pub(crate) fn check_array(
    alloc: Global,
    slot: &Slot,
    count: u32,
) -> Result<Result<Slot, Exc>, NoMemory>
    requires { checked_array count slot.now ≢ Stuck }
    ensures { IfOk result (λ r. slot_or_exc r ≡ filled (checked_array count slot.now)) }
{
    match slot {
        Slot::L(Value::Null) if count == 0 => Ok(Ok(Slot::I(0))),
        Slot::L(Value::Null) => Ok(Err(Exc::bare(ClassId::NULL_POINTER))),
        Slot::L(Value::Array(_, items)) if items.len() == count as usize => Ok(Ok(Slot::I(0))),
        Slot::L(Value::Array(..)) => {
            Ok(Err(Exc::saying(alloc, ClassId::ILLEGAL_ARGUMENT, b"spread")?))
        }
        _ => unreachable!(),
    }
}

/// A copy of the value that an item stands for.
fn value_of(alloc: Global, item: &Cell) -> Result<Value, NoMemory>
    ensures { IfOk result (λ value. value ≡ value_of_item item.now) }
{
    Ok(match item.copy(alloc)? {
        Cell::Prim(number) => Value::Prim(number),
        Cell::Boxed(number) => Value::Boxed(number),
        Cell::Text(text) => Value::Text(text),
        Cell::Object(class, number) => Value::Object(class, number),
        Cell::Thrown(exc) => Value::Thrown(exc),
        Cell::Null => Value::Null,
    })
}

/// A copy of an item of the array in a slot.
pub(crate) fn item_in(alloc: Global, slot: &Slot, at: u32) -> Result<Slot, NoMemory>
    requires { item_in slot.now at ≢ None }
    ensures { IfOk result (λ item. item_in slot.now at ≡ Some item) }
{
    let Slot::L(Value::Array(_, items)) = slot else {
        unreachable!()
    };
    let at = at as usize;
    if at >= items.len() {
        unreachable!()
    }
    Ok(erase(value_of(alloc, items.get(at))?))
}
