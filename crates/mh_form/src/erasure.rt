ghost use Rattle.std.specs.Prelude.{◌≡◌, ◌≢◌, IfOk, None, Some, pos, IsTrue};
ghost use Rattle.mh_values.specs.Primitives.{lies_in, primitive_of, whole};
ghost use Rattle.mh_values.specs.declared.types.Primitive.TheVariants as primitive;
ghost use Rattle.mh_form.specs.Erasure.{all_typed, basic_of, basic_ret_of, erased, lies_within, number_in, number_slot, shape_of, typed};

use crate::{Basic, BasicRet, Shape, Slot, Slots};
use mh_base::{NoMemory, Seq};
use mh_values::{Classes, Items, MethodTy, Num, Primitive, Ty, Tys, Value};
use std::alloc::Global;
use std::mem;

/// What a type becomes when it is erased.
pub fn basic_of(ty: Ty) -> Basic
    ensures { result ≡ basic_of ty }
{
    match ty {
        Ty::Prim(Primitive::J) => Basic::J,
        Ty::Prim(_) => Basic::I,
        _ => Basic::L,
    }
}

fn basic_ret(ret: Option<Ty>) -> BasicRet
    ensures { result ≡ basic_ret_of ret }
{
    match ret {
        None => BasicRet::V,
        Some(ty) => BasicRet::Is(basic_of(ty)),
    }
}

/// A method type with its types erased.
pub fn shape(alloc: Global, ty: &MethodTy) -> Result<Shape, NoMemory>
    ensures { IfOk result (λ shape. shape ≡ shape_of ty.now) }
{
    let mut params = Seq::from_vec(Vec::with_capacity(alloc, ty.params.len())?);
    for param in ty.params.as_slice() {
        params.push(basic_of(*param))?;
    }
    Ok(Shape {
        params,
        ret: basic_ret(ty.ret),
    })
}

/// A number as a slot.
#[inline(always)]
pub(crate) fn number_slot(number: Num) -> Slot
    ensures { result ≡ number_slot (primitive_of number) (whole number) }
{
    match number {
        Num::Z(true) => Slot::I(1),
        Num::Z(false) => Slot::I(0),
        Num::B(number) => Slot::I(i32::from(number)),
        Num::C(number) => Slot::I(i32::from(number)),
        Num::S(number) => Slot::I(i32::from(number)),
        Num::I(number) => Slot::I(number),
        Num::J(number) => Slot::J(number),
    }
}

/// A value as a slot.
#[inline(always)]
pub fn erase(value: Value) -> Slot
    ensures { result ≡ erased value }
{
    match value {
        Value::Prim(number) => number_slot(number),
        _ => Slot::L(value),
    }
}

/// An int in the range of `byte`.
#[inline(always)]
fn byte(number: i32) -> i8
    requires { IsTrue (lies_in primitive.B number) }
    ensures { result ≡ number }
{
    number as i8
}

/// An int in the range of `char`.
#[inline(always)]
fn character(number: i32) -> u16
    requires { IsTrue (lies_in primitive.C number) }
    ensures { pos result ≡ number }
{
    number as u16
}

/// An int in the range of `short`.
#[inline(always)]
fn short(number: i32) -> i16
    requires { IsTrue (lies_in primitive.S number) }
    ensures { result ≡ number }
{
    number as i16
}

/// The number of a primitive type that a slot stands for.
#[inline(always)]
pub(crate) fn number_in(primitive: Primitive, slot: &Slot) -> Num
    requires { number_in primitive slot.now ≢ None }
    ensures { number_in primitive slot.now ≡ Some result }
{
    match (primitive, slot) {
        (Primitive::Z, Slot::I(number)) => Num::Z(*number == 1),
        (Primitive::B, Slot::I(number)) => Num::B(byte(*number)),
        (Primitive::C, Slot::I(number)) => Num::C(character(*number)),
        (Primitive::S, Slot::I(number)) => Num::S(short(*number)),
        (Primitive::I, Slot::I(number)) => Num::I(*number),
        (Primitive::J, Slot::J(number)) => Num::J(*number),
        _ => unreachable!(),
    }
}

#[inline(always)]
fn typed_value(ty: Ty, slot: Slot, classes: &Classes) -> Value
    requires { typed classes.now ty slot ≢ None }
    ensures { typed classes.now ty slot ≡ Some result }
{
    match (ty, slot) {
        (Ty::Prim(primitive), slot) => Value::Prim(number_in(primitive, &slot)),
        (Ty::Class(_) | Ty::Array(_), Slot::L(value)) => value,
        _ => unreachable!(),
    }
}

/// A slot as the value of a type that it stands for; the slot lies in the range of the type.
#[inline(always)]
pub fn typed(ty: Ty, slot: Slot, classes: &Classes) -> Value
    requires { typed classes.now ty slot ≢ None }
    ensures range { IsTrue (lies_within ty slot) }
    ensures is { typed classes.now ty slot ≡ Some result }
{
    typed_value(ty, slot, classes)
}

/// Slots as the values of types that they stand for, one for each.
pub fn all_typed(
    alloc: Global,
    types: &Tys,
    slots: Slots,
    classes: &Classes,
) -> Result<Items, NoMemory>
    requires { all_typed classes.now types.now slots ≢ None }
    ensures { IfOk result (λ values. all_typed classes.now types.now slots ≡ Some values) }
{
    let mut slots = slots.into_vec();
    let mut values = Seq::from_vec(Vec::with_capacity(alloc, types.len())?);
    for i in 0..types.len() {
        if i >= slots.len() {
            unreachable!()
        }
        let slot = mem::replace(&mut slots[i], Slot::I(0));
        values.push(typed(*types.get(i), slot, classes))?;
    }
    Ok(values)
}
