ghost use Rattle.std.specs.Prelude.{◌≡◌, pos, IsTrue};
ghost use Rattle.mh_values.specs.HasType.{has_type};
ghost use Rattle.mh_values.specs.Primitives.{number_of};
ghost use Rattle.mh_convert.specs.declared.conv.Rules.TheVariants as rules;
ghost use Rattle.mh_convert.specs.Conversion.{can, widened, widened_value, boxed, cast, unboxed};
ghost use Rattle.mh_convert.specs.Conversion.{conv_as_type, conv_explicit, conv, fit, default_of};

use crate::allowed::serves_as;
use crate::narrowing::{recast_value, unboxed_explicitly};
use crate::{Conv, Rules};
use mh_values::{ClassId, Classes, Exc, Num, Primitive, Ty, Value, has_type};

/// A number as one of a primitive type that it serves as.
fn widened(number: Num, to: Primitive) -> Num
    ensures { result ≡ widened number to }
{
    match (number, to) {
        (Num::B(n), Primitive::S) => Num::S(i16::from(n)),
        (Num::B(n), Primitive::I) => Num::I(i32::from(n)),
        (Num::B(n), Primitive::J) => Num::J(i64::from(n)),
        (Num::C(n), Primitive::I) => Num::I(i32::from(n)),
        (Num::C(n), Primitive::J) => Num::J(i64::from(n)),
        (Num::S(n), Primitive::I) => Num::I(i32::from(n)),
        (Num::S(n), Primitive::J) => Num::J(i64::from(n)),
        (Num::I(n), Primitive::J) => Num::J(i64::from(n)),
        _ => number,
    }
}

fn widened_value(v: Value, to: Primitive) -> Value
    ensures { result ≡ widened_value v to }
{
    match v {
        Value::Prim(number) => Value::Prim(widened(number, to)),
        _ => v,
    }
}

fn boxed(v: Value) -> Value
    ensures { result ≡ boxed v }
{
    match v {
        Value::Prim(number) => Value::Boxed(number),
        _ => v,
    }
}

/// A reference as a value of a reference type: itself, if it has the type.
fn cast(v: Value, to: Ty, classes: &Classes) -> Result<Value, Exc>
    ensures { result ≡ cast classes.now v to }
{
    if has_type(&v, to, classes) {
        Ok(v)
    } else {
        Err(Exc::bare(ClassId::CLASS_CAST))
    }
}

/// A reference as a number of a primitive type: a boxed number that serves as one, widened.
fn unboxed(v: Value, to: Primitive) -> Result<Value, Exc>
    ensures { result ≡ unboxed v to }
{
    match v {
        Value::Null => Err(Exc::bare(ClassId::NULL_POINTER)),
        Value::Boxed(number) if serves_as(number.primitive(), to) => {
            Ok(Value::Prim(widened(number, to)))
        }
        _ => Err(Exc::bare(ClassId::CLASS_CAST)),
    }
}

fn convert_as_type(by: Conv, v: Value, classes: &Classes) -> Result<Value, Exc>
    ensures { result ≡ conv_as_type classes.now by.from by.to v }
{
    match (by.from, by.to) {
        (Ty::Prim(_), Ty::Prim(to)) => Ok(widened_value(v, to)),
        (Ty::Prim(_), _) => Ok(boxed(v)),
        (_, Ty::Prim(to)) => unboxed(v, to),
        (_, to) => cast(v, to, classes),
    }
}

fn convert_explicitly(by: Conv, v: Value, classes: &Classes) -> Result<Value, Exc>
    ensures { result ≡ conv_explicit classes.now by.from by.to v }
{
    match (by.from, by.to) {
        (Ty::Prim(_), Ty::Prim(to)) => Ok(recast_value(v, to)),
        (Ty::Prim(_), _) => Ok(boxed(v)),
        (_, Ty::Prim(to)) => unboxed_explicitly(v, to),
        (_, to) => cast(v, to, classes),
    }
}

impl Rules {
    /// What an allowed conversion gives of a value of its `from`. If a reference cannot be
    /// converted, it gives an exception with an empty message. It takes no memory.
    pub fn convert(self, by: Conv, v: Value, classes: &Classes) -> Result<Value, Exc>
        requires allowed { IsTrue (can self classes.now by.from by.to) }
        requires typed { IsTrue (has_type classes.now v by.from) }
        ensures { result ≡ conv self classes.now by.from by.to v }
    {
        match self {
            Rules::AsType => convert_as_type(by, v, classes),
            Rules::Explicit => convert_explicitly(by, v, classes),
        }
    }
}

/// What an allowed conversion gives of a value of its `from`: the value itself, widened, boxed or
/// unboxed. If a reference cannot be converted, it gives `NullPointerException` or
/// `ClassCastException`, with an empty message (`MethodHandle.asType`, SE 17). It takes no memory.
pub fn convert(by: Conv, v: Value, classes: &Classes) -> Result<Value, Exc>
    requires allowed { IsTrue (can rules.AsType classes.now by.from by.to) }
    requires typed { IsTrue (has_type classes.now v by.from) }
    ensures { result ≡ conv rules.AsType classes.now by.from by.to v }
{
    Rules::AsType.convert(by, v, classes)
}

/// The zero of a primitive type; of `boolean` it is false.
pub(crate) fn zero(primitive: Primitive) -> Num
    ensures { result ≡ number_of primitive (pos 0) }
{
    match primitive {
        Primitive::Z => Num::Z(false),
        Primitive::B => Num::B(0),
        Primitive::C => Num::C(0),
        Primitive::S => Num::S(0),
        Primitive::I => Num::I(0),
        Primitive::J => Num::J(0),
    }
}

/// The default of a type: null, false or zero.
pub fn default_value(ty: Ty) -> Value
    ensures { result ≡ default_of ty }
{
    match ty {
        Ty::Prim(primitive) => Value::Prim(zero(primitive)),
        Ty::Class(_) | Ty::Array(_) => Value::Null,
    }
}

/// A bound or constant value, which is a reference, as a value of a type: as `convert` of an
/// `Object`. It takes no memory.
pub fn fit(v: Value, to: Ty, classes: &Classes) -> Result<Value, Exc>
    ensures { result ≡ fit classes.now v to }
{
    match to {
        Ty::Prim(to) => unboxed(v, to),
        _ => cast(v, to, classes),
    }
}
