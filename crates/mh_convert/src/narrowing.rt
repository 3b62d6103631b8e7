//! Numbers that may lose their high bits.

ghost use Rattle.std.specs.Prelude.{◌≡◌};
ghost use Rattle.mh_values.specs.Primitives.{whole};
ghost use Rattle.mh_convert.specs.Conversion.{narrowed, recast, recast_value, unboxed_explicitly};

use crate::giving::zero;
use mh_values::{ClassId, Exc, Num, Primitive, Value};

/// How many numbers have one bit, 8, 16 or 32.
const BITS_1: i64 = 2;

const BITS_8: i64 = 1 << 8;

const BITS_16: i64 = 1 << 16;

const BITS_32: i64 = 1 << 32;

/// The whole number that a number is: true is 1, false is 0.
fn whole(number: Num) -> i64
    ensures { result ≡ whole number }
{
    match number {
        Num::Z(true) => 1,
        Num::Z(false) => 0,
        Num::B(n) => i64::from(n),
        Num::C(n) => i64::from(n),
        Num::S(n) => i64::from(n),
        Num::I(n) => i64::from(n),
        Num::J(n) => n,
    }
}

/// The low bits of a whole number as a number of a primitive type.
fn narrowed(n: i64, to: Primitive) -> Num
    ensures { result ≡ narrowed n to }
{
    match to {
        Primitive::Z => Num::Z(n.rem_euclid(BITS_1).unsigned_abs() == 1),
        Primitive::B => Num::B((n.rem_euclid(BITS_8).unsigned_abs() as u8).cast_signed()),
        Primitive::C => Num::C(n.rem_euclid(BITS_16).unsigned_abs() as u16),
        Primitive::S => Num::S((n.rem_euclid(BITS_16).unsigned_abs() as u16).cast_signed()),
        Primitive::I => Num::I((n.rem_euclid(BITS_32).unsigned_abs() as u32).cast_signed()),
        Primitive::J => Num::J(n),
    }
}

/// A number as one of any primitive type.
fn recast(number: Num, to: Primitive) -> Num
    ensures { result ≡ recast number to }
{
    if number.primitive() == to {
        number
    } else {
        narrowed(whole(number), to)
    }
}

pub(crate) fn recast_value(v: Value, to: Primitive) -> Value
    ensures { result ≡ recast_value v to }
{
    match v {
        Value::Prim(number) => Value::Prim(recast(number, to)),
        _ => v,
    }
}

/// A reference as a number of a primitive type, explicitly: null is zero, and a boxed number is
/// recast.
pub(crate) fn unboxed_explicitly(v: Value, to: Primitive) -> Result<Value, Exc>
    ensures { result ≡ unboxed_explicitly v to }
{
    match v {
        Value::Null => Ok(Value::Prim(zero(to))),
        Value::Boxed(number) => Ok(Value::Prim(recast(number, to))),
        _ => Err(Exc::bare(ClassId::CLASS_CAST)),
    }
}
