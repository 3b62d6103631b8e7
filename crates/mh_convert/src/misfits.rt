ghost use Rattle.std.specs.Prelude.{◌≡◌};
ghost use Rattle.std.specs.Result.{result_err};
ghost use Rattle.mh_convert.specs.Conversion.{fit, unboxed, cast};

use crate::allowed::serves_as;
use mh_values::{ClassId, Classes, Exc, Primitive, Ty, Value, has_type};

/// The exception of a reference that is no boxed number of a type that serves as the primitive
/// type.
fn unboxing_error(v: &Value, to: Primitive) -> Option<Exc>
    ensures { result ≡ result_err (unboxed v.now to) }
{
    match v {
        Value::Null => Some(Exc::bare(ClassId::NULL_POINTER)),
        Value::Boxed(number) if serves_as(number.primitive(), to) => None,
        _ => Some(Exc::bare(ClassId::CLASS_CAST)),
    }
}

/// The exception of a reference that does not have the type.
fn cast_error(v: &Value, to: Ty, classes: &Classes) -> Option<Exc>
    ensures { result ≡ result_err (cast classes.now v.now to) }
{
    if has_type(v, to, classes) {
        None
    } else {
        Some(Exc::bare(ClassId::CLASS_CAST))
    }
}

/// Why a bound or constant value does not fit a type: the error of `fit`, if it has one. The value
/// stays with its owner. It takes no memory.
pub fn misfit(v: &Value, to: Ty, classes: &Classes) -> Option<Exc>
    ensures { result ≡ result_err (fit classes.now v.now to) }
{
    match to {
        Ty::Prim(to) => unboxing_error(v, to),
        _ => cast_error(v, to, classes),
    }
}
