ghost use Rattle.std.specs.Prelude.{◌≡◌};
ghost use Rattle.mh_leaf.specs.Outcome.{is_kind_type, is_type, returns_first, chooses, throws_exceptions};

use crate::Kind;
use mh_values::{
    ClassId, Classes, MethodTy, Primitive, Ty, are_same_types, is_same_return, is_same_type,
};

const INT: Ty = Ty::Prim(Primitive::I);

const LONG: Ty = Ty::Prim(Primitive::J);

const BOOLEAN: Ty = Ty::Prim(Primitive::Z);

const STRING: Ty = Ty::Class(ClassId::STRING);

/// Whether a method type has these parameters and this return.
fn is_type(ty: &MethodTy, params: &[Ty], ret: Ty) -> bool
    ensures { result ≡ is_type ty.now params.now ret }
{
    are_same_types(ty.params.as_slice(), params) && is_same_return(ty.ret, Some(ret))
}

/// Whether the return type is that of the first parameter.
fn returns_first(ty: &MethodTy) -> bool
    ensures { result ≡ returns_first ty.now }
{
    is_same_return(ty.params.as_slice().first().copied(), ty.ret)
}

/// Whether the parameters are a boolean and two of one type, which is also returned.
fn chooses(params: &[Ty], ret: Option<Ty>) -> bool
    ensures { result ≡ chooses params.now ret }
{
    match params {
        [test, first, second] => {
            is_same_type(*test, BOOLEAN)
                && is_same_type(*first, *second)
                && is_same_return(Some(*second), ret)
        }
        _ => false,
    }
}

/// Whether a leaf of a kind may have a type, that of its method handle with the receiver first.
pub fn is_kind_type(kind: Kind, ty: &MethodTy) -> bool
    ensures { result ≡ is_kind_type kind ty.now }
{
    match kind {
        Kind::Iadd | Kind::Isub | Kind::Imul | Kind::Idiv => is_type(ty, &[INT, INT], INT),
        Kind::Ladd => is_type(ty, &[LONG, LONG], LONG),
        Kind::Ieq | Kind::Ilt => is_type(ty, &[INT, INT], BOOLEAN),
        Kind::Not => is_type(ty, &[BOOLEAN], BOOLEAN),
        Kind::Concat => is_type(ty, &[STRING, STRING], STRING),
        Kind::Length => is_type(ty, &[STRING], INT),
        Kind::Same => ty.params.len() == 1 && returns_first(ty),
        Kind::First => ty.params.len() >= 2 && returns_first(ty),
        Kind::Pick => chooses(ty.params.as_slice(), ty.ret),
        Kind::Tick => is_same_return(ty.ret, Some(INT)),
        Kind::Note => is_same_return(ty.ret, None),
        Kind::Throw(_) => true,
    }
}

/// Whether what leaves of a kind throw by themselves is an exception: `java/lang/Throwable` or
/// below it.
pub fn throws_exceptions(kind: Kind, classes: &Classes) -> bool
    ensures { result ≡ throws_exceptions classes.now kind }
{
    match kind {
        Kind::Throw(class) => classes.subclass(class, ClassId::THROWABLE),
        _ => true,
    }
}
