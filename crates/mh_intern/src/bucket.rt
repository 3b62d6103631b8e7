// The bucket of a type.
ghost use Rattle.std.specs.Prelude.{◌≡◌, ◌<◌};
ghost use Rattle.mh_intern.specs.Buckets.{primitive_code, component_code, type_code, return_code, bucket_of, buckets};

use mh_values::{Comp, MethodTy, Primitive, Ty};

/// How many buckets a table has.
pub(crate) const BUCKETS: u32 = 64;

/// How many slots a bucket has.
pub(crate) const BUCKET_SLOTS: u32 = 32;

/// How many slots a table has.
pub(crate) const SLOTS: usize = 2048;

/// The code of a primitive type.
fn primitive_code(primitive: Primitive) -> u64
    ensures code { result ≡ primitive_code primitive }
    ensures small { result < 7 }
{
    match primitive {
        Primitive::Z => 1,
        Primitive::B => 2,
        Primitive::C => 3,
        Primitive::S => 4,
        Primitive::I => 5,
        Primitive::J => 6,
    }
}

/// The code of a component type: a class has an even one from 8 on.
fn component_code(component: Comp) -> u64
    ensures code { result ≡ component_code component }
    ensures small { result < 8589934600 }
{
    match component {
        Comp::Prim(primitive) => primitive_code(primitive),
        Comp::Class(class) => 8 + 2 * u64::from(class.0),
    }
}

/// The code of a type: an array has an odd one from 11 on, by the code of its component.
fn type_code(ty: Ty) -> u64
    ensures code { result ≡ type_code ty }
    ensures small { result < 17179869300 }
{
    match ty {
        Ty::Prim(primitive) => primitive_code(primitive),
        Ty::Class(class) => 8 + 2 * u64::from(class.0),
        Ty::Array(component) => 9 + 2 * component_code(component),
    }
}

/// The code of a return type: void has 7.
fn return_code(ret: Option<Ty>) -> u64
    ensures { result ≡ return_code ret }
{
    match ret {
        None => 7,
        Some(ty) => type_code(ty),
    }
}

/// The bucket of a type: the fold of its codes, from that of the return type on, by `31 * h + code`
/// modulo 64.
pub(crate) fn bucket_of(ty: &MethodTy) -> u32
    ensures bucket { result ≡ bucket_of ty.now }
    ensures small { result < buckets }
{
    let mut fold = return_code(ty.ret) % u64::from(BUCKETS);
    for param in ty.params.as_slice() {
        fold = (31 * fold + type_code(*param)) % u64::from(BUCKETS);
    }
    fold as u32
}
