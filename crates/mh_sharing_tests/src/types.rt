ghost use Rattle.std.specs.Prelude.{◌≡◌, ◌<◌, IfOk};

use mh_base::{NoMemory, Seq};
use mh_values::{MethodTy, Primitive, Ty};
use std::alloc::Global;

pub const INT: Ty = Ty::Prim(Primitive::I);

/// A method type of these types.
pub fn method(alloc: Global, params: &[Ty], ret: Option<Ty>) -> Result<MethodTy, NoMemory>
    ensures { IfOk result (λ ty. ty.ret ≡ ret) }
{
    let mut list = Seq::new(alloc);
    for param in params {
        list.push(*param)?;
    }
    Ok(MethodTy { params: list, ret })
}

/// A method type with this many `int` parameters.
pub fn ints(alloc: Global, count: usize, ret: Option<Ty>) -> Result<MethodTy, NoMemory>
    ensures { IfOk result (λ ty. ty.ret ≡ ret) }
{
    let mut params = Seq::new(alloc);
    for _ in 0..count {
        params.push(INT)?;
    }
    Ok(MethodTy { params, ret })
}

/// A void method's type of bucket 7: it has four `int` parameters for each number.
pub fn of_bucket_7(alloc: Global, number: u32) -> Result<MethodTy, NoMemory>
    requires { number < 1000 }
{
    ints(alloc, 4 * number as usize, None)
}

/// An `int` method's type of bucket 5: it has four `int` parameters for each number.
pub fn of_bucket_5(alloc: Global, number: u32) -> Result<MethodTy, NoMemory>
    requires { number < 1000 }
{
    ints(alloc, 4 * number as usize, Some(INT))
}
