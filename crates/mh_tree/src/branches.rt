ghost use Rattle.std.specs.Prelude.{◌≡◌, Some};
ghost use Rattle.mh_tree.specs.Check.{TellsRow};
ghost use Rattle.mh_tree.specs.Rows.{takes_exception, handles, guard_row, catch_row};

use crate::CheckError;
use crate::error::refused;
use crate::limits::limited;
use mh_base::Copied;
use mh_values::{
    ClassId, Classes, MethodTy, Primitive, Ty, begins_with_types, is_same_method_type,
    is_same_return, is_type_below,
};
use std::alloc::Global;

/// The type of a target that runs if a test gives true, and of the fallback that runs otherwise
/// (`MethodHandles.guardWithTest`, SE 17). Refused if target and fallback differ in type, or if the
/// test does not give a boolean or does not take the first parameters of the target.
pub fn check_guard(
    alloc: Global,
    test: &MethodTy,
    test_weight: u32,
    target: &MethodTy,
    target_weight: u32,
    fallback: &MethodTy,
    fallback_weight: u32,
    _classes: &Classes,
) -> Result<MethodTy, CheckError>
    ensures { TellsRow result
        (guard_row test.now test_weight target.now target_weight fallback.now fallback_weight) }
{
    if !is_same_method_type(fallback, target)
        || !is_same_return(test.ret, Some(Ty::Prim(Primitive::Z)))
        || !begins_with_types(target.params.as_slice(), test.params.as_slice())
    {
        return Err(refused(alloc, b"guard"));
    }
    let weight = 1 + u64::from(test_weight) + u64::from(target_weight) + u64::from(fallback_weight);
    limited(alloc, b"guard", weight, target.copy(alloc)?)
}

/// Whether the first parameter takes an exception of the class, and the others are the first of
/// the list.
fn takes_exception(class: ClassId, params: &[Ty], types: &[Ty], classes: &Classes) -> bool
    ensures { result ≡ takes_exception classes.now class params.now types.now }
{
    match params {
        [] => false,
        [first, others @ ..] => {
            is_type_below(Ty::Class(class), *first, classes) && begins_with_types(types, others)
        }
    }
}

/// Whether a handler takes an exception of the class, then the first parameters of the target, and
/// returns what the target returns.
fn handles(class: ClassId, handler: &MethodTy, target: &MethodTy, classes: &Classes) -> bool
    ensures { result ≡ handles classes.now class handler.now target.now }
{
    takes_exception(
        class,
        handler.params.as_slice(),
        target.params.as_slice(),
        classes,
    ) && is_same_return(handler.ret, target.ret)
}

/// The type of a target whose exceptions of a class go to a handler
/// (`MethodHandles.catchException`, SE 17). Refused if the class is not `java/lang/Throwable` or
/// below it. Refused also if the handler returns another type, or does not take such an exception
/// and then the first parameters of the target.
pub fn check_catch(
    alloc: Global,
    target: &MethodTy,
    target_weight: u32,
    class: ClassId,
    handler: &MethodTy,
    handler_weight: u32,
    classes: &Classes,
) -> Result<MethodTy, CheckError>
    ensures { TellsRow result
        (catch_row classes.now target.now target_weight class handler.now handler_weight) }
{
    if !classes.subclass(class, ClassId::THROWABLE) || !handles(class, handler, target, classes) {
        return Err(refused(alloc, b"catch"));
    }
    let weight = 1 + u64::from(target_weight) + u64::from(handler_weight);
    limited(alloc, b"catch", weight, target.copy(alloc)?)
}
