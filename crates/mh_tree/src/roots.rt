ghost use Rattle.std.specs.Prelude.{◌<◌, length, slice_get};
ghost use Rattle.mh_tree.specs.Check.{TellsRow};
ghost use Rattle.mh_tree.specs.Rows.{leaf_row, constant_row, identity_row, throw_row};

use crate::CheckError;
use crate::error::refused;
use crate::limits::limited;
use mh_base::{Copied, Seq};
use mh_convert::misfit;
use mh_leaves::Leaves;
use mh_values::{ClassId, Classes, LeafId, MethodTy, Ty, Value};
use std::alloc::Global;

/// The type of a leaf: the one that it is registered with. Never refused.
pub fn check_leaf(alloc: Global, leaf: LeafId, leaves: &Leaves) -> Result<MethodTy, CheckError>
    requires { leaf.0 < length leaves.now.leaves }
    ensures { TellsRow result (leaf_row (slice_get leaves.now.leaves leaf.0)) }
{
    Ok(leaves.ty(leaf).copy(alloc)?)
}

/// The type of a constant, which takes no arguments (`MethodHandles.constant`, SE 17). Refused if
/// the type is void, or if the value does not fit it.
pub fn check_constant(
    alloc: Global,
    ty: Option<Ty>,
    value: &Value,
    classes: &Classes,
) -> Result<MethodTy, CheckError>
    ensures { TellsRow result (constant_row classes.now ty value.now) }
{
    let Some(ret) = ty else {
        return Err(refused(alloc, b"constant"));
    };
    if let Some(exc) = misfit(value, ret, classes) {
        return Err(CheckError::Refused(exc.with_message(alloc, b"constant")?));
    }
    let params = Seq::new(alloc);
    limited(alloc, b"constant", 1, MethodTy { params, ret: ty })
}

/// The type of an identity (`MethodHandles.identity`, SE 17). Refused if the type is void.
pub fn check_identity(
    alloc: Global,
    ty: Option<Ty>,
    _classes: &Classes,
) -> Result<MethodTy, CheckError>
    ensures { TellsRow result (identity_row ty) }
{
    let Some(own) = ty else {
        return Err(refused(alloc, b"identity"));
    };
    let mut params = Seq::new(alloc);
    params.push(own)?;
    limited(alloc, b"identity", 1, MethodTy { params, ret: ty })
}

/// The type of a tree that throws its argument (`MethodHandles.throwException`, SE 17). Refused if
/// the class is not `java/lang/Throwable` or below it.
pub fn check_throw(
    alloc: Global,
    ret: Option<Ty>,
    class: ClassId,
    classes: &Classes,
) -> Result<MethodTy, CheckError>
    ensures { TellsRow result (throw_row classes.now ret class) }
{
    if !classes.subclass(class, ClassId::THROWABLE) {
        return Err(refused(alloc, b"throw"));
    }
    let mut params = Seq::new(alloc);
    params.push(Ty::Class(class))?;
    limited(alloc, b"throw", 1, MethodTy { params, ret })
}
