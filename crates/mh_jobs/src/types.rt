ghost use Rattle.std.specs.Prelude.{◌≡◌, List, IfOk};
ghost use Rattle.mh_values.specs.declared.class.Class.{Class};
ghost use Rattle.mh_jobs.specs.Names.{method_type_of_text};
ghost use Rattle.mh_jobs.specs.Thrown.{as_shown};
ghost use Rattle.mh_jobs.specs.Types.{AreTypes};

use crate::error::ResolutionError;
use crate::names::method_type_of_text;
use mh_base::{Copied, NoMemory, Shared};
use mh_values::{Classes, Exc, MethodTy};
use std::alloc::Global;
use std::collections::BTreeMap;

/// A method type, or what is thrown in its place.
pub(crate) type TypeOrThrown = Result<Shared<MethodTy>, Exc>;

/// What descriptors were read as: equal ones are read once, and share their type.
pub(crate) type Types = BTreeMap<Vec<u8>, TypeOrThrown>;

/// Nothing was read.
pub(crate) fn no_types(alloc: Global) -> Types
    ensures { (classes : List Class) → AreTypes classes result }
{
    BTreeMap::new(alloc)
}

/// The method type of a method descriptor.
pub(crate) fn read_type(
    alloc: Global,
    classes: &Classes,
    text: &[u8],
) -> Result<TypeOrThrown, NoMemory>
    ensures { IfOk result (λ ty. ty ≡ method_type_of_text as_shown classes.now text.now) }
{
    match method_type_of_text(alloc, classes, text) {
        Ok(ty) => Ok(Ok(ty)),
        Err(ResolutionError::Thrown(exc)) => Ok(Err(exc)),
        Err(ResolutionError::NoMemory) => Err(NoMemory),
    }
}

/// A copy of what was read, which is shared.
fn again(alloc: Global, ty: &TypeOrThrown) -> Result<TypeOrThrown, NoMemory>
    ensures { IfOk result (λ copy. copy ≡ ty.now) }
{
    match ty {
        Ok(ty) => Ok(Ok(ty.share()?)),
        Err(exc) => Ok(Err(exc.copy(alloc)?)),
    }
}

/// What a descriptor is read as, which is kept.
fn read_and_keep(
    alloc: Global,
    classes: &Classes,
    mut types: Types,
    text: &[u8],
) -> Result<(Types, TypeOrThrown), NoMemory>
    requires { AreTypes classes.now types }
    ensures types { IfOk result (λ both. AreTypes classes.now both.0) }
    ensures read { IfOk result (λ both. both.1
        ≡ method_type_of_text as_shown classes.now text.now) }
{
    let ty = read_type(alloc, classes, text)?;
    let kept = again(alloc, &ty)?;
    types.insert(Vec::from_slice(alloc, text)?, kept)?;
    Ok((types, ty))
}

/// What a descriptor is read as, unless it was read before.
pub(crate) fn read_once(
    alloc: Global,
    classes: &Classes,
    types: Types,
    text: &[u8],
) -> Result<(Types, TypeOrThrown), NoMemory>
    requires { AreTypes classes.now types }
    ensures types { IfOk result (λ both. AreTypes classes.now both.0) }
    ensures read { IfOk result (λ both. both.1
        ≡ method_type_of_text as_shown classes.now text.now) }
{
    match types.get(text) {
        Some(ty) => {
            let ty = again(alloc, ty)?;
            Ok((types, ty))
        }
        None => read_and_keep(alloc, classes, types, text),
    }
}
