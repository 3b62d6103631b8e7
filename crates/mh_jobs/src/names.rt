ghost use Rattle.std.specs.Prelude.{◌≡◌};
ghost use Rattle.mh_jobs.specs.Job.{method_of};
ghost use Rattle.mh_jobs.specs.Names.{class_of, type_of_text, method_type_of_text, leaf_named, is_built_in, is_known_owner, script_of};
ghost use Rattle.mh_jobs.specs.Thrown.{as_shown};
ghost use Rattle.mh_jobs.specs.Told.{TellsResolved};

use crate::error::ResolutionError;
use crate::thrown::{no_class, no_method, no_type};
use mh_base::Shared;
use mh_classfile::HandleRef;
use mh_leaves::{How, Leaves, Missing};
use mh_script::{ScriptId, Scripts};
use mh_values::{ClassId, Classes, LeafId, MethodTy, Ty, read_descriptor, read_type};
use std::alloc::Global;

/// The class of a name.
pub(crate) fn class_of(
    alloc: Global,
    classes: &Classes,
    name: &[u8],
) -> Result<ClassId, ResolutionError>
    ensures { TellsResolved result (class_of as_shown classes.now name.now) }
{
    match classes.find(name) {
        Some(class) => Ok(class),
        None => Err(no_class(alloc, name)),
    }
}

/// The type of a descriptor.
pub(crate) fn type_of_text(
    alloc: Global,
    classes: &Classes,
    text: &[u8],
) -> Result<Ty, ResolutionError>
    ensures { TellsResolved result (type_of_text as_shown classes.now text.now) }
{
    match read_type(text, classes) {
        Ok(ty) => Ok(ty),
        Err(error) => Err(no_type(alloc, text, error)),
    }
}

/// The method type of a method descriptor.
pub(crate) fn method_type_of_text(
    alloc: Global,
    classes: &Classes,
    text: &[u8],
) -> Result<Shared<MethodTy>, ResolutionError>
    ensures { TellsResolved result (method_type_of_text as_shown classes.now text.now) }
{
    match read_descriptor(alloc, text, classes) {
        Ok(ty) => Ok(Shared::new(alloc, ty)?),
        Err(error) => Err(no_type(alloc, text, error)),
    }
}

/// The leaf that a method handle calls in that way.
pub(crate) fn leaf_named(
    alloc: Global,
    leaves: &Leaves,
    how: How,
    method: &HandleRef<'_>,
) -> Result<LeafId, ResolutionError>
    ensures { TellsResolved result (leaf_named as_shown leaves.now how (method_of method.now)) }
{
    let (owner, name, descriptor) = (
        method.owner.bytes(),
        method.name.bytes(),
        method.descriptor.bytes(),
    );
    match leaves.find(owner, name, descriptor, how) {
        Ok(leaf) => Ok(leaf),
        Err(Missing::NoClass) => Err(no_class(alloc, owner)),
        Err(Missing::NoMethod) => Err(no_method(alloc, method)),
    }
}

/// Whether a method handle refers to `StringConcatFactory.makeConcatWithConstants`.
pub(crate) fn is_built_in(method: &HandleRef<'_>) -> bool
    ensures { result ≡ is_built_in (method_of method.now) }
{
    let descriptor = b"(Ljava/lang/invoke/MethodHandles$Lookup;Ljava/lang/String;\
        Ljava/lang/invoke/MethodType;Ljava/lang/String;[Ljava/lang/Object;)\
        Ljava/lang/invoke/CallSite;";
    method.owner.bytes() == b"java/lang/invoke/StringConcatFactory".as_slice()
        && method.name.bytes() == b"makeConcatWithConstants".as_slice()
        && method.descriptor.bytes() == descriptor.as_slice()
}

/// Whether a class of the list, or the owner of a script, has this name.
fn is_known_owner(classes: &Classes, scripts: &Scripts, owner: &[u8]) -> bool
    ensures { result ≡ is_known_owner classes.now scripts.now owner.now }
{
    classes.find(owner).is_some() || scripts.has_owner(owner)
}

/// The script that a method handle refers to.
pub(crate) fn script_of(
    alloc: Global,
    classes: &Classes,
    scripts: &Scripts,
    method: &HandleRef<'_>,
) -> Result<ScriptId, ResolutionError>
    ensures { TellsResolved result
        (script_of as_shown classes.now scripts.now (method_of method.now)) }
{
    let owner = method.owner.bytes();
    // The owner of a script that is found is known.
    if let Some(script) = scripts.find(owner, method.name.bytes(), method.descriptor.bytes()) {
        return Ok(script);
    }
    if !is_known_owner(classes, scripts, owner) {
        return Err(no_class(alloc, owner));
    }
    Err(no_method(alloc, method))
}
