//! Resolution of the names in scripts, or the exception if there is nothing of that name (JVMS SE
//! 17, 5.4.3.1, 5.4.3.3 and 5.4.3.5).

ghost use Rattle.std.specs.Prelude.{◌≡◌, ◌<◌, length, take, drop, IfOk};
ghost use Rattle.mh_leaves.specs.declared.naming.How.TheVariants.{Any};
ghost use Rattle.mh_jobs.specs.Names.{class_of, type_of_text, types_of_text, method_type_of_text, leaf_named};
ghost use Rattle.mh_jobs.specs.Thrown.{plainly, method_text, no_class, no_method, no_type};
ghost use Rattle.mh_attempt.specs.Told.{Tells, Throws};

use crate::thrown::thrown;
use mh_base::{NoMemory, Seq, Shared};
use mh_leaves::{How, Leaves, Missing};
use mh_script::MethodName;
use mh_tree::CheckError;
use mh_values::{
    ClassId, Classes, DescriptorError, LeafId, MethodTy, Ty, Tys, read_descriptor, read_type,
    read_types,
};
use std::alloc::Global;

/// The error of a name that no class has.
fn no_class(alloc: Global, name: &[u8]) -> CheckError
    ensures { Throws result (no_class plainly name.now) }
{
    thrown(alloc, ClassId::NO_CLASS_DEF_FOUND, name)
}

/// A method, as `OWNER.NAME:DESC`.
fn method_text(alloc: Global, method: &MethodName) -> Result<Seq<u8>, NoMemory>
    ensures { IfOk result (λ text. text ≡ method_text plainly method.now) }
{
    let mut text = Seq::copy_of(alloc, method.owner.as_slice())?;
    text.push(b'.')?;
    text.append(Seq::copy_of(alloc, method.name.as_slice())?)?;
    text.push(b':')?;
    text.append(Seq::copy_of(alloc, method.descriptor.as_slice())?)?;
    Ok(text)
}

/// The error of a method that is not there.
fn no_method(alloc: Global, method: &MethodName) -> CheckError
    ensures { Throws result (no_method plainly method.now) }
{
    match method_text(alloc, method) {
        Ok(text) => thrown(alloc, ClassId::NO_SUCH_METHOD, text.as_slice()),
        Err(NoMemory) => CheckError::NoMemory,
    }
}

/// `count` bytes from a place on, or as many as are there.
fn part(bytes: &[u8], at: usize, len: usize) -> &[u8]
    ensures { result.now ≡ take len (drop at bytes.now) }
{
    let rest = &bytes[at.min(bytes.len())..];
    &rest[..len.min(rest.len())]
}

/// The error of a text that is no descriptor.
fn no_type(alloc: Global, text: &[u8], error: DescriptorError) -> CheckError
    ensures thrown { Throws result (no_type plainly text.now error) }
    ensures memory { error ≡ DescriptorError.NoMemory → result ≡ CheckError.NoMemory }
{
    match error {
        DescriptorError::NoMemory => CheckError::NoMemory,
        DescriptorError::NoClass { at, len } => no_class(alloc, part(text, at, len)),
        DescriptorError::Unsupported { .. } => {
            thrown(alloc, ClassId::UNSUPPORTED_OPERATION, b"type")
        }
        DescriptorError::Bad { .. } => no_class(alloc, text),
    }
}

/// The class of a name.
pub(crate) fn class_of(alloc: Global, classes: &Classes, name: &[u8]) -> Result<ClassId, CheckError>
    ensures { Tells result (class_of plainly classes.now name.now) }
{
    match classes.find(name) {
        Some(class) => Ok(class),
        None => Err(no_class(alloc, name)),
    }
}

/// The type of a descriptor.
pub(crate) fn type_of_text(alloc: Global, classes: &Classes, text: &[u8]) -> Result<Ty, CheckError>
    ensures { Tells result (type_of_text plainly classes.now text.now) }
{
    match read_type(text, classes) {
        Ok(ty) => Ok(ty),
        Err(error) => Err(no_type(alloc, text, error)),
    }
}

/// The types of descriptors, one after the other.
pub(crate) fn types_of_text(
    alloc: Global,
    classes: &Classes,
    text: &[u8],
) -> Result<Tys, CheckError>
    ensures { Tells result (types_of_text plainly classes.now text.now) }
{
    match read_types(alloc, text, classes) {
        Ok(types) => Ok(types),
        Err(error) => Err(no_type(alloc, text, error)),
    }
}

/// The method type of a method descriptor.
pub(crate) fn method_type_of_text(
    alloc: Global,
    classes: &Classes,
    text: &[u8],
) -> Result<Shared<MethodTy>, CheckError>
    ensures { Tells result (method_type_of_text plainly classes.now text.now) }
{
    match read_descriptor(alloc, text, classes) {
        Ok(ty) => Ok(Shared::new(alloc, ty)?),
        Err(error) => Err(no_type(alloc, text, error)),
    }
}

/// The leaf of a name, called in either way.
pub(crate) fn leaf_named(
    alloc: Global,
    leaves: &Leaves,
    method: &MethodName,
) -> Result<LeafId, CheckError>
    ensures found { Tells result (leaf_named plainly leaves.now Any method.now) }
    ensures within { IfOk result (λ leaf. leaf.0 < length leaves.now.leaves) }
{
    let (owner, name, descriptor) = (
        method.owner.as_slice(),
        method.name.as_slice(),
        method.descriptor.as_slice(),
    );
    match leaves.find(owner, name, descriptor, How::Any) {
        Ok(leaf) => Ok(leaf),
        Err(Missing::NoClass) => Err(no_class(alloc, owner)),
        Err(Missing::NoMethod) => Err(no_method(alloc, method)),
    }
}
