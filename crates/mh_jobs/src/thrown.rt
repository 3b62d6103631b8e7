ghost use Rattle.std.specs.Prelude.{◌≡◌, take, drop, IfOk};
ghost use Rattle.mh_values.specs.Exception.{saying};
ghost use Rattle.mh_jobs.specs.Job.{method_of};
ghost use Rattle.mh_jobs.specs.Told.{Throws, error_of};
ghost use Rattle.mh_jobs.specs.Thrown.{as_shown, method_text, no_class, no_method, no_one_type, no_type, unsupported};

use crate::error::ResolutionError;
use mh_base::{Frozen, NoMemory, Seq};
use mh_class_bytes::mutf8_check;
use mh_classfile::HandleRef;
use mh_values::{ClassId, DescriptorError, Exc, ExcParts};
use std::alloc::Global;

/// The characters by which a message shows a part of a class file.
fn as_shown(alloc: Global, bytes: &[u8]) -> Result<Seq<char>, NoMemory>
    ensures { IfOk result (λ chars. chars ≡ as_shown bytes.now) }
{
    match mutf8_check(bytes) {
        Ok(text) => Ok(Seq::from_vec(text.shown(alloc)?)),
        Err(_) => Ok(Seq::new(alloc)),
    }
}

/// A method, as `OWNER.NAME:DESC`.
fn method_text(alloc: Global, method: &HandleRef<'_>) -> Result<Seq<char>, NoMemory>
    ensures { IfOk result (λ text. text ≡ method_text as_shown (method_of method.now)) }
{
    let mut text = as_shown(alloc, method.owner.bytes())?;
    text.push('.')?;
    text.append(as_shown(alloc, method.name.bytes())?)?;
    text.push(':')?;
    text.append(as_shown(alloc, method.descriptor.bytes())?)?;
    Ok(text)
}

/// An exception with this message.
fn saying(alloc: Global, class: ClassId, message: Seq<char>) -> Result<Exc, NoMemory>
    ensures { IfOk result (λ e. e ≡ saying class message) }
{
    let message = Frozen::of(alloc, message)?;
    Exc::of(
        alloc,
        ExcParts {
            class,
            message,
            cause: None,
        },
    )
}

fn no_class_exc(alloc: Global, name: &[u8]) -> Result<Exc, NoMemory>
    ensures { IfOk result (λ e. e ≡ no_class as_shown name.now) }
{
    let message = as_shown(alloc, name)?;
    saying(alloc, ClassId::NO_CLASS_DEF_FOUND, message)
}

fn no_method_exc(alloc: Global, method: &HandleRef<'_>) -> Result<Exc, NoMemory>
    ensures { IfOk result (λ e. e ≡ no_method as_shown (method_of method.now)) }
{
    let message = method_text(alloc, method)?;
    saying(alloc, ClassId::NO_SUCH_METHOD, message)
}

/// An exception that was made to be thrown, or lack of memory for it.
fn thrown(made: Result<Exc, NoMemory>) -> ResolutionError
    ensures { result ≡ error_of made }
{
    match made {
        Ok(exc) => ResolutionError::Thrown(exc),
        Err(NoMemory) => ResolutionError::NoMemory,
    }
}

/// No class has this name.
pub(crate) fn no_class(alloc: Global, name: &[u8]) -> ResolutionError
    ensures { Throws result (no_class as_shown name.now) }
{
    thrown(no_class_exc(alloc, name))
}

/// The method is not there.
pub(crate) fn no_method(alloc: Global, method: &HandleRef<'_>) -> ResolutionError
    ensures { Throws result (no_method as_shown (method_of method.now)) }
{
    thrown(no_method_exc(alloc, method))
}

/// What is left out, by its word.
pub(crate) fn unsupported(alloc: Global, word: &[u8]) -> ResolutionError
    ensures { Throws result (unsupported word.now) }
{
    thrown(Exc::saying(alloc, ClassId::UNSUPPORTED_OPERATION, word))
}

/// As many bytes from a place on, or as many as are there.
fn part(bytes: &[u8], at: usize, len: usize) -> &[u8]
    ensures { result.now ≡ take len (drop at bytes.now) }
{
    let rest = &bytes[at.min(bytes.len())..];
    &rest[..len.min(rest.len())]
}

/// The text is none of one type: an unknown class that it names, or else a type that is left out.
pub(crate) fn no_one_type(alloc: Global, text: &[u8], error: DescriptorError) -> ResolutionError
    ensures thrown { Throws result (no_one_type text.now error) }
    ensures memory { error ≡ DescriptorError.NoMemory → result ≡ ResolutionError.NoMemory }
{
    match error {
        DescriptorError::NoMemory => ResolutionError::NoMemory,
        DescriptorError::NoClass { at, len } => no_class(alloc, part(text, at, len)),
        DescriptorError::Unsupported { .. } | DescriptorError::Bad { .. } => {
            unsupported(alloc, b"type")
        }
    }
}

/// The text has no type.
pub(crate) fn no_type(alloc: Global, text: &[u8], error: DescriptorError) -> ResolutionError
    ensures thrown { Throws result (no_type as_shown text.now error) }
    ensures memory { error ≡ DescriptorError.NoMemory → result ≡ ResolutionError.NoMemory }
{
    match error {
        DescriptorError::NoMemory => ResolutionError::NoMemory,
        DescriptorError::NoClass { at, len } => no_class(alloc, part(text, at, len)),
        DescriptorError::Unsupported { .. } => unsupported(alloc, b"type"),
        DescriptorError::Bad { .. } => no_class(alloc, text),
    }
}
