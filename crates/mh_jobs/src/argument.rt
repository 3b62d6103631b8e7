ghost use Rattle.std.specs.Prelude.{◌≡◌};
ghost use Rattle.mh_class_bytes.specs.Chars.{chars_of};
ghost use Rattle.mh_jobs.specs.Job.{unless_lone, text_of, way_of, handle_leaf, class_argument, argument_of};
ghost use Rattle.mh_jobs.specs.Told.{TellsResolved};

use crate::Argument;
use crate::error::ResolutionError;
use crate::names::{class_of, leaf_named, method_type_of_text, type_of_text};
use crate::thrown::unsupported;
use mh_base::{Frozen, Seq};
use mh_class_bytes::{CharsError, Text};
use mh_classfile::{Constant, HandleRef};
use mh_leaves::{How, Leaves};
use mh_values::{Classes, MOST_CHARACTERS, Num, Str, Ty, Value};
use std::alloc::Global;

/// The characters of a text.
fn characters(alloc: Global, text: &Text<'_>) -> Result<Seq<char>, ResolutionError>
    ensures { TellsResolved result (unless_lone (chars_of text.now)) }
{
    match text.chars(alloc) {
        Ok(chars) => Ok(Seq::from_vec(chars)),
        Err(CharsError::NoMemory) => Err(ResolutionError::NoMemory),
        Err(CharsError::LoneSurrogate { .. }) => Err(unsupported(alloc, b"lone surrogate")),
    }
}

/// A text of a class file as the text of a value.
pub(crate) fn text_of(alloc: Global, text: &Text<'_>) -> Result<Str, ResolutionError>
    ensures { TellsResolved result (text_of text.now) }
{
    let characters = characters(alloc, text)?;
    if characters.len() > MOST_CHARACTERS {
        return Err(unsupported(alloc, b"string too long"));
    }
    Ok(Frozen::of(alloc, characters)?)
}

/// How a method handle of a kind calls its method.
fn way_of(kind: u8) -> Option<How>
    ensures { result ≡ way_of kind }
{
    match kind {
        5 => Some(How::Virtual),
        6 => Some(How::Static),
        _ => None,
    }
}

/// The leaf of a method handle.
fn handle_leaf(
    alloc: Global,
    leaves: &Leaves,
    handle: &HandleRef<'_>,
) -> Result<Argument, ResolutionError>
    ensures { TellsResolved result (handle_leaf leaves.now handle.now) }
{
    let Some(how) = way_of(handle.kind) else {
        return Err(unsupported(alloc, b"constant"));
    };
    let leaf = leaf_named(alloc, leaves, how, handle)?;
    Ok(Argument::Leaf(leaf))
}

/// The class or the array type of a constant.
fn class_argument(alloc: Global, classes: &Classes, text: &[u8]) -> Result<Ty, ResolutionError>
    ensures { TellsResolved result (class_argument classes.now text.now) }
{
    if text.starts_with(b"[") {
        return type_of_text(alloc, classes, text);
    }
    let class = class_of(alloc, classes, text)?;
    Ok(Ty::Class(class))
}

/// A static argument by its constant.
pub(crate) fn argument_of(
    alloc: Global,
    leaves: &Leaves,
    constant: &Constant<'_>,
) -> Result<Argument, ResolutionError>
    ensures { TellsResolved result (argument_of leaves.now constant.now) }
{
    match constant {
        Constant::Integer(number) => Ok(Argument::Value(Value::Boxed(Num::I(*number)))),
        Constant::Long(number) => Ok(Argument::Value(Value::Boxed(Num::J(*number)))),
        Constant::Str(text) => {
            let text = text_of(alloc, text)?;
            Ok(Argument::Value(Value::Text(text)))
        }
        Constant::MethodType(text) => {
            let ty = method_type_of_text(alloc, leaves.classes(), text.bytes())?;
            Ok(Argument::MethodType(ty))
        }
        Constant::Class(text) => {
            let ty = class_argument(alloc, leaves.classes(), text.bytes())?;
            Ok(Argument::Class(ty))
        }
        Constant::Handle(handle) => handle_leaf(alloc, leaves, handle),
        Constant::Float | Constant::Double | Constant::Dynamic(_) | Constant::Other => {
            Err(unsupported(alloc, b"constant"))
        }
    }
}
