//! Types and values, which are given as texts.

ghost use Rattle.std.specs.Prelude.{◌≡◌, length, IfOk, Ok, Some};
ghost use Rattle.mh_values.specs.Descriptor.{desc};
ghost use Rattle.mh_texts.specs.Literal.{literal_of};

use crate::broken::Broken;
use mh_base::{NoMemory, Seq};
use mh_texts::{LiteralError, read_literal};
use mh_values::{Classes, DescriptorError, Items, MethodTy, Value, read_descriptor};
use std::alloc::Global;

/// The type of a descriptor.
pub(crate) fn type_of(alloc: Global, text: &str, classes: &Classes) -> Result<MethodTy, Broken>
    ensures { IfOk result (λ ty. desc classes.now text.now ≡ Ok ty) }
{
    match read_descriptor(alloc, text.as_bytes(), classes) {
        Ok(ty) => Ok(ty),
        Err(DescriptorError::NoMemory) => Err(Broken::NoMemory),
        Err(_) => Err(Broken::Fixture("a text that is no descriptor")),
    }
}

/// The value of a literal.
pub(crate) fn value_of(alloc: Global, text: &str, classes: &Classes) -> Result<Value, Broken>
    ensures { IfOk result (λ value. literal_of classes.now text.now ≡ Some value) }
{
    match read_literal(alloc, text.as_bytes(), classes) {
        Ok(value) => Ok(value),
        Err(LiteralError::NoMemory) => Err(Broken::NoMemory),
        Err(LiteralError::Bad) => Err(Broken::Fixture("a text that is no literal")),
    }
}

/// The type of a descriptor that [`check`](crate::check) has read: only memory can be lacking.
pub(crate) fn checked_type(
    alloc: Global,
    text: &str,
    classes: &Classes,
) -> Result<MethodTy, NoMemory>
    ensures { IfOk result (λ ty. desc classes.now text.now ≡ Ok ty) }
{
    match type_of(alloc, text, classes) {
        Ok(ty) => Ok(ty),
        Err(_) => Err(NoMemory),
    }
}

/// The value of a literal that [`check`](crate::check) has read: only memory can be lacking.
pub(crate) fn checked_value(alloc: Global, text: &str, classes: &Classes) -> Result<Value, NoMemory>
    ensures { IfOk result (λ value. literal_of classes.now text.now ≡ Some value) }
{
    match value_of(alloc, text, classes) {
        Ok(value) => Ok(value),
        Err(_) => Err(NoMemory),
    }
}

/// The values of literals, in order.
pub fn items_of(alloc: Global, texts: &[&str], classes: &Classes) -> Result<Items, Broken>
    ensures { IfOk result (λ items. length items ≡ length texts.now) }
{
    let mut items = Seq::new(alloc);
    for text in texts {
        items.push(value_of(alloc, *text, classes)?)?;
    }
    Ok(items)
}
