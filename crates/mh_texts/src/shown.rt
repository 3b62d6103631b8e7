ghost use Rattle.std.specs.Prelude.{◌≡◌, ◌++◌, IfOk, OnOk};
ghost use Rattle.std.specs.Option.{option_copied};
ghost use Rattle.mh_texts.specs.Printed.{said_text, cause_text, shown_value, shown_type, shown_exception, value_text};
ghost use Rattle.mh_texts.specs.ReadsBack.{ReadsBack};
ghost use Rattle.mh_texts.specs.Text.{cut, escaped, shown_text};

use crate::printed::{
    cut, front, push_chars, push_method_type, push_name, push_string, push_value,
};
use mh_base::NoMemory;
use mh_values::{Cause, ClassId, Classes, Exc, MethodTy, Value};
use std::alloc::Global;

/// A text as it is printed: with its escapes, and cut after 1,024 characters, followed by `...`.
pub fn show_text(alloc: Global, text: &[char]) -> Result<Vec<u8>, NoMemory>
    ensures { IfOk result (λ shown. shown.items ≡ shown_text text.now) }
{
    let mut bytes = Vec::new(alloc);
    push_chars(&mut bytes, front(text))?;
    cut(bytes)
}

/// A name as it is printed, in the same way; its bytes are its characters.
pub fn show_name(alloc: Global, name: &[u8]) -> Result<Vec<u8>, NoMemory>
    ensures { IfOk result (λ shown. shown.items ≡ shown_text name.now) }
{
    let mut bytes = Vec::new(alloc);
    push_name(&mut bytes, name)?;
    cut(bytes)
}

/// Writes a value before it is cut: of a text, no more characters than can matter.
fn push_shown(bytes: &mut Vec<u8>, v: &Value, classes: &Classes) -> Result<(), NoMemory>
    ensures { OnOk result
        (cut bytes.new.items ≡ cut (bytes.old.items ++ value_text classes.now v.now)) }
{
    match v {
        Value::Text(text) => push_string(bytes, front(text.as_slice())),
        _ => push_value(bytes, classes, v),
    }
}

/// A value as it is printed: as its literal, an exception by its class alone.
pub fn show_value(alloc: Global, v: &Value, classes: &Classes) -> Result<Vec<u8>, NoMemory>
    ensures back { IfOk result (λ shown. ReadsBack classes.now v.now shown.items) }
    ensures is { IfOk result (λ shown. shown.items ≡ shown_value classes.now v.now) }
{
    let mut bytes = Vec::new(alloc);
    push_shown(&mut bytes, v, classes)?;
    cut(bytes)
}

/// A method type as it is printed: as its descriptor.
pub fn show_type(alloc: Global, ty: &MethodTy, classes: &Classes) -> Result<Vec<u8>, NoMemory>
    ensures { IfOk result (λ shown. shown.items ≡ shown_type classes.now ty.now) }
{
    let mut bytes = Vec::new(alloc);
    push_method_type(&mut bytes, classes, ty)?;
    cut(bytes)
}

/// A class and a message: `CLASS s:MESSAGE`, each cut by itself.
fn show_said(
    alloc: Global,
    classes: &Classes,
    class: ClassId,
    message: &[char],
) -> Result<Vec<u8>, NoMemory>
    ensures { IfOk result (λ shown. shown.items ≡ said_text classes.now class message.now) }
{
    let mut said = show_name(alloc, classes.name(class))?;
    said.extend_from_slice(b" s:")?;
    let message = show_text(alloc, message)?;
    said.extend_from_slice(&message)?;
    Ok(said)
}

/// What follows an exception that has a cause.
fn show_cause(alloc: Global, classes: &Classes, cause: Option<&Cause>) -> Result<Vec<u8>, NoMemory>
    ensures { IfOk result
        (λ shown. shown.items ≡ cause_text classes.now (option_copied cause.entry)) }
{
    let mut shown = Vec::new(alloc);
    if let Some(cause) = cause {
        shown.extend_from_slice(b" cause ")?;
        let said = show_said(alloc, classes, cause.class, cause.message.as_slice())?;
        shown.extend_from_slice(&said)?;
    }
    Ok(shown)
}

/// An exception as it is printed: `CLASS s:MESSAGE`, and ` cause CLASS s:MESSAGE` after it if it
/// has a cause. Each class and each message is cut by itself.
pub fn show_exc(alloc: Global, exc: &Exc, classes: &Classes) -> Result<Vec<u8>, NoMemory>
    ensures { IfOk result (λ shown. shown.items ≡ shown_exception classes.now exc.now) }
{
    let mut shown = show_said(alloc, classes, exc.class(), exc.message())?;
    let cause = show_cause(alloc, classes, exc.cause())?;
    shown.extend_from_slice(&cause)?;
    Ok(shown)
}
