ghost use Rattle.std.specs.Prelude.{◌≡◌, is_some, IfOk};
ghost use Rattle.std.specs.List.{list_all, list_any};
ghost use Rattle.mh_script.specs.Tokens.{is_of_register, is_register, argument_number, register_of, is_given, is_assignable, sort_after, assigned_sort, sort_in, if_operand, operand_literal, if_text, text_literal, has_colon};

use crate::number::read_number;
use crate::{Register, Step};
use mh_base::{NoMemory, Seq};
use mh_texts::{LiteralError, read_literal};
use mh_values::{Classes, Str, Value};
use std::alloc::Global;

/// How many characters may follow the first of a register.
const MOST_MORE: usize = 15;

/// What a register holds.
#[derive(Clone, Copy, PartialEq, Eq)]
pub(crate) enum Sort {
    Handle,
    Value,
    MethodType,
    Class,
}

fn is_of_register(byte: u8) -> bool
    ensures { result ≡ is_of_register byte }
{
    matches!(byte, b'a'..=b'z' | b'0'..=b'9' | b'_')
}

fn are_of_register(bytes: &[u8]) -> bool
    ensures { result ≡ list_all is_of_register bytes.now }
{
    bytes.iter().all(|byte| is_of_register(*byte))
}

/// Whether a token is a register: a letter and at most 15 letters, digits or `_`. `null` is none.
pub(crate) fn is_register(token: &[u8]) -> bool
    ensures { result ≡ is_register token.now }
{
    match token {
        [] => false,
        [first, rest @ ..] => {
            (b'a' <= *first && *first <= b'z')
                && rest.len() <= MOST_MORE
                && are_of_register(rest)
                && token != b"null".as_slice()
        }
    }
}

// The number of `a0`, `a1` and so on.
fn argument_number(token: &[u8]) -> Option<u64>
    ensures { result ≡ argument_number token.now }
{
    match token {
        [b'a', digits @ ..] => read_number(digits),
        _ => None,
    }
}

/// The register of a token.
pub(crate) fn register_of(alloc: Global, token: &[u8]) -> Result<Register, NoMemory>
    ensures { IfOk result (λ register. register ≡ register_of token.now) }
{
    if token == b"type".as_slice() {
        return Ok(Register::SiteType);
    }
    if token == b"name".as_slice() {
        return Ok(Register::SiteName);
    }
    if let Some(number) = argument_number(token) {
        return Ok(Register::Argument(number));
    }
    Ok(Register::Assigned(Seq::copy_of(alloc, token)?))
}

// Whether a register is there before any line.
fn is_given(token: &[u8]) -> bool
    ensures { result ≡ is_given token.now }
{
    token == b"type".as_slice() || token == b"name".as_slice() || argument_number(token).is_some()
}

/// Whether a line may assign to a token.
pub(crate) fn is_assignable(token: &[u8]) -> bool
    ensures { result ≡ is_assignable token.now }
{
    is_register(token) && !is_given(token)
}

// What a register holds after one more line.
fn sort_after(name: &[u8], before: Option<Sort>, step: &Step) -> Option<Sort>
    ensures { result ≡ sort_after name.now before step.now }
{
    match step {
        Step::Let(target, _) => {
            if target.as_slice() == name {
                Some(Sort::Handle)
            } else {
                before
            }
        }
        Step::Serial(target) => {
            if target.as_slice() == name {
                Some(Sort::Value)
            } else {
                before
            }
        }
        Step::FailMod { .. } => before,
    }
}

// What lines have assigned to a register, the latest of them.
fn assigned_sort(steps: &[Step], name: &[u8]) -> Option<Sort>
    ensures { result ≡ assigned_sort steps.now name.now }
{
    let mut sort = None;
    for step in steps {
        sort = sort_after(name, sort, step);
    }
    sort
}

/// What a register holds that is no static argument, if it holds anything.
pub(crate) fn sort_in(steps: &[Step], name: &[u8]) -> Option<Sort>
    ensures { result ≡ sort_in steps.now name.now }
{
    if name == b"type".as_slice() {
        Some(Sort::MethodType)
    } else if name == b"name".as_slice() {
        Some(Sort::Value)
    } else {
        assigned_sort(steps, name)
    }
}

/// Whether a register is a static argument.
pub(crate) fn is_argument(token: &[u8]) -> bool
    ensures { result ≡ is_some (argument_number token.now) }
{
    argument_number(token).is_some()
}

fn if_operand(value: Value) -> Option<Value>
    ensures { result ≡ if_operand value }
{
    match value {
        Value::Boxed(number) => Some(Value::Boxed(number)),
        Value::Text(text) => Some(Value::Text(text)),
        Value::Null => Some(Value::Null),
        _ => None,
    }
}

/// The boxed number, the text or the `null` that a token writes. No class is looked up for them.
pub(crate) fn operand_literal(
    alloc: Global,
    classes: &Classes,
    token: &[u8],
) -> Result<Option<Value>, NoMemory>
    ensures { IfOk result (λ value. value ≡ operand_literal classes.now token.now) }
{
    match read_literal(alloc, token, classes) {
        Ok(value) => Ok(if_operand(value)),
        Err(LiteralError::NoMemory) => Err(NoMemory),
        Err(LiteralError::Bad) => Ok(None),
    }
}

fn if_text(value: Value) -> Option<Str>
    ensures { result ≡ if_text value }
{
    match value {
        Value::Text(text) => Some(text),
        _ => None,
    }
}

/// The text that a token `s:TEXT` writes.
pub(crate) fn text_literal(
    alloc: Global,
    classes: &Classes,
    token: &[u8],
) -> Result<Option<Str>, NoMemory>
    ensures { IfOk result (λ text. text ≡ text_literal classes.now token.now) }
{
    match read_literal(alloc, token, classes) {
        Ok(value) => Ok(if_text(value)),
        Err(LiteralError::NoMemory) => Err(NoMemory),
        Err(LiteralError::Bad) => Ok(None),
    }
}

/// Whether a token has a colon.
pub(crate) fn has_colon(token: &[u8]) -> bool
    ensures { result ≡ has_colon token.now }
{
    token.iter().any(|byte| *byte == b':')
}
