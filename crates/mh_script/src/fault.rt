ghost use Rattle.std.specs.Prelude.{◌≡◌, map, IfOk};
ghost use Rattle.mh_values.specs.Grammar.{descriptor_fault, type_fault, types_fault};
ghost use Rattle.mh_script.specs.Kinds.{fault_unless};
ghost use Rattle.mh_script.specs.Faults.{bad_descriptor, sort_fault, handle_fault, value_fault, type_operand_fault, method_type_fault, reference_fault, fault_in, two_fault, three_fault, fixed_fault, handles_fault, switch_fault, operands_fault, let_fault, pair_fault, ending_fault, body_fault};

use crate::form::{Place, Three, Two, one_form, three_form, two_form};
use crate::kinds::{fault_unless, lower};
use crate::line::MOST_OTHER_CASES;
use crate::number::{read_fail, read_order, read_small};
use crate::token::{
    Sort, has_colon, is_argument, is_assignable, is_register, operand_literal, sort_in,
    text_literal,
};
use crate::{ScriptKind, Step};
use mh_base::NoMemory;
use mh_leaves::{is_class_name, read_reference};
use mh_values::{Classes, descriptor_text, field_descriptor_text, types_text};
use std::alloc::Global;

/// What is wrong with a text that must be a method descriptor.
pub(crate) fn bad_method(text: &[u8]) -> Option<ScriptKind>
    ensures { result ≡ bad_descriptor (descriptor_fault text.now) }
{
    match descriptor_text(text) {
        Ok(()) => None,
        Err(_) => Some(ScriptKind::BadDescriptor),
    }
}

// What is wrong with a text that must be the descriptor of a type.
fn bad_type(text: &[u8]) -> Option<ScriptKind>
    ensures { result ≡ bad_descriptor (type_fault text.now) }
{
    match field_descriptor_text(text) {
        Ok(()) => None,
        Err(_) => Some(ScriptKind::BadDescriptor),
    }
}

// What is wrong with a text that must be descriptors of types, one after the other.
fn bad_types(text: &[u8]) -> Option<ScriptKind>
    ensures { result ≡ bad_descriptor (types_fault text.now) }
{
    match types_text(text) {
        Ok(()) => None,
        Err(_) => Some(ScriptKind::BadDescriptor),
    }
}

// What is wrong with a register that must hold a thing of this sort.
fn sort_fault(steps: &[Step], wanted: Sort, name: &[u8]) -> Option<ScriptKind>
    ensures { result ≡ sort_fault steps.now wanted name.now }
{
    if is_argument(name) {
        return None;
    }
    let Some(sort) = sort_in(steps, name) else {
        return Some(ScriptKind::Undefined);
    };
    fault_unless(sort == wanted, ScriptKind::WrongSort)
}

// What is wrong with H or F.
fn handle_fault(steps: &[Step], token: &[u8]) -> Option<ScriptKind>
    ensures { result ≡ handle_fault steps.now token.now }
{
    if is_register(token) {
        sort_fault(steps, Sort::Handle, token)
    } else {
        Some(ScriptKind::BadLine)
    }
}

// What is wrong with V.
fn value_fault(
    alloc: Global,
    classes: &Classes,
    steps: &[Step],
    token: &[u8],
) -> Result<Option<ScriptKind>, NoMemory>
    ensures { IfOk result (λ kind. kind ≡ value_fault classes.now steps.now token.now) }
{
    if is_register(token) {
        return Ok(sort_fault(steps, Sort::Value, token));
    }
    if operand_literal(alloc, classes, token)?.is_some() {
        return Ok(None);
    }
    if has_colon(token) {
        return Ok(Some(ScriptKind::BadLiteral));
    }
    Ok(Some(ScriptKind::BadLine))
}

// What is wrong with T.
fn type_operand_fault(steps: &[Step], token: &[u8]) -> Option<ScriptKind>
    ensures { result ≡ type_operand_fault steps.now token.now }
{
    if token == b"V".as_slice() {
        return None;
    }
    if is_register(token) {
        return sort_fault(steps, Sort::Class, token);
    }
    bad_type(token)
}

// What is wrong with M.
fn method_type_fault(steps: &[Step], token: &[u8]) -> Option<ScriptKind>
    ensures { result ≡ method_type_fault steps.now token.now }
{
    if is_register(token) {
        return sort_fault(steps, Sort::MethodType, token);
    }
    bad_method(token)
}

// What is wrong with REF.
fn reference_fault(token: &[u8]) -> Option<ScriptKind>
    ensures { result ≡ reference_fault token.now }
{
    let Some(texts) = read_reference(token) else {
        return Some(ScriptKind::BadLine);
    };
    bad_method(texts.descriptor)
}

// What is wrong with a token in its place.
fn fault_in(
    alloc: Global,
    classes: &Classes,
    steps: &[Step],
    place: Place,
    token: &[u8],
) -> Result<Option<ScriptKind>, NoMemory>
    ensures { IfOk result (λ kind. kind ≡ fault_in classes.now steps.now place token.now) }
{
    let fault = match place {
        Place::Handle => handle_fault(steps, token),
        Place::Value => value_fault(alloc, classes, steps, token)?,
        Place::Type => type_operand_fault(steps, token),
        Place::MethodType => method_type_fault(steps, token),
        Place::Types => bad_types(token),
        Place::Class => fault_unless(is_class_name(token), ScriptKind::BadLine),
        Place::Number => fault_unless(read_small(token).is_some(), ScriptKind::BadLine),
        Place::Order => { fault_unless(read_order(alloc, token)?.is_some(), ScriptKind::BadLine) }
        Place::Reference => reference_fault(token),
    };
    Ok(fault)
}

// What is wrong with two operands.
fn two_fault(
    alloc: Global,
    classes: &Classes,
    steps: &[Step],
    form: Two,
    operands: (&[u8], &[u8]),
) -> Result<Option<ScriptKind>, NoMemory>
    ensures { IfOk result (λ kind. kind
        ≡ two_fault classes.now steps.now form operands.entry.0.now operands.entry.1.now) }
{
    let (first, second) = form.places();
    let one = fault_in(alloc, classes, steps, first, operands.0)?;
    let other = fault_in(alloc, classes, steps, second, operands.1)?;
    Ok(lower(one, other))
}

// What is wrong with three operands.
fn three_fault(
    alloc: Global,
    classes: &Classes,
    steps: &[Step],
    form: Three,
    operands: (&[u8], &[u8], &[u8]),
) -> Result<Option<ScriptKind>, NoMemory>
    ensures { IfOk result (λ kind. kind ≡ three_fault classes.now steps.now form
        operands.entry.0.now operands.entry.1.now operands.entry.2.now) }
{
    let (first, second, third) = form.places();
    let one = fault_in(alloc, classes, steps, first, operands.0)?;
    let two = fault_in(alloc, classes, steps, second, operands.1)?;
    let three = fault_in(alloc, classes, steps, third, operands.2)?;
    Ok(lower(one, lower(two, three)))
}

// What is wrong with an operation whose word takes a fixed number of operands.
fn fixed_fault(
    alloc: Global,
    classes: &Classes,
    steps: &[Step],
    word: &[u8],
    operands: &[&[u8]],
) -> Result<Option<ScriptKind>, NoMemory>
    ensures { IfOk result (λ kind. kind ≡ fixed_fault classes.now steps.now word.now
        (map (λ t. t.now) operands.now)) }
{
    match operands {
        [] => Ok(fault_unless(word == b"serial".as_slice(), ScriptKind::BadLine)),
        [first] => match one_form(word) {
            Some(form) => fault_in(alloc, classes, steps, form.place(), first),
            None => Ok(Some(ScriptKind::BadLine)),
        },
        [first, second] => match two_form(word) {
            Some(form) => two_fault(alloc, classes, steps, form, (*first, *second)),
            None => Ok(Some(ScriptKind::BadLine)),
        },
        [first, second, third] => match three_form(word) {
            Some(form) => three_fault(alloc, classes, steps, form, (*first, *second, *third)),
            None => Ok(Some(ScriptKind::BadLine)),
        },
        _ => Ok(Some(ScriptKind::BadLine)),
    }
}

// What is wrong with tokens that must be registers with method handles.
fn handles_fault(steps: &[Step], tokens: &[&[u8]]) -> Option<ScriptKind>
    ensures { result ≡ handles_fault steps.now (map (λ t. t.now) tokens.now) }
{
    match tokens {
        [] => None,
        [token, tokens @ ..] => lower(handle_fault(steps, token), handles_fault(steps, tokens)),
    }
}

// What is wrong with a fallback and cases.
fn switch_fault(steps: &[Step], operands: &[&[u8]]) -> Option<ScriptKind>
    ensures { result ≡ switch_fault steps.now (map (λ t. t.now) operands.now) }
{
    let [_, cases @ ..] = operands else {
        return Some(ScriptKind::BadLine);
    };
    let [_, others @ ..] = cases else {
        return Some(ScriptKind::BadLine);
    };
    if others.len() > MOST_OTHER_CASES {
        return Some(ScriptKind::BadLine);
    }
    handles_fault(steps, operands)
}

// What is wrong with an operation and its operands.
fn operands_fault(
    alloc: Global,
    classes: &Classes,
    steps: &[Step],
    word: &[u8],
    operands: &[&[u8]],
) -> Result<Option<ScriptKind>, NoMemory>
    ensures { IfOk result (λ kind. kind ≡ operands_fault classes.now steps.now word.now
        (map (λ t. t.now) operands.now)) }
{
    if word == b"switch".as_slice() {
        Ok(switch_fault(steps, operands))
    } else {
        fixed_fault(alloc, classes, steps, word, operands)
    }
}

// What is wrong with what follows `let`.
fn let_fault(
    alloc: Global,
    classes: &Classes,
    steps: &[Step],
    assigned: (&[u8], &[u8]),
    operands: &[&[u8]],
) -> Result<Option<ScriptKind>, NoMemory>
    ensures { IfOk result (λ kind. kind ≡ let_fault classes.now steps.now assigned.entry.0.now
        assigned.entry.1.now (map (λ t. t.now) operands.now)) }
{
    let target = fault_unless(is_assignable(assigned.0), ScriptKind::BadLine);
    let operation = operands_fault(alloc, classes, steps, assigned.1, operands)?;
    Ok(lower(target, operation))
}

// What is wrong with a word and two tokens after it.
fn pair_fault(
    alloc: Global,
    classes: &Classes,
    word: &[u8],
    first: &[u8],
    second: &[u8],
) -> Result<Option<ScriptKind>, NoMemory>
    ensures { IfOk result (λ kind. kind
        ≡ pair_fault classes.now word.now first.now second.now) }
{
    if word == b"failmod".as_slice() {
        return Ok(fault_unless(read_fail(first, second).is_some(), ScriptKind::BadLine));
    }
    if word == b"raise".as_slice() {
        let class = fault_unless(is_class_name(first), ScriptKind::BadLine);
        let text = text_literal(alloc, classes, second)?;
        return Ok(lower(class, fault_unless(text.is_some(), ScriptKind::BadLiteral)));
    }
    Ok(Some(ScriptKind::BadLine))
}

// What is wrong with a word and a token after it.
fn ending_fault(
    alloc: Global,
    classes: &Classes,
    steps: &[Step],
    word: &[u8],
    operand: &[u8],
) -> Result<Option<ScriptKind>, NoMemory>
    ensures { IfOk result (λ kind. kind
        ≡ ending_fault classes.now steps.now word.now operand.now) }
{
    if word == b"return".as_slice() {
        return Ok(handle_fault(steps, operand));
    }
    if word == b"value".as_slice() {
        return value_fault(alloc, classes, steps, operand);
    }
    Ok(Some(ScriptKind::BadLine))
}

/// What is wrong with a line of a script by its tokens, after these lines.
pub(crate) fn body_fault(
    alloc: Global,
    classes: &Classes,
    steps: &[Step],
    tokens: &[&[u8]],
) -> Result<Option<ScriptKind>, NoMemory>
    ensures { IfOk result (λ kind. kind
        ≡ body_fault classes.now steps.now (map (λ t. t.now) tokens.now)) }
{
    match tokens {
        [word, operand] => ending_fault(alloc, classes, steps, word, operand),
        [word, first, second, rest @ ..] => {
            if *word == b"let".as_slice() {
                let_fault(alloc, classes, steps, (*first, *second), rest)
            } else if rest.is_empty() {
                pair_fault(alloc, classes, word, first, second)
            } else {
                Ok(Some(ScriptKind::BadLine))
            }
        }
        _ => Ok(Some(ScriptKind::BadLine)),
    }
}
