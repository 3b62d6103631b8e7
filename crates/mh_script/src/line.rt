ghost use Rattle.std.specs.Prelude.{◌≡◌, map, IfOk};
ghost use Rattle.mh_base.specs.Lines.{TellsLine};
ghost use Rattle.mh_leaves.specs.Reference.{texts_of};
ghost use Rattle.mh_script.specs.Lines.{method_name, type_operand, method_type_operand, value_operand, numbered, with_count, bound, dropped, permuted, one_operation, two_operation, three_operation, fixed_operation, switch_operation, operation_of};
ghost use Rattle.mh_script.specs.Lines.{let_line, pair_line, ending_line, line_of};
ghost use Rattle.mh_script.specs.Tokens.{register_of};

use crate::form::{One, Three, Two, one_form, three_form, two_form};
use crate::number::{read_fail, read_order, read_small};
use crate::token::{is_register, operand_literal, register_of, text_literal};
use crate::{
    End, MethodName, MethodTypeOperand, Operation, Register, ScriptKind, Step, TypeOperand,
    ValueOperand,
};
use mh_base::{LineError, NoMemory, Seq};
use mh_leaves::{Reference, read_reference};
use mh_values::Classes;
use std::alloc::Global;

/// A line within a script.
#[derive(Drop)]
pub(crate) enum Line {
    /// A line before the last one.
    Step(Step),
    /// The last line.
    End(End),
}

/// The most cases of a switch after its first.
pub(crate) const MOST_OTHER_CASES: usize = 15;

/// What tokens say, or what is wrong with them.
type Said<T> = Result<T, LineError<ScriptKind>>;

/// The name of a method by its texts, which are copied.
pub(crate) fn method_name(alloc: Global, texts: Reference<'_>) -> Result<MethodName, NoMemory>
    ensures { IfOk result (λ method. method ≡ method_name (texts_of texts.entry)) }
{
    let owner = Seq::copy_of(alloc, texts.owner)?;
    let name = Seq::copy_of(alloc, texts.name)?;
    let descriptor = Seq::copy_of(alloc, texts.descriptor)?;
    Ok(MethodName {
        owner,
        name,
        descriptor,
    })
}

// T
fn type_operand(alloc: Global, token: &[u8]) -> Result<TypeOperand, NoMemory>
    ensures { IfOk result (λ operand. operand ≡ type_operand token.now) }
{
    if token == b"V".as_slice() {
        Ok(TypeOperand::Void)
    } else if is_register(token) {
        Ok(TypeOperand::Register(register_of(alloc, token)?))
    } else {
        Ok(TypeOperand::Descriptor(Seq::copy_of(alloc, token)?))
    }
}

// M
fn method_type_operand(alloc: Global, token: &[u8]) -> Result<MethodTypeOperand, NoMemory>
    ensures { IfOk result (λ operand. operand ≡ method_type_operand token.now) }
{
    if is_register(token) {
        Ok(MethodTypeOperand::Register(register_of(alloc, token)?))
    } else {
        Ok(MethodTypeOperand::Descriptor(Seq::copy_of(alloc, token)?))
    }
}

// V
fn value_operand(alloc: Global, classes: &Classes, token: &[u8]) -> Said<ValueOperand>
    ensures { TellsLine result (value_operand classes.now token.now) }
{
    if is_register(token) {
        return Ok(ValueOperand::Register(register_of(alloc, token)?));
    }
    let Some(value) = operand_literal(alloc, classes, token)? else {
        return Err(LineError::Kind(ScriptKind::BadLiteral));
    };
    Ok(ValueOperand::Literal(value))
}

// H P F
fn numbered(
    alloc: Global,
    target: &[u8],
    number: &[u8],
    other: &[u8],
) -> Said<(Register, u8, Register)>
    ensures { TellsLine result (numbered target.now number.now other.now) }
{
    let target = register_of(alloc, target)?;
    let Some(number) = read_small(number) else {
        return Err(LineError::Kind(ScriptKind::BadLine));
    };
    let other = register_of(alloc, other)?;
    Ok((target, number, other))
}

// H T N
fn with_count(
    alloc: Global,
    target: &[u8],
    array: &[u8],
    count: &[u8],
) -> Said<(Register, TypeOperand, u8)>
    ensures { TellsLine result (with_count target.now array.now count.now) }
{
    let target = register_of(alloc, target)?;
    let array = type_operand(alloc, array)?;
    let Some(count) = read_small(count) else {
        return Err(LineError::Kind(ScriptKind::BadLine));
    };
    Ok((target, array, count))
}

// H P V
fn bound(
    alloc: Global,
    classes: &Classes,
    target: &[u8],
    number: &[u8],
    value: &[u8],
) -> Said<Operation>
    ensures { TellsLine result (bound classes.now target.now number.now value.now) }
{
    let target = register_of(alloc, target)?;
    let Some(number) = read_small(number) else {
        return Err(LineError::Kind(ScriptKind::BadLine));
    };
    let value = value_operand(alloc, classes, value)?;
    Ok(Operation::Bind(target, number, value))
}

// H P TYPES
fn dropped(alloc: Global, target: &[u8], number: &[u8], types: &[u8]) -> Said<Operation>
    ensures { TellsLine result (dropped target.now number.now types.now) }
{
    let target = register_of(alloc, target)?;
    let Some(number) = read_small(number) else {
        return Err(LineError::Kind(ScriptKind::BadLine));
    };
    let types = Seq::copy_of(alloc, types)?;
    Ok(Operation::Drop(target, number, types))
}

// H M ORDER
fn permuted(alloc: Global, target: &[u8], ty: &[u8], order: &[u8]) -> Said<Operation>
    ensures { TellsLine result (permuted target.now ty.now order.now) }
{
    let target = register_of(alloc, target)?;
    let ty = method_type_operand(alloc, ty)?;
    let Some(order) = read_order(alloc, order)? else {
        return Err(LineError::Kind(ScriptKind::BadLine));
    };
    Ok(Operation::Permute(target, ty, order))
}

// The operation of a word with one operand.
fn one_operation(alloc: Global, form: One, operand: &[u8]) -> Said<Operation>
    ensures { TellsLine result (one_operation form operand.now) }
{
    match form {
        One::Leaf => {
            let Some(texts) = read_reference(operand) else {
                return Err(LineError::Kind(ScriptKind::BadLine));
            };
            Ok(Operation::Leaf(method_name(alloc, texts)?))
        }
        One::Identity => Ok(Operation::Identity(type_operand(alloc, operand)?)),
    }
}

// The operation of a word with two operands.
fn two_operation(
    alloc: Global,
    classes: &Classes,
    form: Two,
    first: &[u8],
    second: &[u8],
) -> Said<Operation>
    ensures { TellsLine result (two_operation classes.now form first.now second.now) }
{
    match form {
        Two::Constant => {
            let ty = type_operand(alloc, first)?;
            let value = value_operand(alloc, classes, second)?;
            Ok(Operation::Constant(ty, value))
        }
        Two::Throw => {
            let ty = type_operand(alloc, first)?;
            Ok(Operation::Throw(ty, Seq::copy_of(alloc, second)?))
        }
        Two::FilterReturn => {
            let target = register_of(alloc, first)?;
            let filter = register_of(alloc, second)?;
            Ok(Operation::FilterReturn(target, filter))
        }
        Two::AsType => {
            let target = register_of(alloc, first)?;
            let ty = method_type_operand(alloc, second)?;
            Ok(Operation::AsType(target, ty))
        }
        Two::Explicit => {
            let target = register_of(alloc, first)?;
            let ty = method_type_operand(alloc, second)?;
            Ok(Operation::Explicit(target, ty))
        }
        Two::TryFinally => {
            let target = register_of(alloc, first)?;
            let cleanup = register_of(alloc, second)?;
            Ok(Operation::TryFinally(target, cleanup))
        }
    }
}

// The operation of a word with three operands.
fn three_operation(
    alloc: Global,
    classes: &Classes,
    form: Three,
    operands: (&[u8], &[u8], &[u8]),
) -> Said<Operation>
    ensures { TellsLine result (three_operation classes.now form operands.entry.0.now
        operands.entry.1.now operands.entry.2.now) }
{
    let (first, second, third) = operands;
    match form {
        Three::Bind => bound(alloc, classes, first, second, third),
        Three::Drop => dropped(alloc, first, second, third),
        Three::Permute => permuted(alloc, first, second, third),
        Three::Filter => {
            let (target, position, filter) = numbered(alloc, first, second, third)?;
            Ok(Operation::Filter(target, position, filter))
        }
        Three::Fold => {
            let (target, position, combiner) = numbered(alloc, first, second, third)?;
            Ok(Operation::Fold(target, position, combiner))
        }
        Three::Collect => {
            let (target, position, filter) = numbered(alloc, first, second, third)?;
            Ok(Operation::Collect(target, position, filter))
        }
        Three::Spread => {
            let (target, array, count) = with_count(alloc, first, second, third)?;
            Ok(Operation::Spread(target, array, count))
        }
        Three::Gather => {
            let (target, array, count) = with_count(alloc, first, second, third)?;
            Ok(Operation::Gather(target, array, count))
        }
        Three::Guard => {
            let test = register_of(alloc, first)?;
            let target = register_of(alloc, second)?;
            let fallback = register_of(alloc, third)?;
            Ok(Operation::Guard(test, target, fallback))
        }
        Three::Catch => {
            let target = register_of(alloc, first)?;
            let class = Seq::copy_of(alloc, second)?;
            let handler = register_of(alloc, third)?;
            Ok(Operation::Catch(target, class, handler))
        }
        Three::Counted => {
            let iterations = register_of(alloc, first)?;
            let init = register_of(alloc, second)?;
            let body = register_of(alloc, third)?;
            Ok(Operation::Counted(iterations, init, body))
        }
    }
}

// The operation of a word that takes a fixed number of operands.
fn fixed_operation(
    alloc: Global,
    classes: &Classes,
    word: &[u8],
    operands: &[&[u8]],
) -> Said<Operation>
    ensures { TellsLine result
        (fixed_operation classes.now word.now (map (λ t. t.now) operands.now)) }
{
    match operands {
        [first] => match one_form(word) {
            Some(form) => one_operation(alloc, form, first),
            None => Err(LineError::Kind(ScriptKind::BadLine)),
        },
        [first, second] => match two_form(word) {
            Some(form) => two_operation(alloc, classes, form, first, second),
            None => Err(LineError::Kind(ScriptKind::BadLine)),
        },
        [first, second, third] => match three_form(word) {
            Some(form) => three_operation(alloc, classes, form, (*first, *second, *third)),
            None => Err(LineError::Kind(ScriptKind::BadLine)),
        },
        _ => Err(LineError::Kind(ScriptKind::BadLine)),
    }
}

// The registers of these tokens.
fn registers_of(alloc: Global, tokens: &[&[u8]]) -> Result<Seq<Register>, NoMemory>
    ensures { IfOk result (λ registers. registers ≡ map register_of (map (λ t. t.now) tokens.now)) }
{
    let mut registers = Seq::new(alloc);
    for token in tokens {
        registers.push(register_of(alloc, token)?)?;
    }
    Ok(registers)
}

// `switch H H ..`
fn switch_operation(alloc: Global, operands: &[&[u8]]) -> Said<Operation>
    ensures { TellsLine result (switch_operation (map (λ t. t.now) operands.now)) }
{
    let [fallback, cases @ ..] = operands else {
        return Err(LineError::Kind(ScriptKind::BadLine));
    };
    let [_, others @ ..] = cases else {
        return Err(LineError::Kind(ScriptKind::BadLine));
    };
    if others.len() > MOST_OTHER_CASES {
        return Err(LineError::Kind(ScriptKind::BadLine));
    }
    let fallback = register_of(alloc, fallback)?;
    let cases = registers_of(alloc, cases)?;
    Ok(Operation::Switch(fallback, cases))
}

// The operation of a word and its operands.
fn operation_of(
    alloc: Global,
    classes: &Classes,
    word: &[u8],
    operands: &[&[u8]],
) -> Said<Operation>
    ensures { TellsLine result
        (operation_of classes.now word.now (map (λ t. t.now) operands.now)) }
{
    if word == b"switch".as_slice() {
        switch_operation(alloc, operands)
    } else {
        fixed_operation(alloc, classes, word, operands)
    }
}

// `let R OP`
fn let_line(
    alloc: Global,
    classes: &Classes,
    target: &[u8],
    word: &[u8],
    operands: &[&[u8]],
) -> Said<Line>
    ensures { TellsLine result
        (let_line classes.now target.now word.now (map (λ t. t.now) operands.now)) }
{
    let target = Seq::copy_of(alloc, target)?;
    if operands.is_empty() {
        return Ok(Line::Step(Step::Serial(target)));
    }
    let operation = operation_of(alloc, classes, word, operands)?;
    Ok(Line::Step(Step::Let(target, operation)))
}

// `failmod K R`, or `raise C s:TEXT`
fn pair_line(
    alloc: Global,
    classes: &Classes,
    word: &[u8],
    first: &[u8],
    second: &[u8],
) -> Said<Line>
    ensures { TellsLine result (pair_line classes.now word.now first.now second.now) }
{
    if word == b"failmod".as_slice() {
        let Some(step) = read_fail(first, second) else {
            return Err(LineError::Kind(ScriptKind::BadLine));
        };
        return Ok(Line::Step(step));
    }
    let Some(message) = text_literal(alloc, classes, second)? else {
        return Err(LineError::Kind(ScriptKind::BadLiteral));
    };
    let class = Seq::copy_of(alloc, first)?;
    Ok(Line::End(End::Raise { class, message }))
}

// `return H`, or `value V`
fn ending_line(alloc: Global, classes: &Classes, word: &[u8], operand: &[u8]) -> Said<Line>
    ensures { TellsLine result (ending_line classes.now word.now operand.now) }
{
    if word == b"return".as_slice() {
        return Ok(Line::End(End::Return(register_of(alloc, operand)?)));
    }
    let value = value_operand(alloc, classes, operand)?;
    Ok(Line::End(End::Value(value)))
}

/// What the tokens of a line within a script say that has no fault.
pub(crate) fn line_of(alloc: Global, classes: &Classes, tokens: &[&[u8]]) -> Said<Line>
    ensures { TellsLine result (line_of classes.now (map (λ t. t.now) tokens.now)) }
{
    match tokens {
        [word, operand] => ending_line(alloc, classes, word, operand),
        [word, first, second, rest @ ..] => {
            if *word == b"let".as_slice() {
                let_line(alloc, classes, first, second, rest)
            } else {
                pair_line(alloc, classes, word, first, second)
            }
        }
        _ => Err(LineError::Kind(ScriptKind::BadLine)),
    }
}
