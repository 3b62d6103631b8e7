//! How many characters the texts of values have, as far as 64 bits count them.

ghost use Rattle.std.specs.Prelude.{◌≡◌, ◌+◌, ◌-◌, ◌^◌, ◌≤◌, length, min};
ghost use Rattle.mh_values.specs.TypeText.{component_written};
ghost use Rattle.mh_pieces.specs.ValueText.{bool_text, number_text, dotted_name, hexadecimal, object_text, message_text, thrown_text, array_text, text_of};

use itoa::{Buffer, Integer};
use mh_values::{ClassId, Classes, Comp, Exc, Num, Value};

fn bool_length(truth: bool) -> usize
    ensures { result ≡ length (bool_text truth) }
{
    if truth { 4 } else { 5 }
}

/// The number of digits of a number, and its sign.
fn decimal_length<I: Integer>(number: I) -> usize
    ensures { result ≡ length (I.text number) }
{
    let mut buffer = Buffer::new();
    buffer.format(number).len()
}

fn number_length(number: Num) -> usize
    ensures { result ≡ length (number_text number) }
{
    match number {
        Num::Z(truth) => bool_length(truth),
        Num::C(_) => 1,
        Num::B(number) => decimal_length(i32::from(number)),
        Num::S(number) => decimal_length(i32::from(number)),
        Num::I(number) => decimal_length(number),
        Num::J(number) => decimal_length(number),
    }
}

/// The number of hexadecimal digits of a number.
#[tactic(auto, using(crate::proofs::Hexadecimal::length_steps))]
fn hexadecimal_length(number: u32) -> usize
    ensures is { result ≡ length (hexadecimal number) }
    ensures few { result ≤ number + 1 }
{
    if number < 16 {
        return 1;
    }
    hexadecimal_length(number / 16) + 1
}

fn name_length(class: ClassId, classes: &Classes) -> usize
    ensures { result ≡ length (dotted_name classes.now class) }
{
    classes.name(class).len()
}

fn object_length(class: ClassId, number: u32, classes: &Classes) -> usize
    ensures { result ≡ min (length (object_text classes.now class number)) (2 ^ 64 - 1) }
{
    name_length(class, classes)
        .saturating_add(1)
        .saturating_add(hexadecimal_length(number))
}

fn message_length(message: &[char]) -> usize
    ensures { result ≡ length (message_text message.now) }
{
    match message {
        [] => 0,
        _ => 2 + message.len(),
    }
}

fn thrown_length(exc: &Exc, classes: &Classes) -> usize
    ensures { result ≡ min (length (thrown_text classes.now exc.now)) (2 ^ 64 - 1) }
{
    name_length(exc.class(), classes).saturating_add(message_length(exc.message()))
}

fn component_length(component: Comp, classes: &Classes) -> usize
    ensures { result
        ≡ min (length (component_written (dotted_name classes.now) component)) (2 ^ 64 - 1) }
{
    match component {
        Comp::Prim(_) => 1,
        Comp::Class(class) => name_length(class, classes).saturating_add(2),
    }
}

fn array_length(component: Comp, classes: &Classes) -> usize
    ensures { result ≡ min (length (array_text classes.now component)) (2 ^ 64 - 1) }
{
    component_length(component, classes).saturating_add(3)
}

/// The number of characters of a value's text (`String.valueOf`), as far as 64 bits count them.
#[inline]
pub fn text_length(value: &Value, classes: &Classes) -> usize
    ensures { result ≡ min (length (text_of classes.now value.now)) (2 ^ 64 - 1) }
{
    match value {
        Value::Prim(number) => number_length(*number),
        Value::Boxed(number) => number_length(*number),
        Value::Text(text) => text.len(),
        Value::Object(class, number) => object_length(*class, *number, classes),
        Value::Thrown(exc) => thrown_length(exc, classes),
        Value::Array(component, _) => array_length(*component, classes),
        Value::Null => 4,
    }
}
