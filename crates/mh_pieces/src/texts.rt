//! The texts of values, written at the end of other characters.

ghost use Rattle.std.specs.Prelude.{◌≡◌, ◌++◌, ◌<◌, false, map, OnOk, IfOk};
ghost use Rattle.std.specs.Fmt.{digit_glyph};
ghost use Rattle.mh_values.specs.TypeText.{component_written};
ghost use Rattle.mh_pieces.specs.ValueText.{bool_text, char_of, number_text, dotted_char, dotted_name, hexadecimal, object_text, message_text, thrown_text, array_text, text_of};

use crate::lengths::text_length;
use itoa::{Buffer, Integer};
use mh_base::{Frozen, NoMemory, Seq};
use mh_values::{ClassId, Classes, Comp, Exc, Num, Str, Value};
use std::alloc::Global;

/// The character that is written for a half of a surrogate pair.
const REPLACEMENT: char = '\u{FFFD}';

/// Writes ASCII characters.
fn push_ascii(chars: &mut Vec<char>, text: &[u8]) -> Result<(), NoMemory>
    ensures { OnOk result (chars.new.items ≡ chars.old.items ++ text.now) }
{
    for byte in text {
        chars.push(char::from(*byte))?;
    }
    Ok(())
}

/// Writes characters at the end of others. If no memory is left, some of them may have been
/// written.
#[inline]
pub fn push_chars(chars: &mut Vec<char>, text: &[char]) -> Result<(), NoMemory>
    ensures { OnOk result (chars.new.items ≡ chars.old.items ++ text.now) }
{
    chars.extend_from_slice(text)?;
    Ok(())
}

fn push_bool(chars: &mut Vec<char>, truth: bool) -> Result<(), NoMemory>
    ensures { OnOk result (chars.new.items ≡ chars.old.items ++ bool_text truth) }
{
    if truth {
        push_ascii(chars, b"true")
    } else {
        push_ascii(chars, b"false")
    }
}

/// The character of a UTF-16 unit.
fn char_of(unit: u16) -> char
    ensures { result ≡ char_of unit }
{
    match char::from_u32(u32::from(unit)) {
        Some(character) => character,
        None => REPLACEMENT,
    }
}

/// Writes a number in decimal.
fn push_decimal<I: Integer>(chars: &mut Vec<char>, number: I) -> Result<(), NoMemory>
    ensures { OnOk result (chars.new.items ≡ chars.old.items ++ I.text number) }
{
    let mut buffer = Buffer::new();
    push_ascii(chars, buffer.format(number).as_bytes())
}

fn push_number(chars: &mut Vec<char>, number: Num) -> Result<(), NoMemory>
    ensures { OnOk result (chars.new.items ≡ chars.old.items ++ number_text number) }
{
    match number {
        Num::Z(truth) => push_bool(chars, truth),
        Num::C(unit) => push_chars(chars, &[char_of(unit)]),
        Num::B(number) => push_decimal(chars, i32::from(number)),
        Num::S(number) => push_decimal(chars, i32::from(number)),
        Num::I(number) => push_decimal(chars, number),
        Num::J(number) => push_decimal(chars, number),
    }
}

/// A hexadecimal digit.
fn digit(value: u32) -> u8
    requires { value < 16 }
    ensures { result ≡ digit_glyph false value }
{
    if value < 10 {
        48 + value as u8
    } else {
        87 + value as u8
    }
}

/// Writes a number in hexadecimal.
#[tactic(auto, using(crate::proofs::Hexadecimal::hexadecimal_one))]
fn push_hexadecimal(chars: &mut Vec<char>, number: u32) -> Result<(), NoMemory>
    ensures { OnOk result (chars.new.items ≡ chars.old.items ++ hexadecimal number) }
{
    if number < 16 {
        return push_ascii(chars, &[digit(number)]);
    }
    push_hexadecimal(chars, number / 16)?;
    push_ascii(chars, &[digit(number % 16)])
}

/// A character of a class name, with a dot for a slash.
fn dotted_char(byte: u8) -> u8
    ensures { result ≡ dotted_char byte }
{
    if byte == b'/' { b'.' } else { byte }
}

/// Writes a name, with dots for slashes.
fn push_dotted(chars: &mut Vec<char>, name: &[u8]) -> Result<(), NoMemory>
    ensures { OnOk result (chars.new.items ≡ chars.old.items ++ map dotted_char name.now) }
{
    for byte in name {
        chars.push(char::from(dotted_char(*byte)))?;
    }
    Ok(())
}

/// Writes the name of a class, with dots for slashes.
fn push_name(chars: &mut Vec<char>, class: ClassId, classes: &Classes) -> Result<(), NoMemory>
    ensures { OnOk result (chars.new.items ≡ chars.old.items ++ dotted_name classes.now class) }
{
    push_dotted(chars, classes.name(class))
}

fn push_object(
    chars: &mut Vec<char>,
    class: ClassId,
    number: u32,
    classes: &Classes,
) -> Result<(), NoMemory>
    ensures { OnOk result (chars.new.items
        ≡ chars.old.items ++ object_text classes.now class number) }
{
    push_name(chars, class, classes)?;
    push_ascii(chars, b"@")?;
    push_hexadecimal(chars, number)
}

fn push_message(chars: &mut Vec<char>, message: &[char]) -> Result<(), NoMemory>
    ensures { OnOk result (chars.new.items ≡ chars.old.items ++ message_text message.now) }
{
    match message {
        [] => Ok(()),
        _ => {
            push_ascii(chars, b": ")?;
            push_chars(chars, message)
        }
    }
}

fn push_thrown(chars: &mut Vec<char>, exc: &Exc, classes: &Classes) -> Result<(), NoMemory>
    ensures { OnOk result (chars.new.items ≡ chars.old.items ++ thrown_text classes.now exc.now) }
{
    push_name(chars, exc.class(), classes)?;
    push_message(chars, exc.message())
}

fn push_component(chars: &mut Vec<char>, component: Comp, classes: &Classes) -> Result<(), NoMemory>
    ensures { OnOk result (chars.new.items
        ≡ chars.old.items ++ component_written (dotted_name classes.now) component) }
{
    match component {
        Comp::Prim(primitive) => push_ascii(chars, &[primitive.letter()]),
        Comp::Class(class) => {
            push_ascii(chars, b"L")?;
            push_name(chars, class, classes)?;
            push_ascii(chars, b";")
        }
    }
}

fn push_array(chars: &mut Vec<char>, component: Comp, classes: &Classes) -> Result<(), NoMemory>
    ensures { OnOk result (chars.new.items
        ≡ chars.old.items ++ array_text classes.now component) }
{
    push_ascii(chars, b"[")?;
    push_component(chars, component, classes)?;
    push_ascii(chars, b"@0")
}

/// Writes the text of a value at the end of other characters, as `String.valueOf` makes it. If no
/// memory is left, a part of it may have been written.
#[inline]
pub fn push_text(chars: &mut Vec<char>, value: &Value, classes: &Classes) -> Result<(), NoMemory>
    ensures { OnOk result (chars.new.items ≡ chars.old.items ++ text_of classes.now value.now) }
{
    match value {
        Value::Prim(number) => push_number(chars, *number),
        Value::Boxed(number) => push_number(chars, *number),
        Value::Text(text) => push_chars(chars, text.as_slice()),
        Value::Object(class, number) => push_object(chars, *class, *number, classes),
        Value::Thrown(exc) => push_thrown(chars, exc, classes),
        Value::Array(component, _) => push_array(chars, *component, classes),
        Value::Null => push_ascii(chars, b"null"),
    }
}

/// The characters of a value's text, in memory of their own.
fn made_text(alloc: Global, value: &Value, classes: &Classes) -> Result<Str, NoMemory>
    ensures { IfOk result (λ text. text ≡ text_of classes.now value.now) }
{
    let mut chars = Vec::with_capacity(alloc, text_length(value, classes))?;
    push_text(&mut chars, value, classes)?;
    Frozen::of(alloc, Seq::from_vec(chars))
}

/// The text of a value. That of a text shares its characters.
pub(crate) fn text_of(alloc: Global, value: &Value, classes: &Classes) -> Result<Str, NoMemory>
    ensures { IfOk result (λ text. text ≡ text_of classes.now value.now) }
{
    match value {
        Value::Text(text) => text.copy(),
        _ => made_text(alloc, value, classes),
    }
}
