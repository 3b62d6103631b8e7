ghost use Rattle.std.specs.Prelude.{◌≡◌, ◌≤◌, ◌++◌, length, option_copied, sum_by, IfOk, pos};
ghost use Rattle.mh_values.specs.ValueLimits.{most_characters};
ghost use Rattle.mh_leaf.specs.Outcome.{characters_of, joined, text, units_of, measured};

use mh_base::{Frozen, NoMemory, Seq};
use mh_values::{ClassId, Exc, MOST_CHARACTERS, Num, Outcome, Value};
use std::alloc::Global;

const NULL_TEXT: [char; 4] = ['n', 'u', 'l', 'l'];

/// The characters of a text, or of the word `null`; nothing else has any.
fn characters_of(value: &Value) -> Option<&[char]>
    ensures { option_copied result ≡ characters_of value.now }
{
    match value {
        Value::Text(text) => Some(text.as_slice()),
        Value::Null => Some(&NULL_TEXT),
        _ => None,
    }
}

/// Two texts joined, if the whole is not too long for a text.
fn text(alloc: Global, front: &[char], back: &[char]) -> Result<Outcome, NoMemory>
    ensures { IfOk result (λ outcome. outcome ≡ text (front.now ++ back.now)) }
{
    if front.len() > MOST_CHARACTERS || back.len() > MOST_CHARACTERS - front.len() {
        let refusal = Exc::saying(alloc, ClassId::INTERNAL_ERROR, b"string too long")?;
        return Ok(Outcome::Throw(refusal));
    }
    let mut chars = Vec::with_capacity(alloc, front.len() + back.len())?;
    chars.extend_from_slice(front)?;
    chars.extend_from_slice(back)?;
    let text = Frozen::of(alloc, Seq::from_vec(chars))?;
    Ok(Outcome::Return(Some(Value::Text(text))))
}

/// `concat`: the texts of two arguments joined.
pub fn joined(alloc: Global, first: &Value, second: &Value) -> Result<Outcome, NoMemory>
    ensures { IfOk result
        (λ outcome. outcome ≡ joined (characters_of first.now) (characters_of second.now)) }
{
    let (Some(front), Some(back)) = (characters_of(first), characters_of(second)) else {
        return Ok(Outcome::Throw(Exc::bare(ClassId::CLASS_CAST)));
    };
    text(alloc, front, back)
}

/// How many UTF-16 units a character takes.
fn units_of(character: char) -> u32
    ensures { result ≡ units_of character }
{
    if u32::from(character) < 65536 { 1 } else { 2 }
}

/// The number of UTF-16 units of a text that is not too long for a value.
fn units(text: &[char]) -> i32
    requires { length text.now ≤ most_characters }
    ensures { result ≡ pos (sum_by units_of text.now) }
{
    let mut units = 0u32;
    for character in text {
        units += units_of(*character);
    }
    units as i32
}

/// The number of UTF-16 units as an outcome.
fn measured_text(text: &[char]) -> Option<Outcome>
    ensures { result ≡ measured (Value.Text text.now) }
{
    if text.len() > MOST_CHARACTERS {
        return None;
    }
    Some(Outcome::Return(Some(Value::Prim(Num::I(units(text))))))
}

/// `length`: the number of UTF-16 units of the argument; `None` of a text that is too long for a
/// value.
pub fn measured(value: &Value) -> Option<Outcome>
    ensures { result ≡ measured value.now }
{
    match value {
        Value::Text(text) => measured_text(text.as_slice()),
        Value::Null => Some(Outcome::Throw(Exc::bare(ClassId::NULL_POINTER))),
        _ => Some(Outcome::Throw(Exc::bare(ClassId::CLASS_CAST))),
    }
}
