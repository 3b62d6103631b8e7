ghost use Rattle.std.specs.Prelude.{◌≡◌};
ghost use Rattle.mh_texts.specs.Literal.{TellsLiteral};
ghost use Rattle.mh_texts.specs.Characters.{is_graphic};
ghost use Rattle.mh_texts.specs.Escapes.{hex_value, after_backslash, one_digit_more, within_braces, step, text_of};

use crate::LiteralError;
use mh_base::{Frozen, Seq};
use mh_values::{MOST_CHARACTERS, Str};
use std::alloc::Global;

/// How far an escape was read in a text.
#[derive(Clone, Copy)]
pub(crate) enum Escape {
    /// No escape is begun.
    Outside,
    /// After `\`.
    Backslash,
    /// After `\u`.
    Code,
    /// After `\u{` and this many digits of a number.
    Digits(u8, u32),
}

/// Whether a character other than a backslash stands for itself.
pub(crate) fn is_graphic(byte: u8) -> bool
    ensures { result ≡ is_graphic byte }
{
    0x21 <= byte && byte <= 0x7E
}

/// The value of a lower-case hexadecimal digit.
fn hex_value(byte: u8) -> Option<u32>
    ensures { result ≡ hex_value byte }
{
    match byte {
        b'0'..=b'9' => Some(u32::from(byte - b'0')),
        b'a'..=b'f' => Some(u32::from(byte - 87)),
        _ => None,
    }
}

/// What follows a backslash.
fn after_backslash(byte: u8) -> Option<(Escape, Option<char>)>
    ensures { result ≡ after_backslash byte }
{
    match byte {
        b's' => Some((Escape::Outside, Some(' '))),
        b'c' => Some((Escape::Outside, Some(','))),
        b'n' => Some((Escape::Outside, Some('\n'))),
        b'\\' => Some((Escape::Outside, Some('\\'))),
        b'u' => Some((Escape::Code, None)),
        _ => None,
    }
}

/// One digit more of a character's number.
fn one_digit_more(count: u8, value: u32, digit: u32) -> Option<(Escape, Option<char>)>
    ensures { result ≡ one_digit_more count value digit }
{
    let value = value.checked_mul(16)?.checked_add(digit)?;
    if count < 6 && value <= 0x10FFFF {
        Some((Escape::Digits(count + 1, value), None))
    } else {
        None
    }
}

/// What is within the braces of `\u{..}`.
fn within_braces(count: u8, value: u32, byte: u8) -> Option<(Escape, Option<char>)>
    ensures { result ≡ within_braces count value byte }
{
    if byte == b'}' {
        if count > 0 {
            let read = char::from_u32(value)?;
            Some((Escape::Outside, Some(read)))
        } else {
            None
        }
    } else {
        one_digit_more(count, value, hex_value(byte)?)
    }
}

impl Escape {
    /// One byte more of a text: what then goes on, and the character that it ends.
    fn step(self, byte: u8) -> Option<(Escape, Option<char>)>
        ensures { result ≡ step self byte }
    {
        match self {
            Escape::Outside if byte == b'\\' => Some((Escape::Backslash, None)),
            Escape::Outside if is_graphic(byte) => Some((Escape::Outside, Some(char::from(byte)))),
            Escape::Outside => None,
            Escape::Backslash => after_backslash(byte),
            Escape::Code if byte == b'{' => Some((Escape::Digits(0, 0), None)),
            Escape::Code => None,
            Escape::Digits(count, value) => within_braces(count, value, byte),
        }
    }
}

/// The characters that a text with escapes writes.
pub(crate) fn read_text(alloc: Global, bytes: &[u8]) -> Result<Str, LiteralError>
    ensures { TellsLiteral result (text_of bytes.now) }
{
    let mut text = Seq::new(alloc);
    let mut escape = Escape::Outside;
    for byte in bytes {
        let Some((next, read)) = escape.step(*byte) else {
            return Err(LiteralError::Bad);
        };
        if let Some(character) = read {
            text.push(character)?;
        }
        escape = next;
    }
    if matches!(escape, Escape::Outside) && text.len() <= MOST_CHARACTERS {
        Ok(Frozen::of(alloc, text)?)
    } else {
        Err(LiteralError::Bad)
    }
}
