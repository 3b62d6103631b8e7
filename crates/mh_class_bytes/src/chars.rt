ghost use Rattle.std.specs.Prelude.{◌≡◌, ◌<◌, ◌≤◌, ◌^◌, length, IfOk, IsTrue, Some};
ghost use Rattle.mh_class_bytes.specs.Mutf8.{unit_len};
ghost use Rattle.mh_class_bytes.specs.Chars.{unit_value, as_char, pair_value, is_high, is_low, first_char, first_len};
ghost use Rattle.mh_class_bytes.specs.Chars.{spelled, IfLone, IsLoneAt, Decodes, chars_of, IsShownAs, shown_text};

use crate::text::{Text, unit_len};
use mh_base::NoMemory;
use std::alloc::{AllocFailed, Global};

/// Why a text has no characters to hand out.
#[derive(Clone, Copy, Debug, PartialEq, Eq)]
pub enum CharsError {
    NoMemory,
    /// A half of a pair has no partner: the first byte of its spelling.
    LoneSurrogate { at: usize },
}

impl<T: Drop> From<AllocFailed<T>> for CharsError {
    ghost use Rattle.mh_class_bytes.specs.declared.chars.CharsError.TheVariants.{NoMemory};

    ghost from_gives = { λ _ e. e ≡ NoMemory };

    fn from(_: AllocFailed<T>) -> CharsError {
        CharsError::NoMemory
    }
}

/// What a text begins with: a character, or none at a half of a pair without a partner.
#[derive(Clone, Copy)]
struct First {
    char: Option<char>,
    /// How many bytes it takes.
    len: usize,
}

/// The unit that the first `len` bytes spell.
fn unit_value(bytes: &[u8], len: usize) -> u32
    requires some { 0 < len }
    requires at_most { len < 4 }
    requires within { len ≤ length bytes.now }
    ensures value { result ≡ unit_value len bytes.now }
    ensures small { result < 2 ^ 18 }
{
    let first = bytes[0] as u32;
    match len {
        1 => first,
        2 => 64 * first.saturating_sub(0xC0) + (bytes[1] as u32).saturating_sub(0x80),
        _ => {
            let second = (bytes[1] as u32).saturating_sub(0x80);
            let third = (bytes[2] as u32).saturating_sub(0x80);
            4096 * first.saturating_sub(0xE0) + 64 * second + third
        }
    }
}

fn is_high(unit: u32) -> bool
    ensures { result ≡ is_high unit }
{
    0xD800 <= unit && unit < 0xDC00
}

fn is_low(unit: u32) -> bool
    ensures { result ≡ is_low unit }
{
    0xDC00 <= unit && unit < 0xE000
}

fn as_char(unit: u32) -> Option<char>
    requires { unit < 2 ^ 18 }
    ensures { result ≡ as_char unit }
{
    char::from_u32(unit)
}

fn joined(high: u32, low: u32) -> Option<char>
    requires high { IsTrue (is_high high) }
    requires low { IsTrue (is_low low) }
    ensures { result ≡ Some (pair_value high low) }
{
    char::from_u32(0x1_0000 + 1024 * (high - 0xD800) + (low - 0xDC00))
}

#[tactic(auto, unfolding(crate::specs::Chars::first_char, crate::specs::Chars::first_len))]
fn read_first(bytes: &[u8]) -> First
    requires { 0 < unit_len bytes.now }
    ensures char { result.char ≡ first_char bytes.now }
    ensures len { result.len ≡ first_len bytes.now }
{
    let len = unit_len(bytes);
    let unit = unit_value(bytes, len);
    let (_, rest) = bytes.split_at(len);
    let low_len = unit_len(rest);
    if is_high(unit) && 0 < low_len {
        let low = unit_value(rest, low_len);
        if is_low(low) {
            return First {
                char: joined(unit, low),
                len: len + low_len,
            };
        }
    }
    First {
        char: as_char(unit),
        len,
    }
}

impl<'b> Text<'b> {
    /// The characters of the text. `LoneSurrogate` has the place of the first half of a pair
    /// without a partner. If there is none, the text has characters.
    pub fn chars(&self, alloc: Global) -> Result<Vec<char>, CharsError>
        ensures ok { IfOk result (λ v. self.now ≡ spelled v.items) }
        ensures lone { IfLone result (IsLoneAt self.now) }

        // The same by computation.
        ensures exact { Decodes (λ v. v.items) result (chars_of self.now) }
    {
        let bytes = self.bytes();
        let mut chars = Vec::new(alloc);
        let mut at: usize = 0;
        while at < bytes.len() {
            let (_, rest) = bytes.split_at(at);
            let first = read_first(rest);
            let Some(char) = first.char else {
                return Err(CharsError::LoneSurrogate { at });
            };
            chars.push(char)?;
            at += first.len;
        }
        Ok(chars)
    }

    /// The characters of the text as they are shown, with U+FFFD for each half of a pair without a
    /// partner.
    pub fn shown(&self, alloc: Global) -> Result<Vec<char>, NoMemory>
        ensures ok { IfOk result (λ v. IsShownAs self.now v.items) }
        ensures exact { IfOk result (λ v. v.items ≡ shown_text self.now) }
    {
        let bytes = self.bytes();
        let mut chars = Vec::new(alloc);
        let mut at: usize = 0;
        while at < bytes.len() {
            let (_, rest) = bytes.split_at(at);
            let first = read_first(rest);
            chars.push(first.char.unwrap_or('\u{FFFD}'))?;
            at += first.len;
        }
        Ok(chars)
    }
}
