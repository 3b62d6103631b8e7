//! Where recipes part.

ghost use Rattle.std.specs.Prelude.{◌≡◌, ◌≤◌, ◌++◌, IfOk, OnOk, length, slice_get};
ghost use Rattle.std.specs.Option.{option_copied};
ghost use Rattle.std.specs.Str.{bytes_eq};
ghost use Rattle.mh_shown.specs.KeyText.{key_text};
ghost use Rattle.mh_drawing.specs.Why.{against_text, common, parting_text};

use crate::label::push;
use mh_base::NoMemory;
use mh_edit::Key;
use mh_shown::{push_key, push_number};
use std::alloc::Global;

// Whether two keys have the same text. Different keys have different texts.
fn is_one_key(alloc: Global, one: &Key, other: &Key) -> Result<bool, NoMemory>
    ensures { IfOk result (λ is. is ≡ bytes_eq (key_text one.now) (key_text other.now)) }
{
    let mut text = Vec::new(alloc);
    let mut other_text = Vec::new(alloc);
    push_key(&mut text, one)?;
    push_key(&mut other_text, other)?;
    Ok(text.as_slice() == other_text.as_slice())
}

/// How many keys two recipes have in common before they part.
pub(crate) fn common(alloc: Global, one: &[Key], other: &[Key]) -> Result<usize, NoMemory>
    ensures count { IfOk result (λ count. count ≡ common one.now other.now) }
    ensures within { IfOk result (λ count. count ≤ length one.now) }
{
    match one {
        [] => Ok(0),
        [key, one @ ..] => match other {
            [] => Ok(0),
            [other_key, other @ ..] => {
                if !is_one_key(alloc, key, other_key)? {
                    return Ok(0);
                }
                let more = common(alloc, one, other)?;
                Ok(more + 1)
            }
        },
    }
}

fn push_parting(text: &mut Vec<u8>, key: Option<&Key>) -> Result<(), NoMemory>
    ensures { OnOk result (text.new.items
        ≡ text.old.items ++ parting_text (option_copied key.entry)) }
{
    match key {
        None => push(text, b"no further key"),
        Some(key) => push_key(text, key),
    }
}

fn key_at(keys: &[Key], at: u32) -> Option<&Key>
    ensures { option_copied result ≡ slice_get keys.now at }
{
    keys.get(at as usize)
}

/// Writes at which key two recipes part, and what each has there.
pub(crate) fn push_against(
    text: &mut Vec<u8>,
    at: u32,
    one: &[Key],
    other: &[Key],
) -> Result<(), NoMemory>
    ensures { OnOk result (text.new.items
        ≡ text.old.items ++ against_text at one.now other.now) }
{
    push(text, b"their recipes part at key ")?;
    push_number(text, at)?;
    push(text, b": ")?;
    push_parting(text, key_at(one, at))?;
    push(text, b" against ")?;
    push_parting(text, key_at(other, at))?;
    push(text, b"\n")?;
    Ok(())
}
