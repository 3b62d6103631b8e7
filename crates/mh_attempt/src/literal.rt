//! The literals of a script as values.

ghost use Rattle.std.specs.Prelude.{◌≡◌, IfOk};

use mh_base::{Copied, Frozen, NoMemory, Seq};
use mh_values::{Str, Value};
use std::alloc::Global;

/// The longest text of which each attempt has characters of its own.
const MOST_COPIED: usize = 64;

/// A text with characters of its own, if it is short. Each copy of a text counts the owners of its
/// characters, and threads that make such copies at the same time wait for each other. So a short
/// text that is bound at one site is not that of other sites.
fn text_of(alloc: Global, text: &Str) -> Result<Str, NoMemory>
    ensures { IfOk result (λ copy. copy ≡ text.now) }
{
    if text.len() > MOST_COPIED || text.is_empty() {
        return text.copy();
    }
    let characters = Vec::from_slice(alloc, text.as_slice())?;
    Frozen::of(alloc, Seq::from_vec(characters))
}

/// The value of a literal.
pub(crate) fn value_of(alloc: Global, literal: &Value) -> Result<Value, NoMemory>
    ensures { IfOk result (λ value. value ≡ literal.now) }
{
    match literal {
        Value::Text(text) => Ok(Value::Text(text_of(alloc, text)?)),
        _ => literal.copy(alloc),
    }
}
