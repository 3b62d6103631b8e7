ghost use Rattle.std.specs.Prelude.{◌≡◌, IfOk, map, string_bytes};
ghost use Rattle.std.specs.Iterator.{Drains, IsFinite};

use mh_base::NoMemory;
use std::alloc::Global;

/// The words that an iterator gives, all and in order.
pub fn all_words<I: Iterator<Item = String> + Drop>(
    alloc: Global,
    words: I,
) -> Result<Vec<String>, NoMemory>
    requires can { I.can_next words }
    requires ends { IsFinite (I.remaining words) }
    ensures { IfOk result (λ all. Drains I.next_gives words all.items) }
{
    let mut all = Vec::new(alloc);
    for word in words {
        all.push(word)?;
    }
    Ok(all)
}

/// Words as texts, all and in order, which are borrowed.
pub fn texts_of<'w>(alloc: Global, words: &'w [String]) -> Result<Vec<&'w str>, NoMemory>
    ensures { IfOk result
        (λ texts. map (λ text. text.now) texts.items ≡ map string_bytes words.now) }
{
    let mut texts = Vec::new(alloc);
    for word in words {
        texts.push(word.as_str())?;
    }
    Ok(texts)
}
