ghost use Rattle.std.specs.Prelude.{◌≡◌, ◌++◌, OnOk, codes, flat_map};
ghost use Rattle.std.specs.Fmt.{decimal};
ghost use Rattle.mh_edit.specs.declared.key.Key.TheVariants as shown;
ghost use Rattle.mh_shown.specs.KeyText.{basic_text, basics_text, entries_text, entry_text, key_text, others_text, place_text, places_text, ret_entry_text, ret_text, shape_text};

use crate::push::{push, push_number};
use mh_base::NoMemory;
use mh_edit::{Entries, Key, Places, RetEntry};
use mh_form::{Basic, BasicRet, Basics, Shape};

fn push_basic(text: &mut Vec<u8>, basic: Basic) -> Result<(), NoMemory>
    ensures { OnOk result (text.new.items ≡ text.old.items ++ basic_text basic) }
{
    match basic {
        Basic::L => push(text, b"L"),
        Basic::I => push(text, b"I"),
        Basic::J => push(text, b"J"),
    }
}

pub(crate) fn push_ret(text: &mut Vec<u8>, ret: BasicRet) -> Result<(), NoMemory>
    ensures { OnOk result (text.new.items ≡ text.old.items ++ ret_text ret) }
{
    match ret {
        BasicRet::V => push(text, b"V"),
        BasicRet::Is(basic) => push_basic(text, basic),
    }
}

fn push_letters(text: &mut Vec<u8>, basics: &[Basic]) -> Result<(), NoMemory>
    ensures { OnOk result (text.new.items ≡ text.old.items ++ flat_map basic_text basics.now) }
{
    for basic in basics {
        push_basic(text, *basic)?;
    }
    Ok(())
}

/// Writes parameters: their letters in parentheses.
pub fn push_basics(text: &mut Vec<u8>, basics: &Basics) -> Result<(), NoMemory>
    ensures { OnOk result (text.new.items ≡ text.old.items ++ basics_text basics.now) }
{
    push(text, b"(")?;
    push_letters(text, basics.as_slice())?;
    push(text, b")")
}

fn push_shape(text: &mut Vec<u8>, shape: &Shape) -> Result<(), NoMemory>
    ensures { OnOk result (text.new.items ≡ text.old.items ++ shape_text shape.now) }
{
    push_basics(text, &shape.params)?;
    push_ret(text, shape.ret)
}

fn push_entry(text: &mut Vec<u8>, entry: Option<Basic>) -> Result<(), NoMemory>
    ensures { OnOk result (text.new.items ≡ text.old.items ++ entry_text entry) }
{
    match entry {
        None => push(text, b"-"),
        Some(basic) => push_basic(text, basic),
    }
}

fn push_entry_letters(text: &mut Vec<u8>, entries: &[Option<Basic>]) -> Result<(), NoMemory>
    ensures { OnOk result (text.new.items ≡ text.old.items ++ flat_map entry_text entries.now) }
{
    for entry in entries {
        push_entry(text, *entry)?;
    }
    Ok(())
}

fn push_entries(text: &mut Vec<u8>, entries: &Entries) -> Result<(), NoMemory>
    ensures { OnOk result (text.new.items ≡ text.old.items ++ entries_text entries.now) }
{
    push(text, b"(")?;
    push_entry_letters(text, entries.as_slice())?;
    push(text, b")")
}

fn push_ret_entry(text: &mut Vec<u8>, entry: RetEntry) -> Result<(), NoMemory>
    ensures { OnOk result (text.new.items ≡ text.old.items ++ ret_entry_text entry) }
{
    match entry {
        RetEntry::Keep => push(text, b"-"),
        RetEntry::New(ret) => push_ret(text, ret),
    }
}

fn push_byte(text: &mut Vec<u8>, number: u8) -> Result<(), NoMemory>
    ensures { OnOk result (text.new.items ≡ text.old.items ++ decimal number) }
{
    push_number(text, number as u32)
}

fn push_place(text: &mut Vec<u8>, place: u8) -> Result<(), NoMemory>
    ensures { OnOk result (text.new.items ≡ text.old.items ++ place_text place) }
{
    push(text, b" ")?;
    push_byte(text, place)
}

fn push_places(text: &mut Vec<u8>, places: &[u8]) -> Result<(), NoMemory>
    ensures { OnOk result (text.new.items ≡ text.old.items ++ places_text places.now) }
{
    for place in places {
        push_place(text, *place)?;
    }
    Ok(())
}

fn push_of_shape(text: &mut Vec<u8>, word: &[u8], shape: &Shape) -> Result<(), NoMemory>
    ensures { OnOk result (text.new.items ≡ text.old.items ++ (word.now ++ shape_text shape.now)) }
{
    push(text, word)?;
    push_shape(text, shape)
}

fn push_of_basic(text: &mut Vec<u8>, word: &[u8], basic: Basic) -> Result<(), NoMemory>
    ensures { OnOk result (text.new.items ≡ text.old.items ++ (word.now ++ basic_text basic)) }
{
    push(text, word)?;
    push_basic(text, basic)
}

fn push_to_ret(text: &mut Vec<u8>, word: &[u8], ret: BasicRet) -> Result<(), NoMemory>
    ensures { OnOk result (text.new.items ≡ text.old.items ++ (word.now ++ ret_text ret)) }
{
    push(text, word)?;
    push_ret(text, ret)
}

fn push_at(text: &mut Vec<u8>, word: &[u8], place: u8) -> Result<(), NoMemory>
    ensures { OnOk result (text.new.items ≡ text.old.items ++ (word.now ++ decimal place)) }
{
    push(text, word)?;
    push_byte(text, place)
}

fn push_permute(text: &mut Vec<u8>, basics: &Basics, reorder: &Places) -> Result<(), NoMemory>
    ensures { OnOk result
        (text.new.items ≡ text.old.items ++ key_text (shown.Permute basics.now reorder.now)) }
{
    push(text, b"Permute to ")?;
    push_basics(text, basics)?;
    push(text, b" from")?;
    push_places(text, reorder.as_slice())
}

fn push_add(text: &mut Vec<u8>, place: u8, basics: &Basics) -> Result<(), NoMemory>
    ensures { OnOk result
        (text.new.items ≡ text.old.items ++ key_text (shown.Add place basics.now)) }
{
    push_at(text, b"Add at ", place)?;
    push(text, b" of ")?;
    push_basics(text, basics)
}

fn push_collect(
    text: &mut Vec<u8>,
    place: u8,
    basics: &Basics,
    ret: BasicRet,
) -> Result<(), NoMemory>
    ensures { OnOk result
        (text.new.items ≡ text.old.items ++ key_text (shown.Collect place basics.now ret)) }
{
    push_at(text, b"Collect at ", place)?;
    push(text, b" of ")?;
    push_basics(text, basics)?;
    push_ret(text, ret)
}

fn push_fold(text: &mut Vec<u8>, place: u8, count: u8, ret: BasicRet) -> Result<(), NoMemory>
    ensures { OnOk result
        (text.new.items ≡ text.old.items ++ key_text (shown.Fold place count ret)) }
{
    push_at(text, b"Fold at ", place)?;
    push_at(text, b" of ", count)?;
    push_to_ret(text, b" to ", ret)
}

fn push_convert(text: &mut Vec<u8>, params: &Entries, ret: RetEntry) -> Result<(), NoMemory>
    ensures { OnOk result
        (text.new.items ≡ text.old.items ++ key_text (shown.Convert params.now ret)) }
{
    push(text, b"Convert of ")?;
    push_entries(text, params)?;
    push_ret_entry(text, ret)
}

fn push_count(text: &mut Vec<u8>, word: &[u8], count: u8, basic: Basic) -> Result<(), NoMemory>
    ensures { OnOk result (text.new.items
        ≡ text.old.items ++ (word.now ++ decimal count ++ codes " of " ++ basic_text basic)) }
{
    push_at(text, word, count)?;
    push_of_basic(text, b" of ", basic)
}

fn push_of_number(
    text: &mut Vec<u8>,
    word: &[u8],
    shape: &Shape,
    between: &[u8],
    number: u8,
) -> Result<(), NoMemory>
    ensures { OnOk result (text.new.items ≡ text.old.items
        ++ (word.now ++ shape_text shape.now ++ between.now ++ decimal number)) }
{
    push_of_shape(text, word, shape)?;
    push_at(text, between, number)
}

fn push_guard(text: &mut Vec<u8>, shape: &Shape, test: u8) -> Result<(), NoMemory>
    ensures { OnOk result
        (text.new.items ≡ text.old.items ++ key_text (shown.GuardRoot shape.now test)) }
{
    push_of_number(text, b"GuardRoot of ", shape, b", test takes ", test)
}

fn push_catch(text: &mut Vec<u8>, shape: &Shape, handler: u8) -> Result<(), NoMemory>
    ensures { OnOk result
        (text.new.items ≡ text.old.items ++ key_text (shown.CatchRoot shape.now handler)) }
{
    push_of_number(text, b"CatchRoot of ", shape, b", handler takes ", handler)
}

fn push_try(text: &mut Vec<u8>, shape: &Shape, cleanup: u8) -> Result<(), NoMemory>
    ensures { OnOk result
        (text.new.items ≡ text.old.items ++ key_text (shown.TryRoot shape.now cleanup)) }
{
    push_of_number(text, b"TryRoot of ", shape, b", cleanup takes ", cleanup)
}

fn push_switch(text: &mut Vec<u8>, shape: &Shape, count: u8) -> Result<(), NoMemory>
    ensures { OnOk result
        (text.new.items ≡ text.old.items ++ key_text (shown.SwitchRoot shape.now count)) }
{
    push_of_number(text, b"SwitchRoot of ", shape, b", cases ", count)
}

fn push_others(text: &mut Vec<u8>, init: u8, body: u8) -> Result<(), NoMemory>
    ensures { OnOk result (text.new.items ≡ text.old.items ++ others_text init body) }
{
    push_at(text, b", ", init)?;
    push_at(text, b", ", body)
}

fn push_loop(
    text: &mut Vec<u8>,
    shape: &Shape,
    iterations: u8,
    init: u8,
    body: u8,
) -> Result<(), NoMemory>
    ensures { OnOk result (text.new.items
        ≡ text.old.items ++ key_text (shown.LoopRoot shape.now iterations init body)) }
{
    push_of_number(text, b"LoopRoot of ", shape, b", parts take ", iterations)?;
    push_others(text, init, body)
}

/// Writes a key: the word of its kind and what it has, as in `Add at 0 of (I)`.
pub fn push_key(text: &mut Vec<u8>, key: &Key) -> Result<(), NoMemory>
    ensures { OnOk result (text.new.items ≡ text.old.items ++ key_text key.now) }
{
    match key {
        Key::LeafRoot { shape } => push_of_shape(text, b"LeafRoot of ", shape),
        Key::ConstRoot { basic } => push_of_basic(text, b"ConstRoot of ", *basic),
        Key::IdentityRoot { basic } => push_of_basic(text, b"IdentityRoot of ", *basic),
        Key::ThrowRoot { ret } => push_to_ret(text, b"ThrowRoot to ", *ret),
        Key::GuardRoot { shape, test } => push_guard(text, shape, *test),
        Key::CatchRoot { shape, handler } => push_catch(text, shape, *handler),
        Key::TryRoot { shape, cleanup } => push_try(text, shape, *cleanup),
        Key::SwitchRoot { shape, count } => push_switch(text, shape, *count),
        Key::LoopRoot {
            shape,
            iterations,
            init,
            body,
        } => push_loop(text, shape, *iterations, *init, *body),
        Key::ConcatRoot { shape } => push_of_shape(text, b"ConcatRoot of ", shape),
        Key::Bind { pos } => push_at(text, b"Bind at ", *pos),
        Key::Add { pos, basics } => push_add(text, *pos, basics),
        Key::Permute { basics, reorder } => push_permute(text, basics, reorder),
        Key::Collect { pos, basics, ret } => push_collect(text, *pos, basics, *ret),
        Key::Fold { pos, count, ret } => push_fold(text, *pos, *count, *ret),
        Key::FilterReturn { ret } => push_to_ret(text, b"FilterReturn to ", *ret),
        Key::Convert { params, ret } => push_convert(text, params, *ret),
        Key::Spread { count, basic } => push_count(text, b"Spread to ", *count, *basic),
        Key::Gather { count, basic } => push_count(text, b"Gather of ", *count, *basic),
    }
}
