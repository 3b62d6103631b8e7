ghost use Rattle.std.specs.Prelude.{◌≡◌, ◌++◌, OnOk, codes, flat_map};
ghost use Rattle.std.specs.Fmt.{decimal};
ghost use Rattle.mh_form.specs.declared.name.Name.TheVariants as shown;
ghost use Rattle.mh_shown.specs.KeyText.{ret_text};
ghost use Rattle.mh_shown.specs.NameText.{field_text, listed_slots, name_text, next_slot_text, of_field, on_slot, on_slots, out_text, slot_text, slots_text, with_number};

use crate::key::push_ret as push_basic_ret;
use crate::push::{push, push_number};
use mh_base::NoMemory;
use mh_form::{BasicRet, LoopCounts, Name, Operands};

fn push_field(text: &mut Vec<u8>, field: u32) -> Result<(), NoMemory>
    ensures { OnOk result (text.new.items ≡ text.old.items ++ field_text field) }
{
    push(text, b"f")?;
    push_number(text, field)
}

fn push_slot(text: &mut Vec<u8>, slot: u32) -> Result<(), NoMemory>
    ensures { OnOk result (text.new.items ≡ text.old.items ++ slot_text slot) }
{
    push(text, b"s")?;
    push_number(text, slot)
}

fn push_next_slot(text: &mut Vec<u8>, slot: u32) -> Result<(), NoMemory>
    ensures { OnOk result (text.new.items ≡ text.old.items ++ next_slot_text slot) }
{
    push(text, b", ")?;
    push_slot(text, slot)
}

fn push_next_slots(text: &mut Vec<u8>, slots: &[u32]) -> Result<(), NoMemory>
    ensures { OnOk result (text.new.items ≡ text.old.items ++ flat_map next_slot_text slots.now) }
{
    for slot in slots {
        push_next_slot(text, *slot)?;
    }
    Ok(())
}

fn push_listed(text: &mut Vec<u8>, slots: &[u32]) -> Result<(), NoMemory>
    ensures { OnOk result (text.new.items ≡ text.old.items ++ listed_slots slots.now) }
{
    match slots {
        [] => Ok(()),
        [first, others @ ..] => {
            push_slot(text, *first)?;
            push_next_slots(text, others)
        }
    }
}

fn push_slots(text: &mut Vec<u8>, slots: &Operands) -> Result<(), NoMemory>
    ensures { OnOk result (text.new.items ≡ text.old.items ++ slots_text slots.now) }
{
    push(text, b" (")?;
    push_listed(text, slots.as_slice())?;
    push(text, b")")
}

/// Writes a result: its slot, or `nothing`.
pub fn push_out(text: &mut Vec<u8>, out: Option<u32>) -> Result<(), NoMemory>
    ensures { OnOk result (text.new.items ≡ text.old.items ++ out_text out) }
{
    match out {
        None => push(text, b"nothing"),
        Some(slot) => push_slot(text, slot),
    }
}

fn push_of_field(text: &mut Vec<u8>, word: &[u8], field: u32) -> Result<(), NoMemory>
    ensures { OnOk result (text.new.items ≡ text.old.items ++ of_field word.now field) }
{
    push(text, word)?;
    push(text, b" ")?;
    push_field(text, field)
}

fn push_on_slots(
    text: &mut Vec<u8>,
    word: &[u8],
    field: u32,
    slots: &Operands,
) -> Result<(), NoMemory>
    ensures { OnOk result (text.new.items ≡ text.old.items ++ on_slots word.now field slots.now) }
{
    push_of_field(text, word, field)?;
    push_slots(text, slots)
}

fn push_on_slot(text: &mut Vec<u8>, word: &[u8], field: u32, slot: u32) -> Result<(), NoMemory>
    ensures { OnOk result (text.new.items ≡ text.old.items ++ on_slot word.now field slot) }
{
    push_of_field(text, word, field)?;
    push(text, b" ")?;
    push_slot(text, slot)
}

fn push_with_number(
    text: &mut Vec<u8>,
    word: &[u8],
    slot: u32,
    between: &[u8],
    number: u32,
) -> Result<(), NoMemory>
    ensures { OnOk result (text.new.items
        ≡ text.old.items ++ with_number word.now slot between.now number) }
{
    push(text, word)?;
    push(text, b" ")?;
    push_slot(text, slot)?;
    push(text, between)?;
    push_number(text, number)
}

// The two parts that a test picks from.
fn push_choice(text: &mut Vec<u8>, field: u32, other: u32) -> Result<(), NoMemory>
    ensures { OnOk result (text.new.items
        ≡ text.old.items ++ (codes " ? " ++ field_text field ++ codes " : " ++ field_text other)) }
{
    push(text, b" ? ")?;
    push_field(text, field)?;
    push(text, b" : ")?;
    push_field(text, other)
}

fn push_select(
    text: &mut Vec<u8>,
    test: u32,
    field: u32,
    other: u32,
    slots: &Operands,
) -> Result<(), NoMemory>
    ensures { OnOk result (text.new.items
        ≡ text.old.items ++ name_text (shown.Select test field other slots.now)) }
{
    push(text, b"Select ")?;
    push_slot(text, test)?;
    push_choice(text, field, other)?;
    push_slots(text, slots)
}

// The class that is handled, the handler, and how many arguments it keeps.
fn push_handling(text: &mut Vec<u8>, class: u32, handler: u32, kept: u32) -> Result<(), NoMemory>
    ensures { OnOk result (text.new.items ≡ text.old.items ++ (codes " or " ++ field_text class
        ++ codes " to " ++ field_text handler ++ codes " keeps " ++ decimal kept)) }
{
    push(text, b" or ")?;
    push_field(text, class)?;
    push(text, b" to ")?;
    push_field(text, handler)?;
    push(text, b" keeps ")?;
    push_number(text, kept)
}

// The cleanup, how many arguments it keeps, and the type of the result.
fn push_cleanup(text: &mut Vec<u8>, cleanup: u32, kept: u32, ret: BasicRet) -> Result<(), NoMemory>
    ensures { OnOk result (text.new.items ≡ text.old.items ++ (codes " then "
        ++ field_text cleanup ++ codes " keeps " ++ decimal kept ++ codes " to " ++ ret_text ret)) }
{
    push(text, b" then ")?;
    push_field(text, cleanup)?;
    push(text, b" keeps ")?;
    push_number(text, kept)?;
    push(text, b" to ")?;
    push_basic_ret(text, ret)
}

fn push_switch(
    text: &mut Vec<u8>,
    slot: u32,
    first: u32,
    count: u32,
    slots: &Operands,
) -> Result<(), NoMemory>
    ensures { OnOk result (text.new.items
        ≡ text.old.items ++ name_text (shown.Switch slot first count slots.now)) }
{
    push(text, b"Switch ")?;
    push_slot(text, slot)?;
    push(text, b" ? ")?;
    push_field(text, first)?;
    push(text, b" and ")?;
    push_number(text, count)?;
    push(text, b" cases")?;
    push_slots(text, slots)
}

// How many arguments each part of a loop takes.
fn push_counts(text: &mut Vec<u8>, counts: &LoopCounts) -> Result<(), NoMemory>
    ensures { OnOk result (text.new.items ≡ text.old.items ++ (codes " takes "
        ++ decimal counts.now.iterations ++ codes ", " ++ decimal counts.now.init ++ codes ", "
        ++ decimal counts.now.body)) }
{
    push(text, b" takes ")?;
    push_number(text, counts.iterations)?;
    push(text, b", ")?;
    push_number(text, counts.init)?;
    push(text, b", ")?;
    push_number(text, counts.body)
}

fn push_turns(
    text: &mut Vec<u8>,
    first: u32,
    slots: &Operands,
    counts: &LoopCounts,
    ret: BasicRet,
) -> Result<(), NoMemory>
    ensures { OnOk result (text.new.items
        ≡ text.old.items ++ name_text (shown.Loop first slots.now counts.now ret)) }
{
    push_on_slots(text, b"Loop", first, slots)?;
    push_counts(text, counts)?;
    push(text, b" to ")?;
    push_basic_ret(text, ret)
}

fn push_ret(text: &mut Vec<u8>, field: u32, slot: Option<u32>) -> Result<(), NoMemory>
    ensures { OnOk result (text.new.items ≡ text.old.items ++ name_text (shown.Ret field slot)) }
{
    push_of_field(text, b"Ret", field)?;
    push(text, b" ")?;
    push_out(text, slot)
}

fn push_raise(text: &mut Vec<u8>, slot: u32) -> Result<(), NoMemory>
    ensures { OnOk result (text.new.items ≡ text.old.items ++ name_text (shown.Raise slot)) }
{
    push(text, b"Raise ")?;
    push_slot(text, slot)
}

/// Writes a name: its word and what it takes, as in `Call f1 (s0, s2)`.
pub fn push_name(text: &mut Vec<u8>, name: &Name) -> Result<(), NoMemory>
    ensures { OnOk result (text.new.items ≡ text.old.items ++ name_text name.now) }
{
    match name {
        Name::Get(field) => push_of_field(text, b"Get", *field),
        Name::Call(field, slots) => push_on_slots(text, b"Call", *field, slots),
        Name::Link(field, slots) => push_on_slots(text, b"Link", *field, slots),
        Name::Select(test, field, other, slots) => push_select(text, *test, *field, *other, slots),
        Name::Guarded(field, class, handler, slots, kept) => {
            push_on_slots(text, b"Guarded", *field, slots)?;
            push_handling(text, *class, *handler, *kept)
        }
        Name::Finally(part, cleanup, slots, kept, ret) => {
            push_on_slots(text, b"Finally", *part, slots)?;
            push_cleanup(text, *cleanup, *kept, *ret)
        }
        Name::Switch(slot, first, count, slots) => push_switch(text, *slot, *first, *count, slots),
        Name::Loop(first, slots, counts, ret) => push_turns(text, *first, slots, counts, *ret),
        Name::Conv(field, slot) => push_on_slot(text, b"Conv", *field, *slot),
        Name::Cast(field, slot) => push_on_slot(text, b"Cast", *field, *slot),
        Name::Ret(field, slot) => push_ret(text, *field, *slot),
        Name::MakeArray(field, slots) => push_on_slots(text, b"MakeArray", *field, slots),
        Name::CheckArray(slot, count) => push_with_number(
            text,
            b"CheckArray",
            *slot,
            b" has ",
            *count,
        ),
        Name::Elem(slot, item) => push_with_number(text, b"Elem", *slot, b" at ", *item),
        Name::Join(field, slots) => push_on_slots(text, b"Join", *field, slots),
        Name::Raise(slot) => push_raise(text, *slot),
    }
}
