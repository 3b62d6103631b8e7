ghost use Rattle.std.specs.Prelude.{◌≡◌, ◌+◌, ◌++◌, IfOk, OnOk, codes};
ghost use Rattle.std.specs.Fmt.{decimal};
ghost use Rattle.mh_drawing.specs.Fields.{held_text};
ghost use Rattle.mh_drawing.specs.Why.{against_text, apart_line, common, error_line, field_line, fields_text, handles_text, no_form_line, pair_text, shared_line, two_forms_text, why_text};

use crate::common::{common, push_against};
use crate::field::push_held;
use crate::label::{number_of, push};
use crate::shown_form::ShownForm;
use crate::site::Site;
use mh_attempt::Linked;
use mh_base::NoMemory;
use mh_edit::Key;
use mh_form::Field;
use mh_handle::{Form, Handle};
use mh_shown::push_number;
use mh_texts::show_exc;
use mh_values::{Classes, Exc};
use std::alloc::Global;

/// What texts are written of: the forms, and the names of classes.
#[derive(Clone, Copy)]
struct Shown<'f, 't> {
    alloc: Global,
    forms: &'f [ShownForm<'t>],
    classes: &'f Classes,
}

fn held(shown: Shown<'_, '_>, field: &Field<'_>) -> Result<Vec<u8>, NoMemory>
    ensures { IfOk result (λ text. text.items
        ≡ held_text shown.entry.classes.now shown.entry.forms.now field.now) }
{
    let mut text = Vec::new(shown.alloc);
    push_held(shown.alloc, &mut text, shown.forms, field, shown.classes)?;
    Ok(text)
}

fn push_field_line(
    text: &mut Vec<u8>,
    number: u32,
    one: &[u8],
    other: &[u8],
) -> Result<(), NoMemory>
    ensures { OnOk result (text.new.items
        ≡ text.old.items ++ field_line number one.now other.now) }
{
    if one == other {
        return Ok(());
    }
    push(text, b"field f")?;
    push_number(text, number)?;
    push(text, b": ")?;
    push(text, one)?;
    push(text, b" against ")?;
    push(text, other)?;
    push(text, b"\n")
}

// The line of a field, if it is not written the same in both.
fn push_pair(
    text: &mut Vec<u8>,
    shown: Shown<'_, '_>,
    number: u32,
    one: &Field<'_>,
    other: &Field<'_>,
) -> Result<(), NoMemory>
    ensures { OnOk result (text.new.items ≡ text.old.items ++ field_line number
        (held_text shown.entry.classes.now shown.entry.forms.now one.now)
        (held_text shown.entry.classes.now shown.entry.forms.now other.now)) }
{
    let text_of_one = held(shown, one)?;
    let text_of_other = held(shown, other)?;
    push_field_line(text, number, &text_of_one, &text_of_other)
}

// The next number, if it fits into 32 bits.
fn next(number: u32) -> Result<u32, NoMemory>
    ensures { IfOk result (λ next. next ≡ number + 1) }
{
    number.checked_add(1).ok_or(NoMemory)
}

// The fields that differ, numbered from a number on.
fn push_fields(
    text: &mut Vec<u8>,
    shown: Shown<'_, '_>,
    number: u32,
    one: &[Field<'_>],
    other: &[Field<'_>],
) -> Result<(), NoMemory>
    ensures { OnOk result (text.new.items ≡ text.old.items
        ++ fields_text shown.entry.classes.now shown.entry.forms.now number one.now other.now) }
{
    match one {
        [] => Ok(()),
        [field, one @ ..] => match other {
            [] => Ok(()),
            [other_field, other @ ..] => {
                push_pair(text, shown, number, field, other_field)?;
                push_fields(text, shown, next(number)?, one, other)
            }
        },
    }
}

fn push_two(text: &mut Vec<u8>, one: u32, other: u32) -> Result<(), NoMemory>
    ensures { OnOk result (text.new.items ≡ text.old.items ++ pair_text one other) }
{
    push(text, b"sites ")?;
    push_number(text, one)?;
    push(text, b" and ")?;
    push_number(text, other)
}

fn push_shared(text: &mut Vec<u8>, sites: (u32, u32), form: u32) -> Result<(), NoMemory>
    ensures { OnOk result (text.new.items ≡ text.old.items ++ shared_line sites.0 sites.1 form) }
{
    push_two(text, sites.0, sites.1)?;
    push(text, b" share form ")?;
    push_number(text, form)?;
    push(text, b"\n")?;
    Ok(())
}

fn push_apart(text: &mut Vec<u8>, sites: (u32, u32), forms: (u32, u32)) -> Result<(), NoMemory>
    ensures { OnOk result (text.new.items
        ≡ text.old.items ++ apart_line sites.0 sites.1 forms.0 forms.1) }
{
    push_two(text, sites.0, sites.1)?;
    push(text, b" have forms ")?;
    push_number(text, forms.0)?;
    push(text, b" and ")?;
    push_number(text, forms.1)?;
    push(text, b"\n")
}

fn push_parting(
    alloc: Global,
    text: &mut Vec<u8>,
    one: &[Key],
    other: &[Key],
) -> Result<(), NoMemory>
    ensures { OnOk result (text.new.items
        ≡ text.old.items ++ against_text (common one.now other.now) one.now other.now) }
{
    let at = common(alloc, one, other)?;
    let number = u32::try_from(at).or(Err(NoMemory))?;
    push_against(text, number, one, other)
}

// Two call sites have two forms, and where their recipes part.
fn push_two_forms(
    alloc: Global,
    text: &mut Vec<u8>,
    sites: (u32, u32),
    one: &Form,
    other: &Form,
) -> Result<(), NoMemory>
    ensures { OnOk result (text.new.items ≡ text.old.items
        ++ two_forms_text sites.0 one.now sites.1 other.now) }
{
    push_apart(text, sites, (number_of(one), number_of(other)))?;
    push_parting(alloc, text, one.recipe().keys(), other.recipe().keys())?;
    Ok(())
}

fn push_handles(
    text: &mut Vec<u8>,
    shown: Shown<'_, '_>,
    sites: (u32, u32),
    targets: (&Handle<'_>, &Handle<'_>),
) -> Result<(), NoMemory>
    ensures { OnOk result (text.new.items ≡ text.old.items
        ++ handles_text shown.entry.classes.now shown.entry.forms.now
        sites.0 targets.entry.0.now sites.1 targets.entry.1.now) }
{
    let (one, other) = (targets.0.form(), targets.1.form());
    let numbers = (number_of(one), number_of(other));
    if numbers.0 == numbers.1 {
        push_shared(text, sites, numbers.0)?;
        push_fields(text, shown, 0, targets.0.fields(), targets.1.fields())
    } else {
        push_two_forms(shown.alloc, text, sites, one, other)
    }
}

fn push_no_form(
    alloc: Global,
    text: &mut Vec<u8>,
    classes: &Classes,
    number: u32,
    exc: &Exc,
) -> Result<(), NoMemory>
    ensures { OnOk result (text.new.items
        ≡ text.old.items ++ no_form_line classes.now number exc.now) }
{
    push(text, b"site ")?;
    push_number(text, number)?;
    push(text, b" has no form: it is linked to an error, ")?;
    push(text, &show_exc(alloc, exc, classes)?)?;
    push(text, b"\n")?;
    Ok(())
}

fn push_error(
    alloc: Global,
    text: &mut Vec<u8>,
    classes: &Classes,
    number: u32,
    linked: &Linked<'_>,
) -> Result<(), NoMemory>
    ensures { OnOk result (text.new.items
        ≡ text.old.items ++ error_line classes.now number linked.now) }
{
    match linked {
        Linked::Target(_) => Ok(()),
        Linked::Error(exc) => push_no_form(alloc, text, classes, number, exc),
    }
}

fn push_linked(
    text: &mut Vec<u8>,
    shown: Shown<'_, '_>,
    one: &Site<'_, '_>,
    other: &Site<'_, '_>,
) -> Result<(), NoMemory>
    ensures { OnOk result (text.new.items
        ≡ text.old.items ++ why_text shown.entry.classes.now shown.entry.forms.now one.now other.now) }
{
    match (one.linked, other.linked) {
        (Linked::Target(target), Linked::Target(second)) => {
            push_handles(text, shown, (one.number, other.number), (target, second))
        }
        _ => {
            push_error(shown.alloc, text, shown.classes, one.number, one.linked)?;
            push_error(shown.alloc, text, shown.classes, other.number, other.linked)
        }
    }
}

/// Why two call sites share a form, or why they do not: the fields that differ, or the key at which
/// the recipes of their forms part.
pub fn say_why(
    alloc: Global,
    forms: &[ShownForm<'_>],
    classes: &Classes,
    one: &Site<'_, '_>,
    other: &Site<'_, '_>,
) -> Result<Vec<u8>, NoMemory>
    ensures { IfOk result
        (λ text. text.items ≡ why_text classes.now forms.now one.now other.now) }
{
    let mut text = Vec::new(alloc);
    let shown = Shown {
        alloc,
        forms,
        classes,
    };
    push_linked(&mut text, shown, one, other)?;
    Ok(text)
}
