//! The nodes of forms, and the edges between them.

ghost use Rattle.std.specs.Prelude.{◌≡◌, ◌++◌, ◌==◌, IfOk, OnOk, codes, flat_map, nat_le};
ghost use Rattle.std.specs.List.{count_by};
ghost use Rattle.std.specs.Option.{option_copied};
ghost use Rattle.mh_shown.specs.KeyText.{basics_text};
ghost use Rattle.mh_shown.specs.NameText.{name_text, out_text};
ghost use Rattle.mh_drawing.specs.Dot.{label_line};
ghost use Rattle.mh_drawing.specs.Drawing.{edge_from, form_label, form_line, form_text, is_made_of, is_shared, last_key, last_text, name_line, origin_of, shared_look};

use crate::label::{number_of, push, push_form_node, push_line, push_numbered};
use crate::shown_form::ShownForm;
use mh_base::NoMemory;
use mh_edit::Key;
use mh_form::{Basics, Name};
use mh_handle::{Form, Recipe};
use mh_shown::{push_basics, push_key, push_name, push_out};
use std::alloc::Global;

fn push_last(text: &mut Vec<u8>, key: Option<&Key>) -> Result<(), NoMemory>
    ensures { OnOk result (text.new.items ≡ text.old.items ++ last_text (option_copied key.entry)) }
{
    match key {
        None => push(text, b"nothing"),
        Some(key) => push_key(text, key),
    }
}

// The key that made a form, on a line of its own.
fn push_last_line(alloc: Global, text: &mut Vec<u8>, recipe: &Recipe) -> Result<(), NoMemory>
    ensures { OnOk result (text.new.items
        ≡ text.old.items ++ label_line (last_text (last_key recipe.now))) }
{
    let mut line = Vec::new(alloc);
    push_last(&mut line, recipe.keys().last())?;
    push_line(text, line)
}

fn push_takes(alloc: Global, text: &mut Vec<u8>, params: &Basics) -> Result<(), NoMemory>
    ensures { OnOk result (text.new.items
        ≡ text.old.items ++ label_line (codes "takes " ++ basics_text params.now)) }
{
    let mut line = Vec::new(alloc);
    push(&mut line, b"takes ")?;
    push_basics(&mut line, params)?;
    push_line(text, line)
}

fn push_gives(alloc: Global, text: &mut Vec<u8>, out: Option<u32>) -> Result<(), NoMemory>
    ensures { OnOk result (text.new.items
        ≡ text.old.items ++ label_line (codes "gives " ++ out_text out)) }
{
    let mut line = Vec::new(alloc);
    push(&mut line, b"gives ")?;
    push_out(&mut line, out)?;
    push_line(text, line)
}

fn push_name_line(alloc: Global, text: &mut Vec<u8>, name: &Name) -> Result<(), NoMemory>
    ensures { OnOk result (text.new.items ≡ text.old.items ++ name_line name.now) }
{
    let mut line = Vec::new(alloc);
    push_name(&mut line, name)?;
    push_line(text, line)
}

fn push_name_lines(alloc: Global, text: &mut Vec<u8>, names: &[Name]) -> Result<(), NoMemory>
    ensures { OnOk result (text.new.items ≡ text.old.items ++ flat_map name_line names.now) }
{
    for name in names {
        push_name_line(alloc, text, name)?;
    }
    Ok(())
}

fn push_form_label(alloc: Global, text: &mut Vec<u8>, form: &Form) -> Result<(), NoMemory>
    ensures { OnOk result (text.new.items ≡ text.old.items ++ form_label form.now) }
{
    let body = form.body();
    push_numbered(alloc, text, b"form ", number_of(form))?;
    push_last_line(alloc, text, form.recipe())?;
    push_takes(alloc, text, &body.params)?;
    push_name_lines(alloc, text, body.names.as_slice())?;
    push_gives(alloc, text, body.out)
}

// Whether a number is among these at least twice.
fn is_shared(targets: &[u32], number: u32) -> bool
    ensures { result ≡ is_shared targets.now number }
{
    targets.iter().filter(|target| **target == number).count() >= 2
}

fn push_look(text: &mut Vec<u8>, is_shared: bool) -> Result<(), NoMemory>
    ensures { OnOk result (text.new.items ≡ text.old.items ++ shared_look is_shared) }
{
    if is_shared {
        push(text, b", style=filled, fillcolor=gold")
    } else {
        Ok(())
    }
}

fn push_form_line(
    alloc: Global,
    text: &mut Vec<u8>,
    targets: &[u32],
    form: &Form,
) -> Result<(), NoMemory>
    ensures { OnOk result (text.new.items ≡ text.old.items ++ form_line targets.now form.now) }
{
    let number = number_of(form);
    push(text, b"  ")?;
    push_form_node(text, number)?;
    push(text, b" [label=\"")?;
    push_form_label(alloc, text, form)?;
    push(text, b"\"")?;
    push_look(text, is_shared(targets, number))?;
    push(text, b"];\n")?;
    Ok(())
}

// Whether a recipe is another one with one more key.
fn is_made_of(recipe: &Recipe, origin: &Recipe) -> bool
    ensures { result ≡ is_made_of recipe.now origin.now }
{
    match recipe.keys().last() {
        Some(last) => recipe.is_then(origin, last),
        None => false,
    }
}

// The form that the form of a recipe was made from, if it is among these.
fn origin_of<'f, 't>(forms: &'f [ShownForm<'t>], recipe: &Recipe) -> Option<&'f ShownForm<'t>>
    ensures { option_copied result ≡ origin_of forms.now recipe.now }
{
    forms
        .iter()
        .find(|origin| is_made_of(recipe, origin.form().recipe()))
}

fn push_edge(
    text: &mut Vec<u8>,
    number: u32,
    origin: Option<&ShownForm<'_>>,
) -> Result<(), NoMemory>
    ensures { OnOk result (text.new.items
        ≡ text.old.items ++ edge_from number (option_copied origin.entry)) }
{
    let Some(origin) = origin else {
        return Ok(());
    };
    push(text, b"  ")?;
    push_form_node(text, number_of(origin.form()))?;
    push(text, b" -> ")?;
    push_form_node(text, number)?;
    push(text, b";\n")
}

fn push_form_of(
    alloc: Global,
    text: &mut Vec<u8>,
    forms: &[ShownForm<'_>],
    targets: &[u32],
    form: &Form,
) -> Result<(), NoMemory>
    ensures { OnOk result (text.new.items
        ≡ text.old.items ++ form_text forms.now targets.now form.now) }
{
    push_form_line(alloc, text, targets, form)?;
    push_edge(text, number_of(form), origin_of(forms, form.recipe()))
}

/// Writes a form: its node, and the edge from the form that it was made of.
pub(crate) fn push_form(
    alloc: Global,
    text: &mut Vec<u8>,
    forms: &[ShownForm<'_>],
    targets: &[u32],
    form: &ShownForm<'_>,
) -> Result<(), NoMemory>
    ensures { OnOk result (text.new.items
        ≡ text.old.items ++ form_text forms.now targets.now form.now) }
{
    push_form_of(alloc, text, forms, targets, form.form())
}
