//! The edges of call sites.

ghost use Rattle.std.specs.Prelude.{◌≡◌, ◌++◌, IfOk, OnOk, flat_map};
ghost use Rattle.std.specs.Option.{option_copied};
ghost use Rattle.mh_drawing.specs.Drawing.{body_text, field_edge, form_of, part_edge, site_edges, target_edge};

use crate::label::{number_of, push, push_form_node, push_site_node};
use crate::shown_form::{ShownForm, body_text, form_of};
use mh_attempt::Linked;
use mh_base::NoMemory;
use mh_form::{Field, FormBody};
use mh_handle::Handle;
use std::alloc::Global;

fn push_part_edge(
    text: &mut Vec<u8>,
    number: u32,
    form: Option<&ShownForm<'_>>,
) -> Result<(), NoMemory>
    ensures { OnOk result (text.new.items
        ≡ text.old.items ++ part_edge number (option_copied form.entry)) }
{
    let Some(form) = form else {
        return Ok(());
    };
    push(text, b"  ")?;
    push_site_node(text, number)?;
    push(text, b" -> ")?;
    push_form_node(text, number_of(form.form()))?;
    push(text, b" [style=dashed];\n")
}

fn push_body_edge(
    alloc: Global,
    text: &mut Vec<u8>,
    forms: &[ShownForm<'_>],
    number: u32,
    body: &FormBody,
) -> Result<(), NoMemory>
    ensures { OnOk result (text.new.items
        ≡ text.old.items ++ part_edge number (form_of forms.now (body_text body.now))) }
{
    let sought = body_text(alloc, body)?;
    push_part_edge(text, number, form_of(forms, sought.as_slice()))
}

fn push_field_edge(
    alloc: Global,
    text: &mut Vec<u8>,
    forms: &[ShownForm<'_>],
    number: u32,
    field: &Field<'_>,
) -> Result<(), NoMemory>
    ensures { OnOk result (text.new.items
        ≡ text.old.items ++ field_edge forms.now number field.now) }
{
    match field {
        Field::Part(part) => push_body_edge(alloc, text, forms, number, part.body),
        Field::Val(_)
        | Field::Leaf(_)
        | Field::Class(_)
        | Field::Conv(_)
        | Field::Ret(_)
        | Field::Explicit(_)
        | Field::ExplicitRet(_)
        | Field::Comp(_)
        | Field::Joined(_) => Ok(()),
    }
}

fn push_field_edges(
    alloc: Global,
    text: &mut Vec<u8>,
    forms: &[ShownForm<'_>],
    number: u32,
    fields: &[Field<'_>],
) -> Result<(), NoMemory>
    ensures { OnOk result (text.new.items
        ≡ text.old.items ++ flat_map (field_edge forms.now number) fields.now) }
{
    for field in fields {
        push_field_edge(alloc, text, forms, number, field)?;
    }
    Ok(())
}

fn push_target_edge(text: &mut Vec<u8>, number: u32, target: &Handle<'_>) -> Result<(), NoMemory>
    ensures { OnOk result (text.new.items ≡ text.old.items ++ target_edge number target.now) }
{
    push(text, b"  ")?;
    push_site_node(text, number)?;
    push(text, b" -> ")?;
    push_form_node(text, number_of(target.form()))?;
    push(text, b";\n")
}

/// Writes the edges of a call site: to the form of its target, and to those of its side parts.
pub(crate) fn push_site_edges(
    alloc: Global,
    text: &mut Vec<u8>,
    forms: &[ShownForm<'_>],
    number: u32,
    linked: &Linked<'_>,
) -> Result<(), NoMemory>
    ensures { OnOk result (text.new.items
        ≡ text.old.items ++ site_edges forms.now number linked.now) }
{
    let Linked::Target(target) = linked else {
        return Ok(());
    };
    push_target_edge(text, number, target)?;
    push_field_edges(alloc, text, forms, number, target.fields())
}
