ghost use Rattle.std.specs.Prelude.{◌≡◌, ◌++◌, IfOk, OnOk, codes, flat_map, map};
ghost use Rattle.std.specs.Option.{option_copied};
ghost use Rattle.std.specs.Str.{bytes_eq};
ghost use Rattle.mh_handle.specs.Form.{body_of};
ghost use Rattle.mh_shown.specs.NameText.{name_text};
ghost use Rattle.mh_drawing.specs.Drawing.{body_text, form_of};

use crate::label::push;
use mh_base::{NoMemory, Seq};
use mh_form::{FormBody, Name};
use mh_handle::Form;
use mh_shown::{push_basics, push_name, push_out};
use std::alloc::Global;
use std::marker::Model;

/// A form, with the text of its body, by which side parts find it. Contracts see the form.
#[derive(Drop)]
pub struct ShownForm<'t> {
    form: &'t Form,
    body: Seq<u8>,
}

impl<'t> Model for ShownForm<'t> {
    ghost use Rattle.std.specs.Prelude.{◌≡◌};
    ghost use Rattle.mh_handle.specs.Form.{FormView, body_of};
    ghost use Rattle.mh_drawing.specs.Drawing.{body_text};

    ghost Value = { FormView };

    ghost view = { λ s. s.form.now };

    ghost invariant = { λ s. s.body ≡ body_text (body_of s.form.now.recipe) };
}

fn push_next_name(text: &mut Vec<u8>, name: &Name) -> Result<(), NoMemory>
    ensures { OnOk result (text.new.items ≡ text.old.items ++ (codes "; " ++ name_text name.now)) }
{
    push(text, b"; ")?;
    push_name(text, name)
}

fn push_names(text: &mut Vec<u8>, names: &[Name]) -> Result<(), NoMemory>
    ensures { OnOk result (text.new.items
        ≡ text.old.items ++ flat_map (λ name. codes "; " ++ name_text name) names.now) }
{
    for name in names {
        push_next_name(text, name)?;
    }
    Ok(())
}

/// What a body does, as a text.
pub(crate) fn body_text(alloc: Global, body: &FormBody) -> Result<Seq<u8>, NoMemory>
    ensures { IfOk result (λ text. text ≡ body_text body.now) }
{
    let mut text = Vec::new(alloc);
    push_basics(&mut text, &body.params)?;
    push_names(&mut text, body.names.as_slice())?;
    push(&mut text, b"; ")?;
    push_out(&mut text, body.out)?;
    Ok(Seq::from_vec(text))
}

impl<'t> ShownForm<'t> {
    /// A form with its text.
    pub fn of(alloc: Global, form: &'t Form) -> Result<ShownForm<'t>, NoMemory>
        ensures { IfOk result (λ shown. shown ≡ form.entry.now) }
    {
        Ok(ShownForm {
            form,
            body: body_text(alloc, form.body())?,
        })
    }

    /// The form.
    pub fn form(&self) -> &'t Form
        ensures { result.now ≡ self.now }
    {
        self.form
    }

    // Whether the body of the form has this text.
    fn has_body(&self, text: &[u8]) -> bool
        ensures { result ≡ bytes_eq (body_text (body_of self.now.recipe)) text.now }
    {
        self.body.as_slice() == text
    }
}

/// The forms that a pass has asked for, with their texts.
pub fn shown_forms<'t>(alloc: Global, forms: &[&'t Form]) -> Result<Vec<ShownForm<'t>>, NoMemory>
    ensures { IfOk result (λ shown. shown.items ≡ map (λ form. form.now) forms.now) }
{
    let mut shown = Vec::with_capacity(alloc, forms.len())?;
    for form in forms {
        shown.push(ShownForm::of(alloc, *form)?)?;
    }
    Ok(shown)
}

/// The first of the forms whose body has this text.
pub(crate) fn form_of<'f, 't>(forms: &'f [ShownForm<'t>], text: &[u8]) -> Option<&'f ShownForm<'t>>
    ensures { option_copied result ≡ form_of forms.now text.now }
{
    forms.iter().find(|form| form.has_body(text))
}
