ghost use Rattle.std.specs.Prelude.{◌≡◌, ◌+◌, ◌≤◌, ◌++◌, ◌∷◌, [], IfOk, OnOk, OnErr, IsTrue, length};
ghost use Rattle.mh_form.specs.Body.{nothing};
ghost use Rattle.mh_edit.specs.Applied.{applied};
ghost use Rattle.mh_edit.specs.Fit.{fits};
ghost use Rattle.mh_intern.specs.Exchanges.{types_of};
ghost use Rattle.mh_handle.specs.Fields.{fields_in};
ghost use Rattle.mh_handle.specs.Form.{body_of};
ghost use Rattle.mh_handle.specs.Stands.{HasShape, handle_body};
ghost use Rattle.mh_handle.specs.Grows.{GrowsBy, base_handle, untyped};
ghost use Rattle.mh_handle.specs.Works.{GoesOn, HoldsTypes, IsAccepted, IsReady, Makes, MakesForm, TradesForm, TradesTypes};

use crate::error::HandleError;
use crate::fields::FieldList;
use crate::form::Form;
use crate::handle::Handle;
use crate::parts::Parts;
use crate::work::Work;
use mh_base::NoMemory;
use mh_edit::Key;
use mh_form::{Bound, Field, Fields};
use mh_intern::HeldType;
use mh_values::MethodTy;
use std::alloc::Global;
use std::sync::Wait;

/// What a combinator adds to the handle that it adapts: the key of the edit, its fields and its
/// parts. It also has the type and the weight of the new handle.
#[derive(Drop)]
pub struct Growth<'t> {
    pub ty: MethodTy,
    pub weight: u32,
    pub key: Key,
    pub parts: Parts<'t>,
}

/// A handle before it has a type: a form with its fields, and the types of its side parts.
#[derive(Drop)]
struct Untyped<'t> {
    form: &'t Form,
    fields: Fields<'t>,
    sides: Vec<HeldType>,
}

/// A hold of the type of a new handle, and its form.
#[inline(always)]
fn typed_form<'t, R: Wait>(
    w: &mut Work<'_, 't>,
    rt: &R,
    ty: MethodTy,
    form: &'t Form,
    key: Key,
) -> Result<(HeldType, &'t Form), HandleError>
    requires fits { IsTrue (fits key (body_of form.now.recipe)) }
    requires ready { IsReady w.old 1 }
    ensures goes_on { GoesOn 1 w.old w.new }
    ensures makes { MakesForm (form.entry.now.recipe ++ key ∷ []) w.old w.new result }
    ensures ty { IfOk result (λ made. made.0.entry.ty ≡ ty) }
    ensures types { TradesForm ty w.old w.new result }
{
    let own = w.hold(rt, ty)?;
    match w.edit(rt, form, key) {
        Ok(form) => Ok((own, form)),
        Err(error) => {
            w.let_go(own);
            Err(HandleError::from(error))
        }
    }
}

/// The handle that an edit makes. If it makes none, it gives back the types of the side parts.
#[inline(always)]
fn make_from<'t, R: Wait>(
    w: &mut Work<'_, 't>,
    rt: &R,
    from: Untyped<'t>,
    by: Growth<'t>,
) -> Result<Handle<'t>, HandleError>
    requires fits { IsTrue (fits by.key (body_of from.form.now.recipe)) }
    requires shaped { HasShape (applied by.key (body_of from.form.now.recipe)) by.ty }
    requires light { by.weight ≤ 256 }
    requires few { 1 + length from.sides.items + length by.parts.held ≤ by.weight }
    requires ready { IsReady w.old 1 }
    requires held { HoldsTypes w.old (from.sides.items ++ by.parts.held) }
    ensures goes_on { GoesOn 1 w.old w.new }
    ensures makes { Makes (from.entry.form.now.recipe ++ by.entry.key ∷ []) w.old w.new result }
    ensures accepted { IsAccepted result }
    ensures grows { GrowsBy (untyped from.entry.form.now (types_of from.entry.sides.items)
        from.entry.fields.items) by.entry result }
    ensures types { TradesTypes (by.entry.ty ∷ []) (from.entry.sides.items ++ by.entry.parts.held)
        w.old w.new result }
{
    let Untyped {
        form,
        fields,
        mut sides,
    } = from;
    let Growth {
        ty,
        weight,
        key,
        parts,
    } = by;
    let Parts {
        fields: more,
        held: mut added,
    } = parts;
    match joined(fields, more, &mut sides, &mut added) {
        Ok(fields) => match typed_form(w, rt, ty, form, key) {
            Ok((own, form)) => Ok(Handle::of(own, weight, sides, form, fields)),
            Err(error) => {
                w.let_all_go(sides);
                Err(error)
            }
        },
        Err(NoMemory) => {
            w.let_all_go(sides);
            w.let_all_go(added);
            Err(HandleError::NoMemory)
        }
    }
}

impl<'t> Handle<'t> {
    /// The handle after an edit of its form. If none is made, the old handle and the parts of the
    /// growth are given back.
    #[inline(always)]
    pub fn grown<R: Wait>(
        self,
        w: &mut Work<'_, 't>,
        rt: &R,
        by: Growth<'t>,
    ) -> Result<Handle<'t>, HandleError>
        requires fits { IsTrue (fits by.key (handle_body self)) }
        requires shaped { HasShape (applied by.key (handle_body self)) by.ty }
        requires light { by.weight ≤ 256 }
        requires few { length self.held + length by.parts.held ≤ by.weight }
        requires ready { IsReady w.old 1 }
        requires held { HoldsTypes w.old (self.held ++ by.parts.held) }
        ensures goes_on { GoesOn 1 w.old w.new }
        ensures makes { Makes (self.entry.form.recipe ++ by.entry.key ∷ []) w.old w.new result }
        ensures accepted { IsAccepted result }
        ensures grows { GrowsBy self.entry by.entry result }
        ensures types { TradesTypes (by.entry.ty ∷ []) (self.entry.held ++ by.entry.parts.held)
            w.old w.new result }
    {
        let Handle {
            own,
            weight: _,
            sides,
            form,
            bound,
        } = self;
        let Bound { body: _, fields } = bound;
        let from = Untyped {
            form,
            fields,
            sides,
        };
        let made = make_from(w, rt, from, by);
        w.let_go(own);
        made
    }

    /// A handle whose form is made by a root. If none is made, the parts of the growth are given
    /// back.
    pub fn make_rooted<R: Wait>(
        w: &mut Work<'_, 't>,
        rt: &R,
        by: Growth<'t>,
    ) -> Result<Handle<'t>, HandleError>
        requires fits { IsTrue (fits by.key nothing) }
        requires shaped { HasShape (applied by.key nothing) by.ty }
        requires light { by.weight ≤ 256 }
        requires few { 1 + length by.parts.held ≤ by.weight }
        requires ready { IsReady w.old 1 }
        requires held { HoldsTypes w.old by.parts.held }
        ensures goes_on { GoesOn 1 w.old w.new }
        ensures makes { Makes (by.entry.key ∷ []) w.old w.new result }
        ensures accepted { IsAccepted result }
        ensures grows { GrowsBy base_handle by.entry result }
        ensures types { TradesTypes (by.entry.ty ∷ []) by.entry.parts.held w.old w.new result }
    {
        let from = Untyped {
            form: w.forms.base(),
            fields: Vec::new(w.alloc),
            sides: Vec::new(w.alloc),
        };
        make_from(w, rt, from, by)
    }
}

/// A list of one field.
pub fn one_field<'t>(alloc: Global, field: Field<'t>) -> Result<Fields<'t>, NoMemory>
    ensures { IfOk result (λ fields. fields.items ≡ field.entry ∷ []) }
{
    let mut fields = Vec::with_capacity(alloc, 1)?;
    fields.push_reserved(field);
    Ok(fields)
}

/// Moves the items of a list behind those of another. If memory runs out, all stay where they are.
#[inline(always)]
fn move_behind<T>(items: &mut Vec<T>, more: &mut Vec<T>) -> Result<(), NoMemory>
    ensures moved { OnOk result (items.new.items ≡ items.old.items ++ more.old.items) }
    ensures err { OnErr result
        ((items.new.items ≡ items.old.items) × (more.new.items ≡ more.old.items)) }
{
    if more.is_empty() {
        return Ok(());
    }
    if items.is_empty() {
        // No item is copied, and no memory is asked for.
        std::mem::swap(items, more);
        return Ok(());
    }
    items.append(more)?;
    Ok(())
}

/// Fields followed by others, and held types followed by others. If memory runs out, the types stay
/// where they are.
#[inline(always)]
fn joined<'t>(
    fields: Fields<'t>,
    more: FieldList<'t>,
    held: &mut Vec<HeldType>,
    added: &mut Vec<HeldType>,
) -> Result<Fields<'t>, NoMemory>
    ensures fields { IfOk result (λ all. all.items
        ≡ fields.entry.items ++ fields_in more.entry) }
    ensures held { OnOk result (held.new.items ≡ held.old.items ++ added.old.items) }
    ensures err { OnErr result
        ((held.new.items ≡ held.old.items) × (added.new.items ≡ added.old.items)) }
{
    let fields = more.after(fields)?;
    move_behind(held, added)?;
    Ok(fields)
}
