ghost use Rattle.std.specs.Prelude.{◌≡◌, ◌+◌, ◌≤◌, ◌∷◌, length, false};
ghost use Rattle.mh_edit.specs.Fit.{is_nothing};
ghost use Rattle.mh_intern.specs.Exchanges.{types_of};
ghost use Rattle.mh_handle.specs.Form.{body_of};
ghost use Rattle.mh_handle.specs.Stands.{HasShape, IsShaped};

use crate::form::Form;
use mh_form::{Bound, Field, Fields};
use mh_intern::HeldType;
use mh_values::MethodTy;
use std::marker::Model;

/// A method handle (`java.lang.invoke.MethodHandle`). It has a form with the fields that the form
/// runs on, and the weight of the combinator tree that made it. It holds its type and the types of
/// its side parts. Handles of equal recipes share one form.
#[derive(Drop)]
pub struct Handle<'t> {
    pub(crate) own: HeldType,
    pub(crate) weight: u32,
    pub(crate) sides: Vec<HeldType>,
    pub(crate) form: &'t Form,
    pub(crate) bound: Bound<'t>,
}

impl<'t> Model for Handle<'t> {
    ghost use Rattle.std.specs.Prelude.{◌≡◌, ◌+◌, ◌≤◌, ◌∷◌, [], length};
    ghost use Rattle.mh_handle.specs.Stands.{HandleView};

    ghost Value = { HandleView };

    ghost use Rattle.mh_form.specs.contracts.field.Field as field;
    ghost use Rattle.std.specs.Coded.{codes};
    ghost use mir.Syntax.{named};

    ghost coded = { Prim.hlevel (codes, (field.the_row (record { mir = named 0; lft = [] })).coded) };

    ghost use Rattle.mh_intern.specs.Exchanges.{types_of};
    ghost use Rattle.mh_handle.specs.Form.{body_of};

    ghost view = { λ h. record {
      ty = h.own.entry.ty;
      weight = h.weight;
      sides = types_of h.sides.items;
      form = h.form.now;
      fields = h.bound.fields.items;
      held = h.own ∷ h.sides.items;
    } };

    ghost use Rattle.std.specs.Prelude.{false};
    ghost use Rattle.mh_edit.specs.Fit.{is_nothing};
    ghost use Rattle.mh_handle.specs.Stands.{HasShape};

    ghost invariant = { λ h. (h.bound.body.now ≡ body_of h.form.now.recipe) × (h.weight ≤ 256)
        × (is_nothing (body_of h.form.now.recipe) ≡ false)
        × HasShape (body_of h.form.now.recipe) h.own.entry.ty
        × (1 + length h.sides.items ≤ h.weight) };
}

impl<'t> Handle<'t> {
    /// A handle from a hold of its type, a form with its fields, and holds of the types of its side
    /// parts.
    pub(crate) fn of(
        own: HeldType,
        weight: u32,
        sides: Vec<HeldType>,
        form: &'t Form,
        fields: Fields<'t>,
    ) -> Handle<'t>
        requires light { weight ≤ 256 }
        requires few { 1 + length sides.items ≤ weight }
        requires made { is_nothing (body_of form.now.recipe) ≡ false }
        requires shaped { HasShape (body_of form.now.recipe) own.entry.ty }
        ensures ty { result.ty ≡ own.entry.ty }
        ensures weight { result.weight ≡ weight }
        ensures sides { result.sides ≡ types_of sides.items }
        ensures held { result.held ≡ own ∷ sides.items }
        ensures form { result.form ≡ form.entry.now }
        ensures fields { result.fields ≡ fields.entry.items }
    {
        let bound = Bound {
            body: form.body(),
            fields,
        };
        Handle {
            own,
            weight,
            sides,
            form,
            bound,
        }
    }

    /// The handle's type. The form's parameters are those of the type, erased.
    pub fn ty(&self) -> &MethodTy
        ensures ty { result.now ≡ self.now.ty }
        ensures shaped { IsShaped self.now }
    {
        self.own.ty()
    }

    /// The number of nodes of the handle's tree, at most 256.
    pub fn weight(&self) -> u32
        ensures weight { result ≡ self.now.weight }
        ensures light { result ≤ 256 }
    {
        self.weight
    }

    /// How many types the handle holds: its own, and for each side part those that the part holds.
    pub fn types_held(&self) -> usize
        ensures types { result ≡ length self.now.held }
    {
        1 + self.sides.len()
    }

    /// The handle's form.
    pub fn form(&self) -> &'t Form
        ensures { result.now ≡ self.now.form }
    {
        self.form
    }

    /// The fields that the form runs on. Those of kind `Part` hold the handle's side parts.
    pub fn fields(&self) -> &[Field<'t>]
        ensures { result.now ≡ self.now.fields }
    {
        self.bound.fields.as_slice()
    }
}
