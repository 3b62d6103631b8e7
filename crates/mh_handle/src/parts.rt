ghost use Rattle.std.specs.Prelude.{◌≡◌, ◌<◌, ◌≤◌, ◌+◌, ◌^◌, ◌++◌, ◌∷◌, [], IfOk, OnOk, OnErr, option_to_list, vec_len, vec_capacity};
ghost use Rattle.mh_intern.specs.Exchanges.{Exchanges};
ghost use Rattle.mh_handle.specs.Fields.{HasRoom, fields_in};
ghost use Rattle.mh_handle.specs.Parts.{AddsHandle, no_parts};
ghost use Rattle.mh_handle.specs.Works.{HoldsTypes, IsUnchanged};

use crate::fields::FieldList;
use crate::handle::Handle;
use crate::work::Work;
use mh_base::NoMemory;
use mh_form::{Bound, Field, Fields};
use mh_intern::HeldType;
use std::alloc::Global;
use std::marker::Model;
use std::sync::Arc;

/// The fields that a combinator adds, and the types that its parts hold. Some of the fields hold
/// handles, which become parts of another handle.
#[derive(Drop)]
pub struct Parts<'t> {
    pub(crate) fields: FieldList<'t>,
    pub(crate) held: Vec<HeldType>,
}

impl<'t> Model for Parts<'t> {
    ghost use Rattle.std.specs.Prelude.{[]};
    ghost use Rattle.mh_handle.specs.Fields.{fields_in};
    ghost use Rattle.mh_handle.specs.Parts.{PartsView};

    ghost Value = { PartsView };

    ghost use Rattle.mh_form.specs.contracts.field.Field as field;
    ghost use Rattle.std.specs.Coded.{codes};
    ghost use mir.Syntax.{named};

    ghost coded = { Prim.hlevel (codes, (field.the_row (record { mir = named 0; lft = [] })).coded) };

    ghost use Rattle.mh_intern.specs.Exchanges.{types_of};

    ghost view = { λ p. record {
      fields = fields_in p.fields;
      sides = types_of p.held.items;
      held = p.held.items;
    } };
}

impl<'t> Parts<'t> {
    /// No field and no part.
    pub fn new(alloc: Global) -> Parts<'t>
        ensures { result ≡ no_parts }
    {
        Parts {
            fields: FieldList::of(alloc, None),
            held: Vec::new(alloc),
        }
    }

    /// At most one field, which holds no handle.
    pub fn of_field(alloc: Global, field: Option<Field<'t>>) -> Parts<'t>
        ensures { result ≡ record no_parts { fields = option_to_list field.entry } }
    {
        Parts {
            fields: FieldList::of(alloc, field),
            held: Vec::new(alloc),
        }
    }

    /// Fields none of which holds a handle.
    pub fn of_fields(alloc: Global, fields: Fields<'t>) -> Parts<'t>
        ensures { result ≡ record no_parts { fields = fields.entry.items } }
    {
        Parts {
            fields: FieldList::of_all(fields),
            held: Vec::new(alloc),
        }
    }

    /// Adds a handle as a part. If memory runs out, the handle is given back.
    pub fn push(&mut self, w: &mut Work<'_, 't>, handle: Handle<'t>) -> Result<(), NoMemory>
        requires of_types { w.old.seat.now.table ≡ w.old.types.now }
        requires held { HoldsTypes w.old handle.held }
        ensures ok { OnOk result (AddsHandle handle.entry self.old self.new) }
        ensures err { OnErr result (self.new ≡ self.old) }
        ensures unchanged { IsUnchanged w.old w.new }
        ensures kept { OnOk result (w.new.seat.now ≡ w.old.seat.now) }
        ensures given_back { OnErr result
            (Exchanges [] handle.entry.held [] w.old.seat.now w.new.seat.now) }
    {
        let Handle {
            own,
            weight: _,
            sides,
            form: _,
            bound,
        } = handle;
        match room_for(
            w.alloc,
            &mut self.fields,
            &mut self.held,
            bound,
            sides.len(),
        ) {
            Ok(part) => {
                self.fields.push_reserved(Field::Part(part));
                self.held.push_reserved(own);
                append_reserved(&mut self.held, sides);
                Ok(())
            }
            Err(NoMemory) => {
                w.let_go(own);
                w.let_all_go(sides);
                Err(NoMemory)
            }
        }
    }

    /// Adds a field that holds no handle.
    pub fn push_field(&mut self, field: Field<'t>) -> Result<(), NoMemory>
        ensures ok { OnOk result (self.new ≡ record self.old
            { fields = self.old.fields ++ field.entry ∷ [] }) }
        ensures err { OnErr result (self.new ≡ self.old) }
    {
        self.fields.push(field)?;
        Ok(())
    }

    /// Gives up the parts and releases the types that they hold. It takes no memory.
    pub fn give_back(self, w: &mut Work<'_, 't>)
        requires of_types { w.old.seat.now.table ≡ w.old.types.now }
        requires held { HoldsTypes w.old self.held }
        ensures unchanged { IsUnchanged w.old w.new }
        ensures types { Exchanges [] self.entry.held [] w.old.seat.now w.new.seat.now }
    {
        let Parts { fields: _, held } = self;
        w.let_all_go(held);
    }
}

// A body with its fields as a part. It also takes memory for the part's field, for the type of a
// handle and for `sides` side types. If memory runs out, nothing changes.
fn room_for<'t>(
    alloc: Global,
    fields: &mut FieldList<'t>,
    held: &mut Vec<HeldType>,
    bound: Bound<'t>,
    sides: usize,
) -> Result<Arc<Bound<'t>, Global>, NoMemory>
    requires few { sides < 2 ^ 32 }
    ensures part { IfOk result (λ part. part.value ≡ bound.entry) }
    ensures field { OnOk result (HasRoom fields.new) }
    ensures room { OnOk result (vec_len held.new + (1 + sides) ≤ vec_capacity held.new) }
    ensures fields { fields_in fields.new ≡ fields_in fields.old }
    ensures held { held.new.items ≡ held.old.items }
{
    let part = Arc::new(alloc, bound)?;
    fields.reserve()?;
    held.reserve(1 + sides)?;
    Ok(part)
}

// Appends held types to a list that has room for them.
fn append_reserved(held: &mut Vec<HeldType>, mut more: Vec<HeldType>)
    requires { vec_len held.old + vec_len more ≤ vec_capacity held.old }
    ensures { held.new.items ≡ held.old.items ++ more.items }
{
    let Ok(()) = held.append(&mut more) else {
        unreachable!()
    };
}
