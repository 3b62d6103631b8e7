//! Fields that a combinator adds.

ghost use Rattle.std.specs.Prelude.{◌≡◌, ◌++◌, ◌∷◌, [], IfOk, MatchBool, OnOk, OnErr, option_to_list};
ghost use Rattle.mh_handle.specs.Fields.{HasNone, HasRoom, fields_in};

use mh_base::NoMemory;
use mh_form::{Field, Fields};
use std::alloc::Global;

/// A list of fields. The first one stands in line, since most combinators add one field at most.
#[derive(Drop)]
pub(crate) struct FieldList<'t> {
    first: Option<Field<'t>>,
    others: Fields<'t>,
}

impl<'t> FieldList<'t> {
    /// A list of one field, or of none.
    pub(crate) fn of(alloc: Global, first: Option<Field<'t>>) -> FieldList<'t>
        ensures { fields_in result ≡ option_to_list first.entry }
    {
        FieldList {
            first,
            others: Vec::new(alloc),
        }
    }

    /// A list of these fields.
    pub(crate) fn of_all(fields: Fields<'t>) -> FieldList<'t>
        ensures { fields_in result ≡ fields.entry.items }
    {
        FieldList {
            first: None,
            others: fields,
        }
    }

    // Whether it has no field.
    fn is_empty(&self) -> bool
        ensures { MatchBool result (HasNone self.now) (¬ (HasNone self.now)) }
    {
        self.first.is_none() && self.others.is_empty()
    }

    /// Makes room for one more field. If memory runs out, nothing changes.
    pub(crate) fn reserve(&mut self) -> Result<(), NoMemory>
        ensures same { fields_in self.new ≡ fields_in self.old }
        ensures room { OnOk result (HasRoom self.new) }
    {
        if self.is_empty() {
            return Ok(());
        }
        self.others.reserve(1)?;
        Ok(())
    }

    /// Puts a field at the end. There must be room for it.
    pub(crate) fn push_reserved(&mut self, field: Field<'t>)
        requires { HasRoom self.old }
        ensures { fields_in self.new ≡ fields_in self.old ++ field.entry ∷ [] }
    {
        if self.is_empty() {
            self.first = Some(field);
        } else {
            self.others.push_reserved(field);
        }
    }

    /// Puts a field at the end. If memory runs out, nothing changes.
    pub(crate) fn push(&mut self, field: Field<'t>) -> Result<(), NoMemory>
        ensures ok { OnOk result (fields_in self.new ≡ fields_in self.old ++ field.entry ∷ []) }
        ensures err { OnErr result (fields_in self.new ≡ fields_in self.old) }
    {
        self.reserve()?;
        self.push_reserved(field);
        Ok(())
    }

    /// Other fields with these after them.
    pub(crate) fn after(self, fields: Fields<'t>) -> Result<Fields<'t>, NoMemory>
        ensures { IfOk result (λ all. all.items ≡ fields.entry.items ++ fields_in self.entry) }
    {
        let FieldList { first, mut others } = self;
        let mut all = fields;
        if let Some(field) = first {
            all.push(field)?;
        }
        if !others.is_empty() {
            all.append(&mut others)?;
        }
        Ok(all)
    }
}
