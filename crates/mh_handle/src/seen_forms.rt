ghost use Rattle.std.specs.Prelude.{◌≡◌, ◌++◌, ◌∷◌, [], length, map, OnOk, OnErr, IfOk};
ghost use Rattle.mh_setonce.specs.Walks.{Lacks, FindsNode};
ghost use Rattle.mh_handle.specs.Index.{recipe_of};
ghost use Rattle.mh_handle.specs.Joins.{unasked};

use crate::form::Form;
use crate::sought::Sought;
use mh_base::NoMemory;
use mh_setonce::Places;
use std::alloc::Global;
use std::marker::Model;
use std::mem;

/// The forms that a pass has asked for, found by their recipes. Contracts see the list of them.
#[derive(Drop)]
pub(crate) struct SeenForms<'t> {
    forms: Vec<&'t Form>,
    places: Places,
}

impl<'t> Model for SeenForms<'t> {
    ghost use Rattle.std.specs.Prelude.{◌<◌, ◌^◌, List, length, map};
    ghost use Rattle.mh_handle.specs.Form.{FormView};

    ghost Value = { List FormView };

    ghost use Rattle.mh_handle.specs.Index.{AreSeen};

    ghost view = { λ s. map (λ f. f.now) s.forms.items };

    ghost invariant = { λ s. AreSeen (map (λ f. f.now) s.forms.items) s.places.hashes × (length s.forms.items < 2 ^ 32) };
}

impl<'t> SeenForms<'t> {
    /// No forms. It takes no memory.
    pub(crate) fn new(alloc: Global) -> SeenForms<'t>
        ensures { result ≡ [] }
    {
        SeenForms {
            forms: Vec::new(alloc),
            places: Places::new(alloc),
        }
    }

    /// The forms, in the order in which they were asked for.
    pub(crate) fn as_slice(&self) -> &[&'t Form]
        ensures { map (λ f. f.now) result.now ≡ self.now }
    {
        self.forms.as_slice()
    }

    pub(crate) fn len(&self) -> u32
        ensures { result ≡ length self.now }
    {
        self.forms.len() as u32
    }

    /// The form of a recipe, if it was asked for. It takes no memory.
    pub(crate) fn find<S: Sought>(&self, sought: &S) -> Option<&'t Form>
        ensures { FindsNode recipe_of self.now (S.recipe sought.now) result }
    {
        let mut next = self.places.latest(sought.hash());
        while let Some(place) = next {
            let form = self.forms[place];
            if sought.is_recipe(form.recipe()) {
                return Some(form);
            }
            next = self.places.earlier(place);
        }
        None
    }

    /// A list of the same forms.
    pub(crate) fn copy(&self) -> Result<SeenForms<'t>, NoMemory>
        ensures { IfOk result (λ copy. copy ≡ self.now) }
    {
        let alloc = *self.forms.allocator();
        Ok(SeenForms {
            forms: Vec::from_slice(alloc, self.forms.as_slice())?,
            places: self.places.copy()?,
        })
    }

    /// A list of the same forms, followed by those of another list that have other recipes.
    fn joined(&self, others: &SeenForms<'t>) -> Result<SeenForms<'t>, NoMemory>
        ensures { IfOk result (λ all. all ≡ self.now ++ unasked self.now others.now) }
    {
        let mut all = self.copy()?;
        for form in others.forms.as_slice() {
            if all.find(form.recipe()).is_none() {
                all.add(form)?;
            }
        }
        Ok(all)
    }

    /// Adds those of other forms that have other recipes. If no memory is left, it adds none.
    pub(crate) fn add_all(&mut self, others: &SeenForms<'t>) -> Result<(), NoMemory>
        ensures ok { OnOk result (self.new ≡ self.old ++ unasked self.old others.now) }
        ensures err { OnErr result (self.new ≡ self.old) }
    {
        let joined = self.joined(others)?;
        let _before = mem::replace(self, joined);
        Ok(())
    }

    /// Takes memory for one more form.
    pub(crate) fn reserve(&mut self) -> Result<(), NoMemory>
        ensures { self.new ≡ self.old }
    {
        self.forms.reserve(1)?;
        self.places.reserve()?;
        Ok(())
    }

    /// Adds a form whose recipe no form in the list has.
    pub(crate) fn add(&mut self, form: &'t Form) -> Result<(), NoMemory>
        requires { Lacks recipe_of self.old form.now.recipe }
        ensures ok { OnOk result (self.new ≡ self.old ++ form.entry.now ∷ []) }
        ensures err { OnErr result (self.new ≡ self.old) }
    {
        if self.forms.len() >= u32::MAX as usize {
            return Err(NoMemory);
        }
        self.forms.reserve(1)?;
        self.places.reserve()?;
        self.places.add(form.recipe().hash());
        self.forms.push_reserved(form);
        Ok(())
    }
}
