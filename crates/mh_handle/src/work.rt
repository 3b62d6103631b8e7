ghost use Rattle.std.specs.Prelude.{◌≡◌, ◌≤◌, ◌++◌, ◌∷◌, [], IsTrue, length, IfOk};
ghost use Rattle.mh_values.specs.Classes.{AreClasses};
ghost use Rattle.mh_edit.specs.Fit.{fits};
ghost use Rattle.mh_intern.specs.Exchanges.{Exchanges, came_of_all};
ghost use Rattle.mh_handle.specs.Form.{body_of};
ghost use Rattle.mh_handle.specs.Passes.{Edits, IsPassOf};
ghost use Rattle.mh_handle.specs.Works.{GoesOn, HoldsTypes, IsReady, IsUnchanged, TradesCopy, TradesHold};

use crate::error::EditError;
use crate::form::Form;
use crate::pass::FormPass;
use crate::table::FormTable;
use mh_base::NoMemory;
use mh_edit::Key;
use mh_intern::{HeldType, InternError, TypeSeat, TypeTable};
use mh_leaves::Leaves;
use mh_values::{Classes, MethodTy};
use std::alloc::Global;
use std::sync::Wait;

/// What a thread needs to make handles. It has the allocator, the table of types with the thread's
/// own seat, the table of forms with the thread's own pass, and the leaves of the run.
pub struct Work<'w, 't> {
    pub alloc: Global,
    pub types: &'t TypeTable,
    pub seat: &'w mut TypeSeat,
    pub forms: &'t FormTable,
    pub pass: &'w mut FormPass<'t>,
    pub leaves: &'t Leaves,
}

impl<'w, 't> Work<'w, 't> {
    /// The classes of the leaves.
    pub fn classes(&self) -> &'t Classes
        ensures classes { result.now ≡ self.now.leaves.now.classes }
        ensures are { AreClasses self.now.leaves.now.classes }
    {
        let classes = self.leaves.classes();
        let _count = classes.len();
        classes
    }

    /// The form whose recipe is that of `form` followed by the key. If the pass has asked for it
    /// before, that takes no memory. If the table's chain has it, that draws no number. Otherwise
    /// the form is made.
    ///
    /// It answers `FormsFull` if the number drawn is above 16,384. A number that was drawn by a
    /// call that fails is spent.
    pub fn edit<R: Wait>(&mut self, rt: &R, form: &'t Form, key: Key) -> Result<&'t Form, EditError>
        requires fits { IsTrue (fits key (body_of form.now.recipe)) }
        requires of_forms { IsPassOf self.old.forms.now self.old.pass.now }
        requires room { 1 ≤ self.old.pass.now.seat.room }
        ensures goes_on { GoesOn 1 self.old self.new }
        ensures edits { Edits (form.entry.now.recipe ++ key ∷ []) self.old.pass.now
            self.new.pass.now result }
        ensures seat { self.new.seat.now ≡ self.old.seat.now }
    {
        self.forms.edit(rt, self.alloc, self.pass, form, key)
    }

    /// A hold of a type.
    pub(crate) fn hold<R: Wait>(&mut self, rt: &R, ty: MethodTy) -> Result<HeldType, InternError>
        requires ready { IsReady self.old 1 }
        ensures unchanged { IsUnchanged self.old self.new }
        ensures ty { IfOk result (λ held. held.entry.ty ≡ ty) }
        ensures types { TradesHold ty self.old.seat.now result self.new.seat.now }
    {
        self.types.intern(rt, self.alloc, self.seat, ty)
    }

    /// One more hold of the same type.
    pub(crate) fn hold_again(&mut self, held: &HeldType) -> Result<HeldType, NoMemory>
        requires of_types { self.old.seat.now.table ≡ self.old.types.now }
        requires held { HoldsTypes self.old (held.now ∷ []) }
        requires room { 1 ≤ self.old.seat.now.room }
        ensures unchanged { IsUnchanged self.old self.new }
        ensures same { IfOk result (λ copy. copy ≡ held.now) }
        ensures types { TradesCopy self.old.seat.now result self.new.seat.now }
    {
        self.types.dup(self.alloc, self.seat, held)
    }

    /// One more hold of each of these types.
    pub(crate) fn hold_all_again(&mut self, held: &[HeldType]) -> Result<Vec<HeldType>, NoMemory>
        requires of_types { self.old.seat.now.table ≡ self.old.types.now }
        requires held { HoldsTypes self.old held.now }
        requires room { length held.now ≤ self.old.seat.now.room }
        ensures unchanged { IsUnchanged self.old self.new }
        ensures same { IfOk result (λ copies. copies.items ≡ held.now) }
        ensures types { Exchanges [] [] (came_of_all result) self.old.seat.now self.new.seat.now }
    {
        self.types.dup_all(self.alloc, self.seat, held)
    }

    /// Releases a hold. It takes no memory.
    pub(crate) fn let_go(&mut self, held: HeldType)
        requires of_types { self.old.seat.now.table ≡ self.old.types.now }
        requires held { HoldsTypes self.old (held ∷ []) }
        ensures unchanged { IsUnchanged self.old self.new }
        ensures types { Exchanges [] (held ∷ []) [] self.old.seat.now self.new.seat.now }
    {
        self.types.release(self.seat, held);
    }

    /// Releases several holds. It takes no memory.
    pub(crate) fn let_all_go(&mut self, held: Vec<HeldType>)
        requires of_types { self.old.seat.now.table ≡ self.old.types.now }
        requires held { HoldsTypes self.old held.items }
        ensures unchanged { IsUnchanged self.old self.new }
        ensures types { Exchanges [] held.items [] self.old.seat.now self.new.seat.now }
    {
        self.types.release_all(self.seat, held);
    }
}
