ghost use Rattle.std.specs.Prelude.{◌≡◌, ◌∷◌, [], IfOk, map};
ghost use Rattle.mh_leaf.specs.LeafTable.{LeafTable};
ghost use Rattle.mh_tree.specs.Tree.{Tree};
ghost use Rattle.mh_form.specs.Run.{sense};
ghost use Rattle.mh_intern.specs.Exchanges.{Exchanges};
ghost use Rattle.mh_handle.specs.Stands.{IsShaped, Stands};
ghost use Rattle.mh_handle.specs.Works.{HoldsTypes, IsReady, IsUnchanged, CopiesTypes, TradesPair};

use crate::handle::Handle;
use crate::work::Work;
use mh_base::NoMemory;
use mh_form::copy_fields;
use mh_intern::HeldType;

impl<'t> Handle<'t> {
    /// A copy of the handle, which stands for the same tree and holds the same types. It asks for
    /// no type and no edit.
    pub fn copy(&self, w: &mut Work<'_, 't>) -> Result<Handle<'t>, NoMemory>
        requires ready { IsReady w.old 1 }
        requires held { HoldsTypes w.old self.now.held }
        ensures shaped { IsShaped self.now }
        ensures unchanged { IsUnchanged w.old w.new }
        ensures types { CopiesTypes w.old.seat.now result w.new.seat.now }
        ensures held { IfOk result (λ h. h.held ≡ self.now.held) }
        ensures form { IfOk result (λ h. h.form ≡ self.now.form) }
        ensures ty { IfOk result (λ h. h.ty ≡ self.now.ty) }
        ensures weight { IfOk result (λ h. h.weight ≡ self.now.weight) }
        ensures sides { IfOk result (λ h. h.sides ≡ self.now.sides) }
        ensures fields { (table : LeafTable) → IfOk result
            (λ h. map (sense table) h.fields ≡ map (sense table) self.now.fields) }
        ensures stands { (table : LeafTable) (t : Tree) → Stands table self.now t
            → IfOk result (λ h. Stands table h t) }
    {
        let fields = copy_fields(w.alloc, self.bound.fields.as_slice())?;
        let (own, sides) = self.holds_again(w)?;
        Ok(Handle::of(own, self.weight, sides, self.form, fields))
    }

    // One more hold of each type that the handle holds.
    fn holds_again(&self, w: &mut Work<'_, 't>) -> Result<(HeldType, Vec<HeldType>), NoMemory>
        requires ready { IsReady w.old 1 }
        requires held { HoldsTypes w.old self.now.held }
        ensures unchanged { IsUnchanged w.old w.new }
        ensures same { IfOk result (λ held. held.0 ∷ held.1.items ≡ self.now.held) }
        ensures types { TradesPair w.old.seat.now result w.new.seat.now }
    {
        let own = w.hold_again(&self.own)?;
        match w.hold_all_again(self.sides.as_slice()) {
            Ok(sides) => Ok((own, sides)),
            Err(NoMemory) => {
                w.let_go(own);
                Err(NoMemory)
            }
        }
    }

    /// Gives up the handle and releases the types that it holds. It takes no memory.
    pub fn give_back(self, w: &mut Work<'_, 't>)
        requires of_types { w.old.seat.now.table ≡ w.old.types.now }
        requires held { HoldsTypes w.old self.held }
        ensures unchanged { IsUnchanged w.old w.new }
        ensures types { Exchanges [] self.entry.held [] w.old.seat.now w.new.seat.now }
    {
        let Handle {
            own,
            weight: _,
            sides,
            form: _,
            bound: _,
        } = self;
        w.let_go(own);
        w.let_all_go(sides);
    }
}
