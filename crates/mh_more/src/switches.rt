ghost use Rattle.std.specs.Prelude.{◌≡◌, ◌≤◌, ◌+◌, ◌*◌, ◌++◌, ◌∷◌, [], Err, IfOk, Ok, length};
ghost use Rattle.mh_tree.specs.Check.{TellsRow};
ghost use Rattle.mh_tree.specs.Rows.{most_cases, switch_row};
ghost use Rattle.mh_tree.specs.Tree.{Cases, Tree};
ghost use Rattle.mh_tree.specs.Tree as tree;
ghost use Rattle.mh_intern.specs.Exchanges.{Exchanges};
ghost use Rattle.mh_handle.specs.Errors.{of_check};
ghost use Rattle.mh_handle.specs.Obeys.{Obeys};
ghost use Rattle.mh_handle.specs.Recipe.{recipe, switch_key};
ghost use Rattle.mh_handle.specs.Stands.{IsShaped};
ghost use Rattle.mh_handle.specs.Works.{GoesOn, HoldsTypes, IsAccepted, IsReady, IsUnchanged};
ghost use Rattle.mh_handle.specs.Works.{Makes, StandsIn, TradesTypes, leaves_of, types_in};
ghost use Rattle.mh_more.specs.Roots.{IsRoot};
ghost use Rattle.mh_more.specs.Several.{AreAllShaped, HasParts, StandForCases, holds_of};
ghost use Rattle.mh_more.specs.Several.{own_types, weights_of};

use crate::several::{Handles, Root, give_back_all, make_rooted_of, with_first};
use mh_base::{Copied, NoMemory, Seq};
use mh_edit::Key;
use mh_form::shape;
use mh_handle::{Handle, HandleError, Work};
use mh_tree::{CheckError, check_switch};
use mh_values::MethodTy;
use std::alloc::Global;
use std::sync::Wait;

/// The most cases of a switch.
const MOST_CASES: usize = 16;

/// The handles of a switch: the fallback, and the cases from the first on.
#[derive(Drop)]
pub struct Switched<'t> {
    pub fallback: Handle<'t>,
    pub cases: Handles<'t>,
}

/// The types of handles.
fn own_types<'t>(alloc: Global, handles: &[Handle<'t>]) -> Result<Seq<MethodTy>, NoMemory>
    ensures { IfOk result (λ types. types ≡ own_types handles.now) }
{
    let mut types = Seq::new(alloc);
    for handle in handles {
        types.push(handle.ty().copy(alloc)?)?;
    }
    Ok(types)
}

/// What a few handles weigh together. None of them holds more types than it weighs.
fn weight_of<'t>(handles: &[Handle<'t>]) -> u32
    requires few { length handles.now ≤ most_cases }
    ensures weight { result ≡ weights_of handles.now }
    ensures light { result ≤ 256 * length handles.now }
    ensures shaped { AreAllShaped handles.now }
{
    match handles {
        [] => 0,
        [first, others @ ..] => {
            let _ty = first.ty();
            first.weight() + weight_of(others)
        }
    }
}

/// What the cases weigh together. Nothing is said of more cases than a switch may have.
fn cases_weight<'t>(cases: &[Handle<'t>]) -> u32
    ensures { length cases.now ≤ most_cases → result ≡ weights_of cases.now }
{
    if cases.len() > MOST_CASES {
        return 0;
    }
    weight_of(cases)
}

impl<'t> Switched<'t> {
    /// The type of a switch of these handles.
    fn ty(&self, w: &Work<'_, 't>) -> Result<MethodTy, CheckError>
        ensures { TellsRow result (switch_row self.now.fallback.ty self.now.fallback.weight
            (own_types self.now.cases) (weights_of self.now.cases)) }
    {
        let types = own_types(w.alloc, self.cases.as_slice())?;
        check_switch(
            w.alloc,
            self.fallback.ty(),
            self.fallback.weight(),
            types.as_slice(),
            cases_weight(self.cases.as_slice()),
            w.classes(),
        )
    }

    /// What the root of the switch makes, if the rule gives this type.
    fn root(&self, alloc: Global, ty: MethodTy) -> Result<Root, NoMemory>
        requires few { length self.now.cases ≤ most_cases }
        requires ruled { switch_row self.now.fallback.ty self.now.fallback.weight
            (own_types self.now.cases) (weights_of self.now.cases) ≡ Ok ty }
        ensures root { IfOk result (IsRoot ty
            (1 + self.now.fallback.weight + weights_of self.now.cases)
            (switch_key self.now.fallback.ty (length self.now.cases))) }
        ensures shaped { IsShaped self.now.fallback × AreAllShaped self.now.cases }
    {
        let _ty = self.fallback.ty();
        let weight = 1 + self.fallback.weight() + weight_of(self.cases.as_slice());
        let key = Key::SwitchRoot {
            shape: shape(alloc, &ty)?,
            count: self.cases.len() as u8,
        };
        Ok(Root { ty, weight, key })
    }

    /// Gives back the handles of a switch, and answers the refusal.
    fn refuse(self, w: &mut Work<'_, 't>, error: CheckError) -> Result<Handle<'t>, HandleError>
        requires of_types { w.old.seat.now.table ≡ w.old.types.now }
        requires held { HoldsTypes w.old (self.fallback.held ++ holds_of self.cases) }
        ensures unchanged { IsUnchanged w.old w.new }
        ensures error { result ≡ Err (of_check error) }
        ensures types { Exchanges [] (self.entry.fallback.held ++ holds_of self.entry.cases) []
            w.old.seat.now w.new.seat.now }
    {
        let Switched { fallback, cases } = self;
        give_back_all(w, cases.into_vec());
        fallback.refuse(w, error)
    }
}

/// A switch of handles, if its rule gives this type. If none is made, the handles are given back.
pub fn switch_of<'t, R: Wait>(
    w: &mut Work<'_, 't>,
    rt: &R,
    switched: Switched<'t>,
    ty: MethodTy,
) -> Result<Handle<'t>, HandleError>
    requires ruled { switch_row switched.fallback.ty switched.fallback.weight
        (own_types switched.cases) (weights_of switched.cases) ≡ Ok ty }
    requires ready { IsReady w.old 1 }
    requires held { HoldsTypes w.old (switched.fallback.held ++ holds_of switched.cases) }
    ensures goes_on { GoesOn 1 w.old w.new }
    ensures accepted { IsAccepted result }
    ensures typed { IfOk result (λ h. h.ty ≡ ty) }
    ensures makes { (a : Tree) (cs : Cases) → StandsIn w.old switched.entry.fallback a
        → StandForCases (leaves_of w.old) switched.entry.cases cs
        → Makes (recipe (leaves_of w.old) (tree.Switch a cs)) w.old w.new result }
    ensures types { TradesTypes (ty ∷ [])
        (switched.entry.fallback.held ++ holds_of switched.entry.cases) w.old w.new result }
    ensures gains { IfOk result
        (HasParts 1 (switched.entry.fallback ∷ switched.entry.cases)) }
    ensures stands { (a : Tree) (cs : Cases) → StandsIn w.old switched.entry.fallback a
        → StandForCases (leaves_of w.old) switched.entry.cases cs
        → IfOk result (λ h. StandsIn w.old h (tree.Switch a cs)) }
{
    match switched.root(w.alloc, ty) {
        Ok(root) => {
            let Switched { fallback, cases } = switched;
            let handles = with_first(w, fallback, cases)?;
            make_rooted_of(w, rt, handles, root)
        }
        Err(NoMemory) => switched.refuse(w, CheckError::NoMemory),
    }
}

/// A handle that runs one of `cases` on all arguments: the one whose number, from 0 on, the first
/// argument is, or `fallback` if it numbers none (`MethodHandles.tableSwitch`, SE 17). Refused if
/// there are no cases or more than 16, if they differ from `fallback` in type, or if the first
/// parameter is no `int`.
pub fn switch<'t, R: Wait>(
    w: &mut Work<'_, 't>,
    rt: &R,
    fallback: Handle<'t>,
    cases: Handles<'t>,
) -> Result<Handle<'t>, HandleError>
    requires ready { IsReady w.old 1 }
    requires held { HoldsTypes w.old (fallback.held ++ holds_of cases) }
    ensures goes_on { GoesOn 1 w.old w.new }
    ensures obeys { Obeys (switch_row fallback.entry.ty fallback.entry.weight
        (own_types cases.entry) (weights_of cases.entry)) result }
    ensures makes { (a : Tree) (cs : Cases) → StandsIn w.old fallback.entry a
        → StandForCases (leaves_of w.old) cases.entry cs
        → Makes (recipe (leaves_of w.old) (tree.Switch a cs)) w.old w.new result }
    ensures types { TradesTypes (types_in (switch_row fallback.entry.ty fallback.entry.weight
        (own_types cases.entry) (weights_of cases.entry)))
        (fallback.entry.held ++ holds_of cases.entry) w.old w.new result }
    ensures gains { IfOk result (HasParts 1 (fallback.entry ∷ cases.entry)) }
    ensures stands { (a : Tree) (cs : Cases) → StandsIn w.old fallback.entry a
        → StandForCases (leaves_of w.old) cases.entry cs
        → IfOk result (λ h. StandsIn w.old h (tree.Switch a cs)) }
{
    let switched = Switched { fallback, cases };
    match switched.ty(w) {
        Ok(ty) => switch_of(w, rt, switched, ty),
        Err(error) => switched.refuse(w, error),
    }
}
