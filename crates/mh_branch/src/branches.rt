ghost use Rattle.std.specs.Prelude.{◌≡◌, ◌+◌, ◌++◌, ◌∷◌, [], Err, IfOk, Ok};
ghost use Rattle.mh_tree.specs.Check.{TellsRow};
ghost use Rattle.mh_tree.specs.Rows.{guard_row, catch_row};
ghost use Rattle.mh_tree.specs.Tree.{Tree};
ghost use Rattle.mh_tree.specs.Tree as tree;
ghost use Rattle.mh_intern.specs.Exchanges.{Exchanges};
ghost use Rattle.mh_handle.specs.Errors.{of_check};
ghost use Rattle.mh_handle.specs.Obeys.{Obeys};
ghost use Rattle.mh_handle.specs.Recipe.{recipe};
ghost use Rattle.mh_handle.specs.Works.{GoesOn, HoldsTypes, IsAccepted, IsReady, IsUnchanged};
ghost use Rattle.mh_handle.specs.Works.{Makes, StandsIn, TradesTypes, classes_of, leaves_of};
ghost use Rattle.mh_handle.specs.Works.{types_in};
ghost use Rattle.mh_branch.specs.Growths.{HasBranches, HasHandler};

use crate::growths::{Branches, Caught, catch_key, catch_parts, guard_key, guard_parts};
use mh_base::NoMemory;
use mh_handle::{Growth, Handle, HandleError, Work};
use mh_tree::{CheckError, check_catch, check_guard};
use mh_values::{ClassId, MethodTy};
use std::sync::Wait;

impl<'t> Branches<'t> {
    /// The type of a guard of these handles.
    fn ty(&self, w: &Work<'_, 't>) -> Result<MethodTy, CheckError>
        ensures tells { TellsRow result (guard_row self.now.test.ty self.now.test.weight
            self.now.target.ty self.now.target.weight
            self.now.fallback.ty self.now.fallback.weight) }
    {
        check_guard(
            w.alloc,
            self.test.ty(),
            self.test.weight(),
            self.target.ty(),
            self.target.weight(),
            self.fallback.ty(),
            self.fallback.weight(),
            w.classes(),
        )
    }

    /// Gives back the handles of a guard, and answers the refusal.
    fn refuse(self, w: &mut Work<'_, 't>, error: CheckError) -> Result<Handle<'t>, HandleError>
        requires of_types { w.old.seat.now.table ≡ w.old.types.now }
        requires held { HoldsTypes w.old
            (self.test.held ++ self.target.held ++ self.fallback.held) }
        ensures unchanged { IsUnchanged w.old w.new }
        ensures error { result ≡ Err (of_check error) }
        ensures types { Exchanges []
            (self.entry.test.held ++ self.entry.target.held ++ self.entry.fallback.held) []
            w.old.seat.now w.new.seat.now }
    {
        let Branches {
            test,
            target,
            fallback,
        } = self;
        test.give_back(w);
        target.give_back(w);
        fallback.refuse(w, error)
    }
}

/// A guard of handles, if its rule gives this type. If none is made, the handles are given back.
pub fn guard_of<'t, R: Wait>(
    w: &mut Work<'_, 't>,
    rt: &R,
    branches: Branches<'t>,
    ty: MethodTy,
) -> Result<Handle<'t>, HandleError>
    requires ruled { guard_row branches.test.ty branches.test.weight
        branches.target.ty branches.target.weight
        branches.fallback.ty branches.fallback.weight ≡ Ok ty }
    requires ready { IsReady w.old 1 }
    requires held { HoldsTypes w.old
        (branches.test.held ++ branches.target.held ++ branches.fallback.held) }
    ensures goes_on { GoesOn 1 w.old w.new }
    ensures accepted { IsAccepted result }
    ensures typed { IfOk result (λ h. h.ty ≡ ty) }
    ensures makes { (a b d : Tree) → StandsIn w.old branches.entry.test a
        → StandsIn w.old branches.entry.target b → StandsIn w.old branches.entry.fallback d
        → Makes (recipe (leaves_of w.old) (tree.Guard a b d)) w.old w.new result }
    ensures types { TradesTypes (ty ∷ []) (branches.entry.test.held
        ++ branches.entry.target.held ++ branches.entry.fallback.held) w.old w.new result }
    ensures gains { IfOk result
        (HasBranches branches.entry.test branches.entry.target branches.entry.fallback) }
    ensures stands { (a b d : Tree) → StandsIn w.old branches.entry.test a
        → StandsIn w.old branches.entry.target b → StandsIn w.old branches.entry.fallback d
        → IfOk result (λ h. StandsIn w.old h (tree.Guard a b d)) }
{
    let weight = branches.weight();
    match guard_key(w.alloc, &ty, &branches.test) {
        Ok(key) => {
            let parts = guard_parts(w, branches)?;
            let by = Growth {
                ty,
                weight,
                key,
                parts,
            };
            Handle::make_rooted(w, rt, by)
        }
        Err(NoMemory) => branches.refuse(w, CheckError::NoMemory),
    }
}

/// A handle that runs `target` if `test` returns true on the first arguments, otherwise `fallback`
/// (`MethodHandles.guardWithTest`, SE 17). Refused if `target` and `fallback` differ in type, or if
/// `test` does not return a boolean or does not take the first parameters of `target`.
pub fn guard<'t, R: Wait>(
    w: &mut Work<'_, 't>,
    rt: &R,
    test: Handle<'t>,
    target: Handle<'t>,
    fallback: Handle<'t>,
) -> Result<Handle<'t>, HandleError>
    requires ready { IsReady w.old 1 }
    requires held { HoldsTypes w.old (test.held ++ target.held ++ fallback.held) }
    ensures goes_on { GoesOn 1 w.old w.new }
    ensures obeys { Obeys (guard_row test.entry.ty test.entry.weight
        target.entry.ty target.entry.weight fallback.entry.ty fallback.entry.weight) result }
    ensures makes { (a b d : Tree) → StandsIn w.old test.entry a
        → StandsIn w.old target.entry b → StandsIn w.old fallback.entry d
        → Makes (recipe (leaves_of w.old) (tree.Guard a b d)) w.old w.new result }
    ensures types { TradesTypes (types_in
        (guard_row test.entry.ty test.entry.weight target.entry.ty target.entry.weight
        fallback.entry.ty fallback.entry.weight))
        (test.entry.held ++ target.entry.held ++ fallback.entry.held) w.old w.new result }
    ensures gains { IfOk result (HasBranches test.entry target.entry fallback.entry) }
    ensures stands { (a b d : Tree) → StandsIn w.old test.entry a
        → StandsIn w.old target.entry b → StandsIn w.old fallback.entry d
        → IfOk result (λ h. StandsIn w.old h (tree.Guard a b d)) }
{
    let branches = Branches {
        test,
        target,
        fallback,
    };
    match branches.ty(w) {
        Ok(ty) => guard_of(w, rt, branches, ty),
        Err(error) => branches.refuse(w, error),
    }
}

impl<'t> Caught<'t> {
    /// The type of a catch of these handles.
    fn ty(&self, w: &Work<'_, 't>) -> Result<MethodTy, CheckError>
        ensures tells { TellsRow result (catch_row (classes_of w.now)
            self.now.target.ty self.now.target.weight self.now.class
            self.now.handler.ty self.now.handler.weight) }
    {
        check_catch(
            w.alloc,
            self.target.ty(),
            self.target.weight(),
            self.class,
            self.handler.ty(),
            self.handler.weight(),
            w.classes(),
        )
    }

    /// Gives back the handles of a catch, and answers the refusal.
    fn refuse(self, w: &mut Work<'_, 't>, error: CheckError) -> Result<Handle<'t>, HandleError>
        requires of_types { w.old.seat.now.table ≡ w.old.types.now }
        requires held { HoldsTypes w.old (self.target.held ++ self.handler.held) }
        ensures unchanged { IsUnchanged w.old w.new }
        ensures error { result ≡ Err (of_check error) }
        ensures types { Exchanges [] (self.entry.target.held ++ self.entry.handler.held) []
            w.old.seat.now w.new.seat.now }
    {
        let Caught {
            target,
            class: _class,
            handler,
        } = self;
        target.give_back(w);
        handler.refuse(w, error)
    }
}

/// A catch of handles, if its rule gives this type. If none is made, the handles are given back.
pub fn catch_of<'t, R: Wait>(
    w: &mut Work<'_, 't>,
    rt: &R,
    caught: Caught<'t>,
    ty: MethodTy,
) -> Result<Handle<'t>, HandleError>
    requires ruled { catch_row (classes_of w.old) caught.target.ty caught.target.weight
        caught.class caught.handler.ty caught.handler.weight ≡ Ok ty }
    requires ready { IsReady w.old 1 }
    requires held { HoldsTypes w.old (caught.target.held ++ caught.handler.held) }
    ensures goes_on { GoesOn 1 w.old w.new }
    ensures accepted { IsAccepted result }
    ensures typed { IfOk result (λ h. h.ty ≡ ty) }
    ensures makes { (a b : Tree) → StandsIn w.old caught.entry.target a
        → StandsIn w.old caught.entry.handler b
        → Makes (recipe (leaves_of w.old) (tree.Catch a caught.entry.class b)) w.old w.new result }
    ensures types { TradesTypes (ty ∷ [])
        (caught.entry.target.held ++ caught.entry.handler.held) w.old w.new result }
    ensures gains { IfOk result
        (HasHandler caught.entry.target caught.entry.class caught.entry.handler) }
    ensures stands { (a b : Tree) → StandsIn w.old caught.entry.target a
        → StandsIn w.old caught.entry.handler b
        → IfOk result (λ h. StandsIn w.old h (tree.Catch a caught.entry.class b)) }
{
    // Each class comes after its superclass.
    let _classes = w.classes();
    let weight = caught.weight();
    match catch_key(w.alloc, &ty, &caught.handler) {
        Ok(key) => {
            let parts = catch_parts(w, caught)?;
            let by = Growth {
                ty,
                weight,
                key,
                parts,
            };
            Handle::make_rooted(w, rt, by)
        }
        Err(NoMemory) => caught.refuse(w, CheckError::NoMemory),
    }
}

/// A handle that runs `target`. If that throws an exception of the class or of a class below it,
/// `handler` runs on the exception and the first arguments (`MethodHandles.catchException`, SE 17).
/// Refused if the class is not `java/lang/Throwable` or below it. Refused also if `handler` returns
/// another type, or does not take such an exception and then the first parameters of `target`.
pub fn catch<'t, R: Wait>(
    w: &mut Work<'_, 't>,
    rt: &R,
    target: Handle<'t>,
    class: ClassId,
    handler: Handle<'t>,
) -> Result<Handle<'t>, HandleError>
    requires ready { IsReady w.old 1 }
    requires held { HoldsTypes w.old (target.held ++ handler.held) }
    ensures goes_on { GoesOn 1 w.old w.new }
    ensures obeys { Obeys (catch_row (classes_of w.old) target.entry.ty target.entry.weight class
        handler.entry.ty handler.entry.weight) result }
    ensures makes { (a b : Tree) → StandsIn w.old target.entry a
        → StandsIn w.old handler.entry b
        → Makes (recipe (leaves_of w.old) (tree.Catch a class b)) w.old w.new result }
    ensures types { TradesTypes (types_in
        (catch_row (classes_of w.old) target.entry.ty target.entry.weight class
        handler.entry.ty handler.entry.weight))
        (target.entry.held ++ handler.entry.held) w.old w.new result }
    ensures gains { IfOk result (HasHandler target.entry class handler.entry) }
    ensures stands { (a b : Tree) → StandsIn w.old target.entry a
        → StandsIn w.old handler.entry b → IfOk result
        (λ h. StandsIn w.old h (tree.Catch a class b)) }
{
    let caught = Caught {
        target,
        class,
        handler,
    };
    match caught.ty(w) {
        Ok(ty) => catch_of(w, rt, caught, ty),
        Err(error) => caught.refuse(w, error),
    }
}
