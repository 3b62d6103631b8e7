ghost use Rattle.std.specs.Prelude.{◌≡◌, ◌≤◌, ◌+◌, ◌++◌, ◌∷◌, [], Err, IfOk, Ok, length};
ghost use Rattle.mh_tree.specs.Rows.{counted_row, further, turn_types};
ghost use Rattle.mh_tree.specs.Tree.{Tree};
ghost use Rattle.mh_tree.specs.Tree as tree;
ghost use Rattle.mh_intern.specs.Exchanges.{Exchanges};
ghost use Rattle.mh_handle.specs.Errors.{of_check};
ghost use Rattle.mh_handle.specs.Obeys.{Obeys};
ghost use Rattle.mh_handle.specs.Recipe.{loop_key, recipe};
ghost use Rattle.mh_handle.specs.Stands.{IsShaped};
ghost use Rattle.mh_handle.specs.Works.{GoesOn, HoldsTypes, IsAccepted, IsReady, IsUnchanged};
ghost use Rattle.mh_handle.specs.Works.{Makes, StandsIn, TradesTypes, leaves_of, types_in};
ghost use Rattle.mh_tree.specs.Check.{TellsRow};
ghost use Rattle.mh_more.specs.Roots.{IsRoot};
ghost use Rattle.mh_more.specs.Several.{HasParts};

use crate::several::{Root, make_rooted_of, three};
use mh_base::NoMemory;
use mh_edit::Key;
use mh_form::shape;
use mh_handle::{Handle, HandleError, Work};
use mh_tree::{CheckError, check_counted};
use mh_values::MethodTy;
use std::alloc::Global;
use std::sync::Wait;

/// The handles of a loop: the one that gives its end, the one that gives its start, and its body.
#[derive(Drop)]
pub struct Looped<'t> {
    pub iterations: Handle<'t>,
    pub init: Handle<'t>,
    pub body: Handle<'t>,
}

/// How many further parameters the body of a loop has.
fn further_count(body: &MethodTy) -> u8
    requires takes { length (turn_types body.now.ret) ≤ length body.now.params }
    requires few { length (further body.now) ≤ 255 }
    ensures { result ≡ length (further body.now) }
{
    let first = match body.ret {
        None => 1,
        Some(_) => 2,
    };
    (body.params.len() - first) as u8
}

impl<'t> Looped<'t> {
    /// The type of a loop of these handles.
    fn ty(&self, w: &Work<'_, 't>) -> Result<MethodTy, CheckError>
        ensures { TellsRow result (counted_row self.now.iterations.ty self.now.iterations.weight
            self.now.init.ty self.now.init.weight self.now.body.ty self.now.body.weight) }
    {
        check_counted(
            w.alloc,
            self.iterations.ty(),
            self.iterations.weight(),
            self.init.ty(),
            self.init.weight(),
            self.body.ty(),
            self.body.weight(),
            w.classes(),
        )
    }

    /// What the root of the loop makes, if the rule gives this type.
    fn root(&self, alloc: Global, ty: MethodTy) -> Result<Root, NoMemory>
        requires { counted_row self.now.iterations.ty self.now.iterations.weight self.now.init.ty
            self.now.init.weight self.now.body.ty self.now.body.weight ≡ Ok ty }
        ensures root { IfOk result (IsRoot ty (126 + self.now.iterations.weight
            + self.now.init.weight + self.now.body.weight)
            (loop_key self.now.iterations.ty self.now.init.ty self.now.body.ty)) }
        ensures shaped { IsShaped self.now.iterations × IsShaped self.now.init
            × IsShaped self.now.body }
    {
        let iterations = self.iterations.ty().params.len() as u8;
        let init = self.init.ty().params.len() as u8;
        let body = further_count(self.body.ty());
        let key = Key::LoopRoot {
            shape: shape(alloc, &ty)?,
            iterations,
            init,
            body,
        };
        let parts = self.iterations.weight() + self.init.weight() + self.body.weight();
        Ok(Root {
            ty,
            weight: 126 + parts,
            key,
        })
    }

    /// Gives back the handles of a loop, and answers the refusal.
    fn refuse(self, w: &mut Work<'_, 't>, error: CheckError) -> Result<Handle<'t>, HandleError>
        requires of_types { w.old.seat.now.table ≡ w.old.types.now }
        requires held { HoldsTypes w.old
            (self.iterations.held ++ self.init.held ++ self.body.held) }
        ensures unchanged { IsUnchanged w.old w.new }
        ensures error { result ≡ Err (of_check error) }
        ensures types { Exchanges []
            (self.entry.iterations.held ++ self.entry.init.held ++ self.entry.body.held) []
            w.old.seat.now w.new.seat.now }
    {
        let Looped {
            iterations,
            init,
            body,
        } = self;
        iterations.give_back(w);
        init.give_back(w);
        body.refuse(w, error)
    }
}

/// A loop of handles, if its rule gives this type. If none is made, the handles are given back.
pub fn counted_of<'t, R: Wait>(
    w: &mut Work<'_, 't>,
    rt: &R,
    looped: Looped<'t>,
    ty: MethodTy,
) -> Result<Handle<'t>, HandleError>
    requires ruled { counted_row looped.iterations.ty looped.iterations.weight
        looped.init.ty looped.init.weight looped.body.ty looped.body.weight ≡ Ok ty }
    requires ready { IsReady w.old 1 }
    requires held { HoldsTypes w.old
        (looped.iterations.held ++ looped.init.held ++ looped.body.held) }
    ensures goes_on { GoesOn 1 w.old w.new }
    ensures accepted { IsAccepted result }
    ensures typed { IfOk result (λ h. h.ty ≡ ty) }
    ensures makes { (a b d : Tree) → StandsIn w.old looped.entry.iterations a
        → StandsIn w.old looped.entry.init b → StandsIn w.old looped.entry.body d
        → Makes (recipe (leaves_of w.old) (tree.Counted a b d)) w.old w.new result }
    ensures types { TradesTypes (ty ∷ []) (looped.entry.iterations.held
        ++ looped.entry.init.held ++ looped.entry.body.held) w.old w.new result }
    ensures gains { IfOk result (HasParts 126
        (looped.entry.iterations ∷ looped.entry.init ∷ looped.entry.body ∷ [])) }
    ensures stands { (a b d : Tree) → StandsIn w.old looped.entry.iterations a
        → StandsIn w.old looped.entry.init b → StandsIn w.old looped.entry.body d
        → IfOk result (λ h. StandsIn w.old h (tree.Counted a b d)) }
{
    // Each class comes after its superclass.
    let _classes = w.classes();
    match looped.root(w.alloc, ty) {
        Ok(root) => {
            let Looped {
                iterations,
                init,
                body,
            } = looped;
            let handles = three(w, iterations, init, body)?;
            make_rooted_of(w, rt, handles, root)
        }
        Err(NoMemory) => looped.refuse(w, CheckError::NoMemory),
    }
}

/// A handle that runs `body` in turns (`MethodHandles.countedLoop`, SE 17). `iterations` gives the
/// end: more than 64 turns are an `InternalError`, and a negative end gives none. Then `init` gives
/// the first value, and each turn the next one: `body` runs on the value, on the number of the turn
/// from 0 on, and on the further arguments. Each part takes the first arguments. Refused if
/// `iterations` gives no int, if `body` does not take its own result and an int first, if `init`
/// does not give that result, or if `iterations` or `init` does not take the first parameters.
pub fn counted<'t, R: Wait>(
    w: &mut Work<'_, 't>,
    rt: &R,
    iterations: Handle<'t>,
    init: Handle<'t>,
    body: Handle<'t>,
) -> Result<Handle<'t>, HandleError>
    requires ready { IsReady w.old 1 }
    requires held { HoldsTypes w.old (iterations.held ++ init.held ++ body.held) }
    ensures goes_on { GoesOn 1 w.old w.new }
    ensures obeys { Obeys (counted_row iterations.entry.ty iterations.entry.weight init.entry.ty
        init.entry.weight body.entry.ty body.entry.weight) result }
    ensures makes { (a b d : Tree) → StandsIn w.old iterations.entry a
        → StandsIn w.old init.entry b → StandsIn w.old body.entry d
        → Makes (recipe (leaves_of w.old) (tree.Counted a b d)) w.old w.new result }
    ensures types { TradesTypes (types_in (counted_row iterations.entry.ty iterations.entry.weight
        init.entry.ty init.entry.weight body.entry.ty body.entry.weight))
        (iterations.entry.held ++ init.entry.held ++ body.entry.held) w.old w.new result }
    ensures gains { IfOk result
        (HasParts 126 (iterations.entry ∷ init.entry ∷ body.entry ∷ [])) }
    ensures stands { (a b d : Tree) → StandsIn w.old iterations.entry a
        → StandsIn w.old init.entry b → StandsIn w.old body.entry d
        → IfOk result (λ h. StandsIn w.old h (tree.Counted a b d)) }
{
    let looped = Looped {
        iterations,
        init,
        body,
    };
    match looped.ty(w) {
        Ok(ty) => counted_of(w, rt, looped, ty),
        Err(error) => looped.refuse(w, error),
    }
}
