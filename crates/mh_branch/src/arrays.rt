ghost use Rattle.std.specs.Prelude.{◌≡◌, ◌∷◌, [], IfOk, Ok, Some};
ghost use Rattle.mh_values.specs.Classes.{AreClasses};
ghost use Rattle.mh_tree.specs.Check.{TellsRow};
ghost use Rattle.mh_tree.specs.Rows.{component_of, gather_row};
ghost use Rattle.mh_tree.specs.Tree.{Tree};
ghost use Rattle.mh_tree.specs.Tree as tree;
ghost use Rattle.mh_handle.specs.Grows.{GainsNode};
ghost use Rattle.mh_handle.specs.Obeys.{Obeys};
ghost use Rattle.mh_handle.specs.Stands.{IsShaped};
ghost use Rattle.mh_handle.specs.Recipe.{recipe};
ghost use Rattle.mh_branch.specs.Growths.{AddsGather};
ghost use Rattle.mh_handle.specs.Works.{GoesOn, HoldsTypes, IsAccepted, IsReady, Makes, StandsIn};
ghost use Rattle.mh_handle.specs.Works.{TradesTypes, classes_of, leaves_of, types_in};

use mh_base::NoMemory;
use mh_edit::Key;
use mh_form::{Field, basic_of};
use mh_handle::{Growth, Handle, HandleError, Parts, Work, one_field};
use mh_tree::{CheckError, check_gather};
use mh_values::{Comp, MethodTy, Ty};
use std::sync::Wait;

/// The component of a type that must be an array type.
fn component_of(ty: Option<Ty>) -> Comp
    requires { (c : Comp) × (component_of ty ≡ Some c) }
    ensures { component_of ty ≡ Some result }
{
    match ty {
        Some(Ty::Array(component)) => component,
        _ => unreachable!(),
    }
}

/// What is gathered: the type of the array, and the number of items.
#[derive(Clone, Copy, Debug)]
pub struct Gathered {
    pub array: Option<Ty>,
    pub count: u8,
}

/// The type of a gather of a handle.
fn gather_type<'t>(
    w: &Work<'_, 't>,
    target: &Handle<'t>,
    gathered: Gathered,
) -> Result<MethodTy, CheckError>
    ensures tells { TellsRow result (gather_row (classes_of w.now)
        target.now.ty target.now.weight gathered.array gathered.count) }
{
    let Gathered { array, count } = gathered;
    let (ty, weight) = (target.ty(), target.weight());
    check_gather(w.alloc, ty, weight, array, count, w.classes())
}

/// What a gather of this type adds to a handle.
fn gather_growth<'t>(
    w: &Work<'_, 't>,
    target: &Handle<'t>,
    gathered: Gathered,
    ty: MethodTy,
) -> Result<Growth<'t>, NoMemory>
    requires ruled { gather_row (classes_of w.now)
        target.now.ty target.now.weight gathered.array gathered.count ≡ Ok ty }
    ensures are { AreClasses (classes_of w.now) }
    ensures shaped { IsShaped target.now }
    ensures ty { IfOk result (λ by. by.ty ≡ ty) }
    ensures adds { IfOk result (AddsGather target.now gathered.array gathered.count) }
{
    // A handle has the shape of its type, and each class comes after its superclass.
    let (_ty, _classes) = (target.ty(), w.classes());
    let component = component_of(gathered.array);
    let fields = one_field(w.alloc, Field::Comp(component))?;
    Ok(Growth {
        ty,
        weight: 1 + target.weight(),
        key: Key::Gather {
            count: gathered.count,
            basic: basic_of(component.item_type()),
        },
        parts: Parts::of_fields(w.alloc, fields),
    })
}

/// A gather of a handle, if its rule gives this type. If none is made, the old handle is given
/// back.
pub fn gather_of<'t, R: Wait>(
    w: &mut Work<'_, 't>,
    rt: &R,
    target: Handle<'t>,
    gathered: Gathered,
    ty: MethodTy,
) -> Result<Handle<'t>, HandleError>
    requires ruled { gather_row (classes_of w.old)
        target.ty target.weight gathered.array gathered.count ≡ Ok ty }
    requires ready { IsReady w.old 1 }
    requires held { HoldsTypes w.old target.held }
    ensures goes_on { GoesOn 1 w.old w.new }
    ensures accepted { IsAccepted result }
    ensures typed { IfOk result (λ h. h.ty ≡ ty) }
    ensures makes { (a : Tree) → StandsIn w.old target.entry a
        → Makes (recipe (leaves_of w.old) (tree.Gather a gathered.array gathered.count))
        w.old w.new result }
    ensures types { TradesTypes (ty ∷ []) target.entry.held w.old w.new result }
    ensures gains { IfOk result (GainsNode target.entry) }
    ensures stands { (a : Tree) → StandsIn w.old target.entry a
        → IfOk result (λ h. StandsIn w.old h (tree.Gather a gathered.array gathered.count)) }
{
    match gather_growth(w, &target, gathered, ty) {
        Ok(by) => target.grown(w, rt, by),
        Err(NoMemory) => target.refuse(w, CheckError::NoMemory),
    }
}

/// A handle that takes up to 254 items in place of the last argument of `target`, and passes their
/// array to it (`MethodHandle.asCollector`, SE 17). Refused if the type is no array, if such an
/// array cannot be passed to the last parameter, or if there are 255 items.
pub fn gather<'t, R: Wait>(
    w: &mut Work<'_, 't>,
    rt: &R,
    target: Handle<'t>,
    array: Option<Ty>,
    count: u8,
) -> Result<Handle<'t>, HandleError>
    requires ready { IsReady w.old 1 }
    requires held { HoldsTypes w.old target.held }
    ensures goes_on { GoesOn 1 w.old w.new }
    ensures obeys { Obeys (gather_row (classes_of w.old)
        target.entry.ty target.entry.weight array count) result }
    ensures makes { (a : Tree) → StandsIn w.old target.entry a
        → Makes (recipe (leaves_of w.old) (tree.Gather a array count)) w.old w.new result }
    ensures types { TradesTypes (types_in
        (gather_row (classes_of w.old) target.entry.ty target.entry.weight array count))
        target.entry.held w.old w.new result }
    ensures gains { IfOk result (GainsNode target.entry) }
    ensures stands { (a : Tree) → StandsIn w.old target.entry a
        → IfOk result (λ h. StandsIn w.old h (tree.Gather a array count)) }
{
    let gathered = Gathered { array, count };
    match gather_type(w, &target, gathered) {
        Ok(ty) => gather_of(w, rt, target, gathered, ty),
        Err(error) => target.refuse(w, error),
    }
}
