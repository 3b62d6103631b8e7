ghost use Rattle.std.specs.Prelude.{◌≡◌, ◌++◌, ◌∷◌, ◌&&◌, [], IfOk, IsTrue, Ok, false, true};
ghost use Rattle.mh_values.specs.Same.{is_same_method_type};
ghost use Rattle.mh_convert.specs.Conversion.{is_trivial_ret};
ghost use Rattle.mh_values.specs.Classes.{AreClasses};
ghost use Rattle.mh_tree.specs.Check.{TellsRow};
ghost use Rattle.mh_tree.specs.Rows.{convert_row};
ghost use Rattle.mh_tree.specs.Tree.{Tree};
ghost use Rattle.mh_tree.specs.Use.{used_as, used_by, use_row, use_row_by};
ghost use Rattle.mh_handle.specs.Converting.{IsUsedAs};
ghost use Rattle.mh_handle.specs.Recipe.{are_trivial, convert_keys, recipe};
ghost use Rattle.mh_handle.specs.Obeys.{Obeys};
ghost use Rattle.mh_handle.specs.Stands.{IsShaped};
ghost use Rattle.mh_handle.specs.Works.{GoesOn, HoldsTypes, IsAccepted, IsReady};
ghost use Rattle.mh_handle.specs.Works.{StandsIn, TradesTypes, classes_of, leaves_of};
ghost use Rattle.mh_convert.specs.declared.conv.Rules.TheVariants.{AsType};
ghost use Rattle.mh_astype.specs.Use.{AddsConversions, IsUse, MakesFrom, used_types, used_types_by};

use crate::conversions::{convert_fields, convert_key, is_trivial};
use mh_base::NoMemory;
use mh_convert::Rules;
use mh_handle::{Growth, Handle, HandleError, Parts, Work};
use mh_tree::{CheckError, check_convert};
use mh_values::{MethodTy, is_same_method_type};
use std::sync::Wait;

/// What the conversions to the type add to a handle.
fn conversions<'t>(
    w: &Work<'_, 't>,
    rules: Rules,
    target: &Handle<'t>,
    ty: MethodTy,
) -> Result<Growth<'t>, NoMemory>
    ensures shaped { IsShaped target.now }
    ensures adds { IfOk result (AddsConversions rules (classes_of w.now) ty target.now) }
{
    let classes = w.classes();
    let key = convert_key(w.alloc, &ty, target.ty(), classes)?;
    let fields = convert_fields(w.alloc, rules, &ty, target.ty(), classes)?;
    Ok(Growth {
        ty,
        weight: 1 + target.weight(),
        key,
        parts: Parts::of_fields(w.alloc, fields),
    })
}

/// The type to convert the handle to, or the refusal.
fn use_type<'t>(
    w: &Work<'_, 't>,
    rules: Rules,
    target: &Handle<'t>,
    ty: &MethodTy,
) -> Result<MethodTy, CheckError>
    ensures are { AreClasses (classes_of w.now) }
    ensures tells { TellsRow result (convert_row rules (classes_of w.now)
        target.now.ty target.now.weight ty.now) }
{
    let classes = w.classes();
    check_convert(w.alloc, rules, target.ty(), target.weight(), ty, classes)
}

/// The handle converted to the type, if at least one conversion changes something.
fn convert_by_edit<'t, R: Wait>(
    w: &mut Work<'_, 't>,
    rt: &R,
    rules: Rules,
    target: Handle<'t>,
    ty: MethodTy,
) -> Result<Handle<'t>, HandleError>
    requires row { convert_row rules (classes_of w.old) target.ty target.weight ty ≡ Ok ty }
    requires changes { (are_trivial (classes_of w.old) ty.params target.ty.params && is_trivial_ret
        (classes_of w.old) target.ty.ret ty.ret) ≡ false }
    requires ready { IsReady w.old 1 }
    requires held { HoldsTypes w.old target.held }
    ensures goes_on { GoesOn 1 w.old w.new }
    ensures makes { MakesFrom target.entry.form.recipe (target.entry.form.recipe
        ++ convert_keys (classes_of w.old) ty target.entry.ty) w.old w.new result }
    ensures accepted { IsAccepted result }
    ensures used { IfOk result (IsUsedAs rules (classes_of w.old) ty target.entry) }
    ensures types { TradesTypes (ty ∷ []) target.entry.held w.old w.new result }
{
    match conversions(w, rules, &target, ty) {
        Ok(by) => target.grown(w, rt, by),
        Err(NoMemory) => target.refuse(w, CheckError::NoMemory),
    }
}

/// The handle converted to the type, if no conversion changes anything.
fn keep_form<'t, R: Wait>(
    w: &mut Work<'_, 't>,
    rt: &R,
    rules: Rules,
    target: Handle<'t>,
    ty: MethodTy,
) -> Result<Handle<'t>, HandleError>
    requires row { convert_row rules (classes_of w.old) target.ty target.weight ty ≡ Ok ty }
    requires keeps { (are_trivial (classes_of w.old) ty.params target.ty.params && is_trivial_ret
        (classes_of w.old) target.ty.ret ty.ret) ≡ true }
    requires shaped { IsShaped target }
    requires ready { IsReady w.old 1 }
    requires held { HoldsTypes w.old target.held }
    ensures goes_on { GoesOn 1 w.old w.new }
    ensures makes { MakesFrom target.entry.form.recipe (target.entry.form.recipe
        ++ convert_keys (classes_of w.old) ty target.entry.ty) w.old w.new result }
    ensures accepted { IsAccepted result }
    ensures used { IfOk result (IsUsedAs rules (classes_of w.old) ty target.entry) }
    ensures types { TradesTypes (ty ∷ []) target.entry.held w.old w.new result }
{
    let weight = 1 + target.weight();
    match target.retype(w, rt, ty, weight) {
        Ok(made) => Ok(made),
        Err(error) => Err(HandleError::from(error)),
    }
}

/// The handle converted to the type, whether or not a conversion changes anything.
fn convert_handle<'t, R: Wait>(
    w: &mut Work<'_, 't>,
    rt: &R,
    rules: Rules,
    target: Handle<'t>,
    ty: MethodTy,
) -> Result<Handle<'t>, HandleError>
    requires row { convert_row rules (classes_of w.old) target.ty target.weight ty ≡ Ok ty }
    requires ready { IsReady w.old 1 }
    requires held { HoldsTypes w.old target.held }
    ensures goes_on { GoesOn 1 w.old w.new }
    ensures makes { MakesFrom target.entry.form.recipe (target.entry.form.recipe
        ++ convert_keys (classes_of w.old) ty target.entry.ty) w.old w.new result }
    ensures accepted { IsAccepted result }
    ensures used { IfOk result (IsUsedAs rules (classes_of w.old) ty target.entry) }
    ensures types { TradesTypes (ty ∷ []) target.entry.held w.old w.new result }
{
    if is_trivial(&ty, target.ty(), w.leaves.classes()) {
        keep_form(w, rt, rules, target, ty)
    } else {
        convert_by_edit(w, rt, rules, target, ty)
    }
}

/// A handle of the type `ty` that converts its arguments by the rules to the parameter types of
/// `target`, from left to right, and then the result. If `target` has that type, it is the answer.
/// If some conversion changes something, one edit is made, otherwise none. Refused with a
/// `WrongMethodTypeException` if an argument or the result cannot be converted.
pub fn use_by<'t, R: Wait>(
    w: &mut Work<'_, 't>,
    rt: &R,
    rules: Rules,
    target: Handle<'t>,
    ty: &MethodTy,
) -> Result<Handle<'t>, HandleError>
    requires ready { IsReady w.old 1 }
    requires held { HoldsTypes w.old target.held }
    ensures goes_on { GoesOn 1 w.old w.new }
    ensures obeys { Obeys (use_row_by rules (classes_of w.old) target.entry.ty target.entry.weight
        ty.now) result }
    ensures makes { (t : Tree) → StandsIn w.old target.entry t
        → MakesFrom (recipe (leaves_of w.old) t)
        (recipe (leaves_of w.old) (used_by rules target.entry.ty ty.now t)) w.old w.new result }
    ensures same { IsTrue (is_same_method_type target.entry.ty ty.now) → result ≡ Ok target.entry }
    ensures types { TradesTypes
        (used_types_by rules (classes_of w.old) target.entry.ty target.entry.weight ty.now)
        target.entry.held w.old w.new result }
    ensures used { IfOk result (IsUse rules (classes_of w.old) ty.now target.entry) }
    ensures stands { (t : Tree) → StandsIn w.old target.entry t
        → IfOk result (λ r. StandsIn w.old r (used_by rules target.entry.ty ty.now t)) }
{
    if is_same_method_type(target.ty(), ty) {
        return Ok(target);
    }
    match use_type(w, rules, &target, ty) {
        Ok(asked) => convert_handle(w, rt, rules, target, asked),
        Err(error) => target.refuse(w, error),
    }
}

/// A handle of the type `ty` that converts its arguments to the parameter types of `target`, and
/// then the result, as `use_by` by the rules of `MethodHandle.asType` (SE 17).
pub fn as_type<'t, R: Wait>(
    w: &mut Work<'_, 't>,
    rt: &R,
    target: Handle<'t>,
    ty: &MethodTy,
) -> Result<Handle<'t>, HandleError>
    requires ready { IsReady w.old 1 }
    requires held { HoldsTypes w.old target.held }
    ensures goes_on { GoesOn 1 w.old w.new }
    ensures obeys { Obeys (use_row (classes_of w.old) target.entry.ty target.entry.weight ty.now)
        result }
    ensures makes { (t : Tree) → StandsIn w.old target.entry t
        → MakesFrom (recipe (leaves_of w.old) t)
        (recipe (leaves_of w.old) (used_as target.entry.ty ty.now t)) w.old w.new result }
    ensures same { IsTrue (is_same_method_type target.entry.ty ty.now) → result ≡ Ok target.entry }
    ensures types { TradesTypes
        (used_types (classes_of w.old) target.entry.ty target.entry.weight ty.now)
        target.entry.held w.old w.new result }
    ensures used { IfOk result (IsUse AsType (classes_of w.old) ty.now target.entry) }
    ensures stands { (t : Tree) → StandsIn w.old target.entry t
        → IfOk result (λ r. StandsIn w.old r (used_as target.entry.ty ty.now t)) }
{
    use_by(w, rt, Rules::AsType, target, ty)
}
