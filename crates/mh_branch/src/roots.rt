ghost use Rattle.std.specs.Prelude.{◌≡◌, [], IfOk, Ok, Some};
ghost use Rattle.mh_convert.specs.Conversion.{fit};
ghost use Rattle.mh_tree.specs.Rows.{constant_row, identity_row, throw_row};
ghost use Rattle.mh_tree.specs.Tree as tree;
ghost use Rattle.mh_handle.specs.Obeys.{Obeys};
ghost use Rattle.mh_handle.specs.Recipe.{recipe};
ghost use Rattle.mh_handle.specs.Works.{GoesOn, IsReady, Makes, StandsIn};
ghost use Rattle.mh_handle.specs.Works.{TradesTypes, classes_of, leaves_of, types_in};

use mh_convert::fit;
use mh_edit::Key;
use mh_form::{Field, basic_of, erase, shape};
use mh_handle::{Growth, Handle, HandleError, Parts, Work, one_field};
use mh_tree::{check_constant, check_identity, check_throw};
use mh_values::{ClassId, Classes, Ty, Value};
use std::sync::Wait;

/// The value that fits a type.
fn fitted(value: Value, ty: Ty, classes: &Classes) -> Value
    requires { (fitting : Value) × (fit classes.now value ty ≡ Ok fitting) }
    ensures { fit classes.now value ty ≡ Ok result }
{
    let Ok(fitted) = fit(value, ty, classes) else {
        unreachable!()
    };
    fitted
}

/// A handle that takes nothing and returns a value (`MethodHandles.constant`, SE 17). Refused if
/// the type is void, or if the value does not fit it.
pub fn constant<'t, R: Wait>(
    w: &mut Work<'_, 't>,
    rt: &R,
    ty: Option<Ty>,
    value: Value,
) -> Result<Handle<'t>, HandleError>
    requires ready { IsReady w.old 1 }
    ensures goes_on { GoesOn 1 w.old w.new }
    ensures obeys { Obeys (constant_row (classes_of w.old) ty value) result }
    ensures makes { Makes (recipe (leaves_of w.old) (tree.Constant ty value)) w.old w.new result }
    ensures types { TradesTypes (types_in (constant_row (classes_of w.old) ty value)) []
        w.old w.new result }
    ensures stands { IfOk result (λ h. StandsIn w.old h (tree.Constant ty value)) }
{
    let classes = w.leaves.classes();
    let own = check_constant(w.alloc, ty, &value, classes)?;
    let Some(ret) = ty else { unreachable!() };
    let slot = erase(fitted(value, ret, classes));
    let fields = one_field(w.alloc, Field::Val(slot))?;
    let by = Growth {
        ty: own,
        weight: 1,
        key: Key::ConstRoot {
            basic: basic_of(ret),
        },
        parts: Parts::of_fields(w.alloc, fields),
    };
    Handle::make_rooted(w, rt, by)
}

/// A handle that returns its argument (`MethodHandles.identity`, SE 17). Refused if the type is
/// void.
pub fn identity<'t, R: Wait>(
    w: &mut Work<'_, 't>,
    rt: &R,
    ty: Option<Ty>,
) -> Result<Handle<'t>, HandleError>
    requires ready { IsReady w.old 1 }
    ensures goes_on { GoesOn 1 w.old w.new }
    ensures obeys { Obeys (identity_row ty) result }
    ensures makes { Makes (recipe (leaves_of w.old) (tree.Identity ty)) w.old w.new result }
    ensures types { TradesTypes (types_in (identity_row ty)) [] w.old w.new result }
    ensures stands { IfOk result (λ h. StandsIn w.old h (tree.Identity ty)) }
{
    let own = check_identity(w.alloc, ty, w.leaves.classes())?;
    let Some(ret) = ty else { unreachable!() };
    let by = Growth {
        ty: own,
        weight: 1,
        key: Key::IdentityRoot {
            basic: basic_of(ret),
        },
        parts: Parts::new(w.alloc),
    };
    Handle::make_rooted(w, rt, by)
}

/// A handle that throws its argument (`MethodHandles.throwException`, SE 17). Refused if the
/// class is not `java/lang/Throwable` or below it.
pub fn throw<'t, R: Wait>(
    w: &mut Work<'_, 't>,
    rt: &R,
    ret: Option<Ty>,
    class: ClassId,
) -> Result<Handle<'t>, HandleError>
    requires ready { IsReady w.old 1 }
    ensures goes_on { GoesOn 1 w.old w.new }
    ensures obeys { Obeys (throw_row (classes_of w.old) ret class) result }
    ensures makes { Makes (recipe (leaves_of w.old) (tree.Throw ret class)) w.old w.new result }
    ensures types { TradesTypes (types_in (throw_row (classes_of w.old) ret class)) []
        w.old w.new result }
    ensures stands { IfOk result (λ h. StandsIn w.old h (tree.Throw ret class)) }
{
    let own = check_throw(w.alloc, ret, class, w.classes())?;
    let shape = shape(w.alloc, &own)?;
    let by = Growth {
        ty: own,
        weight: 1,
        key: Key::ThrowRoot { ret: shape.ret },
        parts: Parts::new(w.alloc),
    };
    Handle::make_rooted(w, rt, by)
}
