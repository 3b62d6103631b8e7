ghost use Rattle.std.specs.Prelude.{◌≡◌, IfOk, IsTrue, Ok};
ghost use Rattle.mh_values.specs.Same.{is_same_method_type};
ghost use Rattle.mh_convert.specs.declared.conv.Rules.TheVariants.{Explicit};
ghost use Rattle.mh_tree.specs.Tree.{Tree};
ghost use Rattle.mh_tree.specs.Use.{used_by, use_row_by};
ghost use Rattle.mh_handle.specs.Obeys.{Obeys};
ghost use Rattle.mh_handle.specs.Recipe.{recipe};
ghost use Rattle.mh_handle.specs.Works.{GoesOn, HoldsTypes, IsReady};
ghost use Rattle.mh_handle.specs.Works.{StandsIn, TradesTypes, classes_of, leaves_of};
ghost use Rattle.mh_astype.specs.Use.{IsUse, MakesFrom, used_types_by};

use mh_astype::use_by;
use mh_convert::Rules;
use mh_handle::{Handle, HandleError, Work};
use mh_values::MethodTy;
use std::sync::Wait;

/// A handle of the type `ty` that converts its arguments explicitly to the parameter types of
/// `target`, from left to right, and then the result (`MethodHandles.explicitCastArguments`, SE
/// 17). Numbers may lose their high bits, and null becomes zero. If `target` has that type, it is
/// the answer. If some conversion changes something, one edit is made, the one that `as_type` makes
/// for these types, otherwise none. Refused with a `WrongMethodTypeException` if an argument or the
/// result cannot be converted.
pub fn explicit<'t, R: Wait>(
    w: &mut Work<'_, 't>,
    rt: &R,
    target: Handle<'t>,
    ty: &MethodTy,
) -> Result<Handle<'t>, HandleError>
    requires ready { IsReady w.old 1 }
    requires held { HoldsTypes w.old target.held }
    ensures goes_on { GoesOn 1 w.old w.new }
    ensures obeys { Obeys (use_row_by Explicit (classes_of w.old) target.entry.ty
        target.entry.weight ty.now) result }
    ensures makes { (t : Tree) → StandsIn w.old target.entry t
        → MakesFrom (recipe (leaves_of w.old) t)
        (recipe (leaves_of w.old) (used_by Explicit target.entry.ty ty.now t))
        w.old w.new result }
    ensures same { IsTrue (is_same_method_type target.entry.ty ty.now) → result ≡ Ok target.entry }
    ensures types { TradesTypes
        (used_types_by Explicit (classes_of w.old) target.entry.ty target.entry.weight ty.now)
        target.entry.held w.old w.new result }
    ensures used { IfOk result (IsUse Explicit (classes_of w.old) ty.now target.entry) }
    ensures stands { (t : Tree) → StandsIn w.old target.entry t
        → IfOk result (λ r. StandsIn w.old r (used_by Explicit target.entry.ty ty.now t)) }
{
    use_by(w, rt, Rules::Explicit, target, ty)
}
