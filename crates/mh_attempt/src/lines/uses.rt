//! Conversions to another type, and spreads, which contain one. Each may ask for other forms than
//! that of its node.

ghost use Rattle.std.specs.Prelude.{[], ◌∷◌};
ghost use Rattle.mh_tree.specs.Check.{TellsRow};
ghost use Rattle.mh_tree.specs.Tree.{Tree};
ghost use Rattle.mh_tree.specs.Use.{use_row_by};
ghost use Rattle.mh_handle.specs.Works.{IsReady, leaves_of};
ghost use Rattle.mh_link.specs.Operations.{spread_of, use_of};
ghost use Rattle.mh_attempt.specs.Nodes.{IsOperand};
ghost use Rattle.mh_attempt.specs.Operations.{MakesAsked};
ghost use Rattle.mh_attempt.specs.Recipes.{spread_asked, use_asked};
ghost use Rattle.mh_attempt.specs.Registers.{StandsFor};

use crate::handle::HandleOperand;
use mh_astype::use_by;
use mh_base::Copied;
use mh_convert::Rules;
use mh_handle::{Handle, HandleError, Work};
use mh_spread::{check_spread_use, spread};
use mh_tree::{CheckError, Typed, check_convert};
use mh_values::{Classes, MethodTy, Ty, is_same_method_type};
use std::alloc::Global;
use std::sync::Wait;

/// A handle whose last arguments come in an array.
pub(crate) fn make_spread<'t, R: Wait>(
    w: &mut Work<'_, 't>,
    rt: &R,
    target: &HandleOperand<'_, 't>,
    array: Option<Ty>,
    count: u8,
) -> Result<Handle<'t>, HandleError>
    requires ready { IsReady w.old 4 }
    requires target { IsOperand (leaves_of w.old) w.old.seat.now target.now }
    ensures { (t : Tree) → StandsFor (leaves_of w.old) target.now t
        → MakesAsked (target.now ∷ []) (spread_of (leaves_of w.old) t array count)
        (spread_asked (leaves_of w.old) t) w.old w.new result }
{
    let own = target.typed(w.leaves);
    check_spread_use(w.alloc, own.ty, own.weight, array, count, w.classes())?;
    let target = target.make(w, rt)?;
    spread(w, rt, target, array, count)
}

// The type of a tree after a conversion. Refused if an argument or the result cannot be converted.
fn check_use(
    alloc: Global,
    rules: Rules,
    own: Typed<'_>,
    asked: &MethodTy,
    classes: &Classes,
) -> Result<MethodTy, CheckError>
    ensures { TellsRow result (use_row_by rules classes.now own.entry.ty.now own.entry.weight
        asked.now) }
{
    if is_same_method_type(own.ty, asked) {
        return Ok(own.ty.copy(alloc)?);
    }
    check_convert(alloc, rules, own.ty, own.weight, asked, classes)
}

/// A handle converted by the rules to a type.
pub(crate) fn convert_handle<'t, R: Wait>(
    w: &mut Work<'_, 't>,
    rt: &R,
    target: &HandleOperand<'_, 't>,
    rules: Rules,
    asked: &MethodTy,
) -> Result<Handle<'t>, HandleError>
    requires ready { IsReady w.old 4 }
    requires target { IsOperand (leaves_of w.old) w.old.seat.now target.now }
    ensures { (t : Tree) → StandsFor (leaves_of w.old) target.now t
        → MakesAsked (target.now ∷ []) (use_of rules (leaves_of w.old) t asked.now)
        (use_asked (leaves_of w.old) t) w.old w.new result }
{
    let own = target.typed(w.leaves);
    check_use(w.alloc, rules, own, asked, w.classes())?;
    let target = target.make(w, rt)?;
    use_by(w, rt, rules, target, asked)
}
