//! The target that `StringConcatFactory.makeConcatWithConstants` gives (`java.lang.invoke`, SE 17).

ghost use Rattle.std.specs.Prelude.{◌≡◌, codes, map, Ok, IfOk, IfSome, IfNone};
ghost use Rattle.std.specs.List.{list_all};
ghost use Rattle.mh_handle.specs.Recipe.{recipe};
ghost use Rattle.mh_handle.specs.Works.{GoesOn, IsReady, classes_of, leaves_of};
ghost use Rattle.mh_jobs.specs.Thrown.{unsupported};
ghost use Rattle.mh_pieces.specs.Recipe.{pieces_of};
ghost use Rattle.mh_link.specs.Concatenation.{concat_of, constant_of, is_value, pieces_given, pieces_with, recipe_of};
ghost use Rattle.mh_link.specs.Operands.{wrong_sort};
ghost use Rattle.mh_link.specs.Made.{concat_nodes, types_of};
ghost use Rattle.mh_attempt.specs.Asked.{AsksOrThrows, attempt_draws};
ghost use Rattle.mh_attempt.specs.AskedTypes.{AsksTypesOrThrows};
ghost use Rattle.mh_attempt.specs.Lines.{TellsTarget};
ghost use Rattle.mh_attempt.specs.Several.{AddsTypes};
ghost use Rattle.mh_attempt.specs.Told.{Tells, Throws};

use crate::registers::{no_argument, wrong_sort};
use crate::thrown::thrown;
use mh_base::{Copied, NoMemory, Seq};
use mh_concat::{RecipeError, concat, read_recipe};
use mh_form::Pieces;
use mh_handle::{Handle, HandleError, Work};
use mh_jobs::{Argument, BootstrapCall};
use mh_tree::CheckError;
use mh_values::{ClassId, Classes, Items, MethodTy, Str, Value};
use std::alloc::Global;
use std::sync::Wait;

/// The error of a constant that is no value.
fn unsupported(alloc: Global) -> CheckError
    ensures { Throws result (unsupported (codes "constant")) }
{
    thrown(alloc, ClassId::UNSUPPORTED_OPERATION, b"constant")
}

/// The recipe, if the static argument is a text.
fn recipe_of(argument: &Argument) -> Option<&Str>
    ensures text { IfSome result (λ recipe. recipe_of argument.now ≡ Ok recipe.now) }
    ensures other { IfNone result (recipe_of argument.now ≡ wrong_sort) }
{
    match argument {
        Argument::Value(Value::Text(recipe)) => Some(recipe),
        _ => None,
    }
}

/// Whether a static argument is a value.
fn is_value(argument: &Argument) -> bool
    ensures { result ≡ is_value argument.now }
{
    matches!(argument, Argument::Value(_))
}

/// Whether all of these are values.
fn are_values(arguments: &[Argument]) -> bool
    ensures { result ≡ list_all is_value arguments.now }
{
    arguments.iter().all(|argument| is_value(argument))
}

/// A static argument as a constant; one that is no value becomes null.
fn constant_of(alloc: Global, argument: &Argument) -> Result<Value, NoMemory>
    ensures { IfOk result (λ value. value ≡ constant_of argument.now) }
{
    match argument {
        Argument::Value(value) => value.copy(alloc),
        _ => Ok(Value::Null),
    }
}

/// Static arguments as constants.
fn constants_of(alloc: Global, arguments: &[Argument]) -> Result<Items, NoMemory>
    ensures { IfOk result (λ values. values ≡ map constant_of arguments.now) }
{
    let mut values = Seq::new(alloc);
    for argument in arguments {
        values.push(constant_of(alloc, argument)?)?;
    }
    Ok(values)
}

/// The pieces that a recipe spells for a type.
fn spelled(
    alloc: Global,
    recipe: &Str,
    constants: &Items,
    ty: &MethodTy,
    classes: &Classes,
) -> Result<Pieces, CheckError>
    ensures { Tells result (pieces_of classes.now recipe.now constants.now ty.now) }
{
    match read_recipe(alloc, recipe, constants, ty, classes) {
        Ok(pieces) => Ok(pieces),
        Err(RecipeError::Refused(exc)) => Err(CheckError::Refused(exc)),
        Err(RecipeError::NoMemory) => Err(CheckError::NoMemory),
    }
}

/// The pieces of a recipe whose constants are static arguments. The constants are counted before
/// any is refused because it is no value.
fn pieces_with(
    alloc: Global,
    recipe: &Str,
    arguments: &[Argument],
    ty: &MethodTy,
    classes: &Classes,
) -> Result<Pieces, CheckError>
    ensures { Tells result (pieces_with classes.now ty.now recipe.now arguments.now) }
{
    let constants = constants_of(alloc, arguments)?;
    let pieces = spelled(alloc, recipe, &constants, ty, classes)?;
    if !are_values(arguments) {
        return Err(unsupported(alloc));
    }
    Ok(pieces)
}

/// The pieces that static arguments give for a type: the first one is the recipe.
fn pieces_given(
    alloc: Global,
    arguments: &[Argument],
    ty: &MethodTy,
    classes: &Classes,
) -> Result<Pieces, CheckError>
    ensures { Tells result (pieces_given classes.now ty.now arguments.now) }
{
    let [first, constants @ ..] = arguments else {
        return Err(no_argument(alloc));
    };
    let Some(recipe) = recipe_of(first) else {
        return Err(wrong_sort(alloc));
    };
    pieces_with(alloc, recipe, constants, ty, classes)
}

/// The handle of a concatenation for a call site. It is refused, in this order, if the recipe is
/// missing or no text, or if it does not fit the constants and the call site's type. Last, it is
/// refused if a constant is no value.
pub(crate) fn make_concatenation<'t, R: Wait>(
    w: &mut Work<'_, 't>,
    rt: &R,
    call: &BootstrapCall,
) -> Result<Handle<'t>, HandleError>
    requires ready { IsReady w.old attempt_draws }
    ensures goes_on { GoesOn attempt_draws w.old w.new }
    ensures types { AddsTypes w.old w.new result }
    ensures target { TellsTarget (concat_of (classes_of w.old) call.now) w.old result }
    ensures asks { AsksOrThrows (map (recipe (leaves_of w.old))
        (concat_nodes (classes_of w.old) call.now)) w.old w.new result }
    ensures asked { AsksTypesOrThrows (types_of (leaves_of w.old)
        (concat_nodes (classes_of w.old) call.now)) w.old w.new result }
{
    let ty = call.ty.get();
    let pieces = pieces_given(w.alloc, call.arguments.as_slice(), ty, w.classes())?;
    concat(w, rt, ty, &pieces)
}
