ghost use Rattle.std.specs.Prelude.{◌≡◌, ◌++◌, [], drop, length, option_map, IfOk, OnOk};
ghost use Rattle.mh_pieces.specs.Recipe.{arg_of, constant_of, lit_of, pieces_of, refusal_of, returns_text, spelled_pieces, tags_in, TellsPieces};

use crate::texts::text_of;
use crate::{Piece, Pieces};
use mh_base::{Frozen, NoMemory, Seq};
use mh_values::{ClassId, Classes, Exc, Items, MethodTy, Str, Ty, Value, all_slots, is_type_below};
use std::alloc::Global;

/// In a recipe, the next argument.
const ARGUMENT: char = '\u{1}';

/// In a recipe, the next constant.
const CONSTANT: char = '\u{2}';

/// The most slots that the parameters of a concatenation take.
const MOST_CONCAT_SLOTS: u64 = 200;

const STRING: Ty = Ty::Class(ClassId::STRING);

/// Why a recipe has no pieces: no memory is left, or it does not fit the call site, with the
/// exception that is then thrown.
#[derive(Debug, Drop)]
pub enum RecipeError {
    NoMemory,
    Refused(Exc),
}

impl From<NoMemory> for RecipeError {
    ghost use Rattle.std.specs.Prelude.{◌≡◌};
    ghost use Rattle.mh_pieces.specs.declared.recipe.RecipeError.TheVariants as recipe_error;

    ghost from_gives = { λ _ error. error ≡ recipe_error.NoMemory };

    fn from(_: NoMemory) -> Self {
        RecipeError::NoMemory
    }
}

/// How often a character is in a recipe.
fn tags_in(recipe: &[char], tag: char) -> usize
    ensures { result ≡ tags_in tag recipe.now }
{
    recipe.iter().filter(|c| **c == tag).count()
}

/// Whether a return type is one that a text has.
fn returns_text(ret: Option<Ty>, classes: &Classes) -> bool
    ensures { result ≡ returns_text classes.now ret }
{
    match ret {
        Some(ty) => is_type_below(STRING, ty, classes),
        None => false,
    }
}

/// The message of the first thing that is wrong.
fn refusal_of(
    recipe: &[char],
    constants: &[Value],
    ty: &MethodTy,
    classes: &Classes,
) -> Option<&'static [u8]>
    ensures { option_map (λ message. message.now) result
        ≡ refusal_of classes.now recipe.now constants.now ty.now }
{
    if all_slots(ty.params.as_slice()) > MOST_CONCAT_SLOTS {
        Some(b"slots")
    } else if tags_in(recipe, ARGUMENT) != ty.params.len() {
        Some(b"arguments")
    } else if !returns_text(ty.ret, classes) {
        Some(b"return")
    } else if tags_in(recipe, CONSTANT) != constants.len() {
        Some(b"constants")
    } else {
        None
    }
}

/// Puts a text after other pieces, if it is not empty.
fn push_lit(pieces: &mut Seq<Piece>, text: Str) -> Result<(), NoMemory>
    ensures { OnOk result (pieces.new ≡ pieces.old ++ lit_of text) }
{
    if text.is_empty() {
        return Ok(());
    }
    pieces.push(Piece::Lit(text))
}

/// Puts literal characters after other pieces, and leaves none of them.
fn push_run(alloc: Global, pieces: &mut Seq<Piece>, run: Seq<char>) -> Result<Seq<char>, NoMemory>
    ensures put { OnOk result (pieces.new ≡ pieces.old ++ lit_of run) }
    ensures empty { IfOk result (λ next. next ≡ []) }
{
    if run.is_empty() {
        return Ok(run);
    }
    pieces.push(Piece::Lit(Frozen::of(alloc, run)?))?;
    Ok(Seq::new(alloc))
}

/// Puts the next argument after other pieces, and leaves the other parameter types.
fn push_argument<'a>(pieces: &mut Seq<Piece>, types: &'a [Ty]) -> Result<&'a [Ty], NoMemory>
    ensures put { OnOk result (pieces.new ≡ pieces.old ++ arg_of types.now) }
    ensures rest { IfOk result (λ rest. rest.now ≡ drop 1 types.now) }
{
    match types {
        [] => Ok(types),
        [ty, rest @ ..] => {
            pieces.push(Piece::Arg(*ty))?;
            Ok(rest)
        }
    }
}

/// Puts the next constant after other pieces, and leaves the other constants.
fn push_constant<'a>(
    alloc: Global,
    pieces: &mut Seq<Piece>,
    constants: &'a [Value],
    classes: &Classes,
) -> Result<&'a [Value], NoMemory>
    ensures put { OnOk result (pieces.new ≡ pieces.old ++ constant_of classes.now constants.now) }
    ensures rest { IfOk result (λ rest. rest.now ≡ drop 1 constants.now) }
{
    match constants {
        [] => Ok(constants),
        [value, rest @ ..] => {
            push_lit(pieces, text_of(alloc, value, classes)?)?;
            Ok(rest)
        }
    }
}

/// The pieces of a recipe, by its parameter types and constants.
fn spelled_pieces(
    alloc: Global,
    recipe: &[char],
    types: &[Ty],
    constants: &[Value],
    classes: &Classes,
) -> Result<Seq<Piece>, NoMemory>
    ensures { IfOk result (λ pieces. pieces
        ≡ spelled_pieces classes.now recipe.now types.now constants.now) }
{
    let mut pieces = Seq::new(alloc);
    let mut run = Seq::new(alloc);
    let mut params = types;
    let mut values = constants;
    for character in recipe {
        if *character == ARGUMENT {
            run = push_run(alloc, &mut pieces, run)?;
            params = push_argument(&mut pieces, params)?;
            continue;
        }
        if *character == CONSTANT {
            run = push_run(alloc, &mut pieces, run)?;
            values = push_constant(alloc, &mut pieces, values, classes)?;
            continue;
        }
        run.push(*character)?;
    }
    push_run(alloc, &mut pieces, run)?;
    Ok(pieces)
}

/// The pieces of a recipe of `StringConcatFactory.makeConcatWithConstants`: U+0001 is the next
/// argument, U+0002 the next constant, and any other character itself. A text among the constants
/// is shared. A recipe that does not fit the constants and the method type is refused.
pub fn read_recipe(
    alloc: Global,
    recipe: &Str,
    constants: &Items,
    ty: &MethodTy,
    classes: &Classes,
) -> Result<Pieces, RecipeError>
    ensures { TellsPieces result (pieces_of classes.now recipe.now constants.now ty.now) }
{
    let recipe = recipe.as_slice();
    let constants = constants.as_slice();
    if let Some(message) = refusal_of(recipe, constants, ty, classes) {
        let refusal = Exc::saying(alloc, ClassId::STRING_CONCAT, message)?;
        return Err(RecipeError::Refused(refusal));
    }
    let pieces = spelled_pieces(alloc, recipe, ty.params.as_slice(), constants, classes)?;
    Ok(Pieces::of(alloc, pieces)?)
}
