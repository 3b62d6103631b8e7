//! The concatenation of pieces and slots.

ghost use Rattle.std.specs.Prelude.{◌≡◌, ◌≢◌, ◌++◌, ◌-◌, ◌^◌, IfOk, OnOk, None, Some, length, min, option_map};
ghost use Rattle.mh_values.specs.Computation.{Stuck};
ghost use Rattle.mh_pieces.specs.Joined.{short_length};
ghost use Rattle.mh_pieces.specs.ValueText.{text_of};
ghost use Rattle.mh_form.specs.Erasure.{typed};
ghost use Rattle.mh_form.specs.Joins.{joined_text_at, next_text_at, piece_text_at};
ghost use Rattle.mh_form.specs.Slots.{joined_at};
ghost use Rattle.mh_form.specs.Stack.{slot_or_exc};

use crate::erasure::number_in;
use crate::slots::slot_at;
use crate::{Operands, Slot};
use mh_base::{Frozen, NoMemory, Seq};
use mh_pieces::{Piece, Pieces, args_after, push_chars, push_text, text_length};
use mh_values::{ClassId, Classes, Exc, MOST_CHARACTERS, Ty, Value};
use std::alloc::Global;

/// The number of characters of the text of the value of a type that a slot stands for.
#[inline(always)]
fn slot_length(ty: Ty, slot: &Slot, classes: &Classes) -> usize
    requires { typed classes.now ty slot.now ≢ None }
    ensures { option_map (λ v. min (length (text_of classes.now v)) (2 ^ 64 - 1))
        (typed classes.now ty slot.now) ≡ Some result }
{
    match (ty, slot) {
        (Ty::Prim(primitive), _) => text_length(&Value::Prim(number_in(primitive, slot)), classes),
        (_, Slot::L(Value::Text(text))) => text.len(),
        (_, Slot::L(value)) => text_length(value, classes),
        _ => unreachable!(),
    }
}

/// The most characters that are written one by one. For more of them a call takes less.
const FEW: usize = 8;

/// Writes characters one by one.
#[inline(always)]
fn push_few(chars: &mut Vec<char>, text: &[char]) -> Result<(), NoMemory>
    ensures { OnOk result (chars.new.items ≡ chars.old.items ++ text.now) }
{
    chars.reserve(text.len())?;
    for character in text {
        chars.push_reserved(*character);
    }
    Ok(())
}

/// Writes the characters of a text.
#[inline(always)]
fn push_whole(chars: &mut Vec<char>, text: &[char]) -> Result<(), NoMemory>
    ensures { OnOk result (chars.new.items ≡ chars.old.items ++ text.now) }
{
    if text.len() <= FEW {
        push_few(chars, text)
    } else {
        push_chars(chars, text)
    }
}

/// Writes that text.
#[inline(always)]
fn push_slot(chars: &mut Vec<char>, ty: Ty, slot: &Slot, classes: &Classes) -> Result<(), NoMemory>
    requires { typed classes.now ty slot.now ≢ None }
    ensures { OnOk result (option_map (λ v. chars.old.items ++ text_of classes.now v)
        (typed classes.now ty slot.now) ≡ Some chars.new.items) }
{
    match (ty, slot) {
        (Ty::Prim(primitive), _) => {
            push_text(chars, &Value::Prim(number_in(primitive, slot)), classes)
        }
        (_, Slot::L(Value::Text(text))) => push_whole(chars, text.as_slice()),
        (_, Slot::L(value)) => push_text(chars, value, classes),
        _ => unreachable!(),
    }
}

/// The number of characters of the text of the slot at the first of these places.
fn next_length(ty: Ty, slots: &[Slot], places: &[u32], classes: &Classes) -> usize
    requires { next_text_at classes.now slots.now ty places.now ≢ None }
    ensures { option_map (λ t. min (length t) (2 ^ 64 - 1))
        (next_text_at classes.now slots.now ty places.now) ≡ Some result }
{
    match places {
        [] => unreachable!(),
        [place, ..] => slot_length(ty, slot_at(slots, *place), classes),
    }
}

/// Writes that text.
fn push_next(
    chars: &mut Vec<char>,
    ty: Ty,
    slots: &[Slot],
    places: &[u32],
    classes: &Classes,
) -> Result<(), NoMemory>
    requires { next_text_at classes.now slots.now ty places.now ≢ None }
    ensures { OnOk result (option_map (λ t. chars.old.items ++ t)
        (next_text_at classes.now slots.now ty places.now) ≡ Some chars.new.items) }
{
    match places {
        [] => unreachable!(),
        [place, ..] => push_slot(chars, ty, slot_at(slots, *place), classes),
    }
}

/// The number of characters of a piece's text.
fn piece_length(piece: &Piece, slots: &[Slot], places: &[u32], classes: &Classes) -> usize
    requires { piece_text_at classes.now slots.now piece.now places.now ≢ None }
    ensures { option_map (λ t. min (length t) (2 ^ 64 - 1))
        (piece_text_at classes.now slots.now piece.now places.now) ≡ Some result }
{
    match piece {
        Piece::Lit(text) => text.len(),
        Piece::Arg(ty) => next_length(*ty, slots, places, classes),
    }
}

/// Writes the text of a piece.
fn push_piece(
    chars: &mut Vec<char>,
    piece: &Piece,
    slots: &[Slot],
    places: &[u32],
    classes: &Classes,
) -> Result<(), NoMemory>
    requires { piece_text_at classes.now slots.now piece.now places.now ≢ None }
    ensures { OnOk result (option_map (λ t. chars.old.items ++ t)
        (piece_text_at classes.now slots.now piece.now places.now) ≡ Some chars.new.items) }
{
    match piece {
        Piece::Lit(text) => push_chars(chars, text.as_slice()),
        Piece::Arg(ty) => push_next(chars, *ty, slots, places, classes),
    }
}

/// The number of characters that pieces join to, if they are not too many for a text. No piece is
/// looked at after the one that makes them too many.
fn joined_length(
    pieces: &[Piece],
    slots: &[Slot],
    places: &[u32],
    classes: &Classes,
) -> Option<usize>
    requires { joined_text_at classes.now slots.now pieces.now places.now ≢ None }
    ensures { option_map short_length (joined_text_at classes.now slots.now pieces.now places.now)
        ≡ Some result }
{
    let mut left = places;
    let mut all = 0;
    for piece in pieces {
        let more = piece_length(piece, slots, left, classes);
        let room = MOST_CHARACTERS - all;
        if more > room {
            return None;
        }
        all += more;
        left = args_after(piece, left);
    }
    Some(all)
}

/// Writes what pieces join to.
fn push_joined(
    chars: &mut Vec<char>,
    pieces: &[Piece],
    slots: &[Slot],
    places: &[u32],
    classes: &Classes,
) -> Result<(), NoMemory>
    requires { joined_text_at classes.now slots.now pieces.now places.now ≢ None }
    ensures { OnOk result (option_map (λ t. chars.old.items ++ t)
        (joined_text_at classes.now slots.now pieces.now places.now) ≡ Some chars.new.items) }
{
    let mut left = places;
    for piece in pieces {
        push_piece(chars, piece, slots, left, classes)?;
        left = args_after(piece, left);
    }
    Ok(())
}

/// The text that pieces join to, with the slots at these places as their arguments, in one
/// allocation of its length; no argument is copied. A text that is too long for a value is an
/// exception, and is not built.
pub(crate) fn join_at(
    alloc: Global,
    pieces: &Pieces,
    slots: &[Slot],
    places: &Operands,
    classes: &Classes,
) -> Result<Result<Slot, Exc>, NoMemory>
    requires { joined_at classes.now pieces.now slots.now places.now ≢ Stuck }
    ensures { IfOk result (λ given. slot_or_exc given
        ≡ joined_at classes.now pieces.now slots.now places.now) }
{
    let pieces = pieces.as_slice();
    let places = places.as_slice();
    let Some(characters) = joined_length(pieces, slots, places, classes) else {
        let refusal = Exc::saying(alloc, ClassId::INTERNAL_ERROR, b"string too long")?;
        return Ok(Err(refusal));
    };
    let mut chars = Vec::with_capacity(alloc, characters)?;
    push_joined(&mut chars, pieces, slots, places, classes)?;
    let text = Frozen::of(alloc, Seq::from_vec(chars))?;
    Ok(Ok(Slot::L(Value::Text(text))))
}
