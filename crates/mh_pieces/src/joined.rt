ghost use Rattle.std.specs.Prelude.{◌≡◌, ◌++◌, ◌-◌, ◌^◌, length, min, IfOk, OnOk};
ghost use Rattle.mh_values.specs.HasType.{HaveTypes};
ghost use Rattle.mh_pieces.specs.Joined.{arg_types, args_after, joined, joined_text, next_text, piece_text, short_length};

use crate::lengths::text_length;
use crate::texts::{push_chars, push_text};
use crate::{Piece, Pieces};
use mh_base::{Frozen, NoMemory, Seq};
use mh_values::{ClassId, Classes, Exc, Items, MOST_CHARACTERS, Outcome, Value};
use std::alloc::Global;

/// What is left after a piece, of arguments or of their places: a piece that takes an argument
/// takes the first.
pub fn args_after<'a, T>(piece: &Piece, args: &'a [T]) -> &'a [T]
    ensures { result.now ≡ args_after piece.now args.now }
{
    match (piece, args) {
        (Piece::Arg(_), [_, rest @ ..]) => rest,
        _ => args,
    }
}

/// The number of characters of the next argument's text, as far as 64 bits count them.
fn next_length(args: &[Value], classes: &Classes) -> usize
    ensures { result ≡ min (length (next_text classes.now args.now)) (2 ^ 64 - 1) }
{
    match args {
        [] => 0,
        [value, ..] => text_length(value, classes),
    }
}

/// The number of characters of a piece's text, in the same way.
fn piece_length(piece: &Piece, args: &[Value], classes: &Classes) -> usize
    ensures { result ≡ min (length (piece_text classes.now piece.now args.now)) (2 ^ 64 - 1) }
{
    match piece {
        Piece::Lit(text) => text.len(),
        Piece::Arg(_) => next_length(args, classes),
    }
}

/// The number of characters that pieces join to, if they are not too many for a text. No piece
/// is looked at after the one that makes them too many.
fn joined_length(pieces: &[Piece], args: &[Value], classes: &Classes) -> Option<usize>
    ensures { result ≡ short_length (joined_text classes.now pieces.now args.now) }
{
    let mut left = args;
    let mut all = 0;
    for piece in pieces {
        let more = piece_length(piece, left, classes);
        let room = MOST_CHARACTERS - all;
        if more > room {
            return None;
        }
        all += more;
        left = args_after(piece, left);
    }
    Some(all)
}

/// Writes the text of the next argument.
fn push_next(chars: &mut Vec<char>, args: &[Value], classes: &Classes) -> Result<(), NoMemory>
    ensures { OnOk result (chars.new.items ≡ chars.old.items ++ next_text classes.now args.now) }
{
    match args {
        [] => Ok(()),
        [value, ..] => push_text(chars, value, classes),
    }
}

/// Writes the text of a piece.
fn push_piece(
    chars: &mut Vec<char>,
    piece: &Piece,
    args: &[Value],
    classes: &Classes,
) -> Result<(), NoMemory>
    ensures { OnOk result (chars.new.items
        ≡ chars.old.items ++ piece_text classes.now piece.now args.now) }
{
    match piece {
        Piece::Lit(text) => push_chars(chars, text.as_slice()),
        Piece::Arg(_) => push_next(chars, args, classes),
    }
}

/// Writes what pieces join to.
fn push_joined(
    chars: &mut Vec<char>,
    pieces: &[Piece],
    args: &[Value],
    classes: &Classes,
) -> Result<(), NoMemory>
    ensures { OnOk result (chars.new.items
        ≡ chars.old.items ++ joined_text classes.now pieces.now args.now) }
{
    let mut left = args;
    for piece in pieces {
        push_piece(chars, piece, left, classes)?;
        left = args_after(piece, left);
    }
    Ok(())
}

/// The text that pieces join to, each argument as its text, in one allocation of its length. The
/// arguments have the types that the pieces take. A text of more than [`MOST_CHARACTERS`] throws
/// `InternalError`, and is not built.
#[tactic(auto, using(crate::proofs::Joins::long_text, crate::proofs::Joins::short_text))]
pub fn join_pieces(
    alloc: Global,
    pieces: &Pieces,
    args: &Items,
    classes: &Classes,
) -> Result<Outcome, NoMemory>
    requires { HaveTypes classes.now args.now (arg_types pieces.now) }
    ensures { IfOk result (λ outcome. outcome ≡ joined classes.now pieces.now args.now) }
{
    let pieces = pieces.as_slice();
    let args = args.as_slice();
    let Some(characters) = joined_length(pieces, args, classes) else {
        let refusal = Exc::saying(alloc, ClassId::INTERNAL_ERROR, b"string too long")?;
        return Ok(Outcome::Throw(refusal));
    };
    let mut chars = Vec::with_capacity(alloc, characters)?;
    push_joined(&mut chars, pieces, args, classes)?;
    let text = Frozen::of(alloc, Seq::from_vec(chars))?;
    Ok(Outcome::Return(Some(Value::Text(text))))
}
