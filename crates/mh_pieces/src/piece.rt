ghost use Rattle.std.specs.Prelude.{◌≡◌, ◌++◌, IfOk, OnOk};
ghost use Rattle.mh_pieces.specs.Joined.{arg_types, types_of_piece};

use mh_base::{Copied, Frozen, NoMemory, Seq, Shared};
use mh_values::{Str, Ty, Tys};
use std::alloc::Global;
use std::marker::Model;

/// A part of a concatenation: a text, or an argument of a type.
#[derive(Debug, Drop)]
pub enum Piece {
    Lit(Str),
    Arg(Ty),
}

/// The parts of a concatenation, in order. A copy shares them, so it takes no memory. Contracts see
/// the list of pieces.
#[derive(Debug, Drop)]
pub struct Pieces {
    pieces: Frozen<Piece>,
    types: Shared<Tys>,
}

impl Model for Pieces {
    ghost use Rattle.std.specs.Prelude.{◌≡◌, List};
    ghost use Rattle.mh_pieces.specs.declared.piece.Piece.{Piece};
    ghost use Rattle.mh_pieces.specs.Joined.{arg_types};

    ghost Value = { List Piece };

    ghost view = { λ p. p.pieces };

    ghost invariant = { λ p. p.types ≡ arg_types p.pieces };
}

/// Puts the type of the argument that a piece takes after others, if it takes one.
fn push_type(types: &mut Tys, piece: &Piece) -> Result<(), NoMemory>
    ensures { OnOk result (types.new ≡ types.old ++ types_of_piece piece.now) }
{
    match piece {
        Piece::Lit(_) => Ok(()),
        Piece::Arg(ty) => types.push(*ty),
    }
}

/// The types of the arguments that pieces take.
fn types_of(alloc: Global, pieces: &[Piece]) -> Result<Tys, NoMemory>
    ensures { IfOk result (λ types. types ≡ arg_types pieces.now) }
{
    let mut types = Seq::new(alloc);
    for piece in pieces {
        push_type(&mut types, piece)?;
    }
    Ok(types)
}

impl Pieces {
    /// The pieces of a list, which are not copied.
    pub fn of(alloc: Global, pieces: Seq<Piece>) -> Result<Pieces, NoMemory>
        ensures { IfOk result (λ made. made ≡ pieces) }
    {
        let types = types_of(alloc, pieces.as_slice())?;
        let types = Shared::new(alloc, types)?;
        let pieces = Frozen::of(alloc, pieces)?;
        Ok(Pieces { pieces, types })
    }

    /// The pieces as a slice.
    pub fn as_slice(&self) -> &[Piece]
        ensures { result.now ≡ self.now }
    {
        self.pieces.as_slice()
    }

    /// The types of the arguments that they take, in order.
    pub fn arg_types(&self) -> &Tys
        ensures { result.now ≡ arg_types self.now }
    {
        self.types.get()
    }
}

impl Copied for Pieces {
    fn copy(&self, _alloc: Global) -> Result<Pieces, NoMemory> {
        let pieces = self.pieces.copy()?;
        let types = self.types.share()?;
        Ok(Pieces { pieces, types })
    }
}
