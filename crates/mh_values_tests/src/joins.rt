ghost use Rattle.std.specs.Prelude.{◌≡◌, ◌∷◌, [], codes, IfOk};
ghost use Rattle.mh_values.specs.declared.types.Primitive.TheVariants as primitive;
ghost use Rattle.mh_values.specs.declared.types.Ty.TheVariants as ty;
ghost use Rattle.mh_pieces.specs.declared.piece.Piece.TheVariants as piece;

use crate::bodies::{gives, naming, one_place, text};
use mh_base::{Frozen, NoMemory, Seq};
use mh_form::{Field, Name, Piece, Pieces, Slot, join_pieces};
use mh_texts::{show_exc, show_value};
use mh_values::{Classes, Num, Outcome, Primitive, Ty, Value, are_typed};
use std::alloc::Global;
use std::test::Fail;

/// `x=` before a boolean.
fn labelled(alloc: Global) -> Result<Pieces, NoMemory>
    ensures { IfOk result (λ pieces. pieces
        ≡ piece.Lit (codes "x=") ∷ piece.Arg (ty.Prim primitive.Z) ∷ []) }
{
    let label = Frozen::of(alloc, Seq::from_vec(vec![in alloc; 'x', '=']?))?;
    let pieces = vec![in alloc; Piece::Lit(label), Piece::Arg(Ty::Prim(Primitive::Z))]?;
    Pieces::of(alloc, Seq::from_vec(pieces))
}

#[test]
fn joins_pieces(rt: HostRuntime) -> Result<(), Fail> {
    let name = Name::Join(0, one_place(rt.alloc(), 0)?);
    let field = Field::Joined(labelled(rt.alloc())?);
    let body = naming(rt.alloc(), name, 1)?;
    let gave = gives(rt.alloc(), &body, field, Slot::I(1))?;
    assert_eq!(rt; text(&gave), "s:x=true");
    Ok(())
}

/// What the pieces join a boolean to, if they take one.
fn joined(alloc: Global) -> Result<Option<Vec<u8>>, NoMemory> {
    let classes = Classes::builtin(alloc)?;
    let pieces = labelled(alloc)?;
    let args = Seq::from_vec(vec![in alloc; Value::Prim(Num::Z(false))]?);
    if !are_typed(args.as_slice(), pieces.arg_types().as_slice(), &classes) {
        return Ok(None);
    }
    let shown = match join_pieces(alloc, &pieces, &args, &classes)? {
        Outcome::Return(None) => Vec::new(alloc),
        Outcome::Return(Some(value)) => show_value(alloc, &value, &classes)?,
        Outcome::Throw(exc) => show_exc(alloc, &exc, &classes)?,
    };
    Ok(Some(shown))
}

#[test]
fn joins_arguments(rt: HostRuntime) -> Result<(), Fail> {
    let joined = joined(rt.alloc())?.ok_or("pieces that take no boolean")?;
    assert_eq!(rt; text(&joined), "s:x=false");
    Ok(())
}
