ghost use Rattle.std.specs.Prelude.{◌≡◌, [], IfOk, Ok};
ghost use Rattle.mh_tree.specs.Rows.{concat_row};
ghost use Rattle.mh_tree.specs.Tree as tree;
ghost use Rattle.mh_handle.specs.Recipe.{recipe};
ghost use Rattle.mh_handle.specs.Works.{GoesOn, IsAccepted, IsReady, Makes, StandsIn, TradesTypes};
ghost use Rattle.mh_handle.specs.Works.{classes_of, leaves_of, types_in};

use mh_base::Copied;
use mh_edit::Key;
use mh_form::{Field, Pieces, shape};
use mh_handle::{Growth, Handle, HandleError, Parts, Work, one_field};
use mh_values::MethodTy;
use std::sync::Wait;

/// A handle that joins pieces (`StringConcatFactory.makeConcatWithConstants`, SE 17). The pieces
/// must take the parameters of its type, as those that `mh_pieces` reads do. No rule refuses it.
pub fn concat<'t, R: Wait>(
    w: &mut Work<'_, 't>,
    rt: &R,
    ty: &MethodTy,
    pieces: &Pieces,
) -> Result<Handle<'t>, HandleError>
    requires joined { concat_row (classes_of w.old) ty.now pieces.now ≡ Ok ty.now }
    requires ready { IsReady w.old 1 }
    ensures goes_on { GoesOn 1 w.old w.new }
    ensures makes { Makes (recipe (leaves_of w.old) (tree.Concat ty.now pieces.now))
        w.old w.new result }
    ensures accepted { IsAccepted result }
    ensures types { TradesTypes
        (types_in (concat_row (classes_of w.old) ty.now pieces.now)) [] w.old w.new result }
    ensures stands { IfOk result (λ h. StandsIn w.old h (tree.Concat ty.now pieces.now)) }
{
    let _classes = w.classes();
    let own = ty.copy(w.alloc)?;
    let shape = shape(w.alloc, &own)?;
    let copied = pieces.copy(w.alloc)?;
    let fields = one_field(w.alloc, Field::Joined(copied))?;
    let by = Growth {
        ty: own,
        weight: 1,
        key: Key::ConcatRoot { shape },
        parts: Parts::of_fields(w.alloc, fields),
    };
    Handle::make_rooted(w, rt, by)
}
