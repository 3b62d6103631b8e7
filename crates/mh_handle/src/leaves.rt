ghost use Rattle.std.specs.Prelude.{◌≡◌, ◌<◌, [], length, IfOk};
ghost use Rattle.mh_leaf.specs.WellTyped.{IsWellTyped};
ghost use Rattle.mh_tree.specs.Tree as tree;
ghost use Rattle.mh_tree.specs.Typing.{type_of};
ghost use Rattle.mh_handle.specs.Recipe.{recipe};
ghost use Rattle.mh_handle.specs.Works.{IsReady, GoesOn, Makes, IsAccepted, StandsIn, TradesTypes, leaves_of, types_in};

use crate::error::HandleError;
use crate::growth::{Growth, one_field};
use crate::handle::Handle;
use crate::parts::Parts;
use crate::work::Work;
use mh_base::Copied;
use mh_edit::Key;
use mh_form::{Field, shape};
use mh_leaves::Leaves;
use mh_values::LeafId;
use std::sync::Wait;

/// A handle of a leaf. No rule refuses it.
pub fn leaf<'t, R: Wait>(
    w: &mut Work<'_, 't>,
    rt: &R,
    id: LeafId,
) -> Result<Handle<'t>, HandleError>
    requires leaf { id.0 < length (leaves_of w.old).leaves }
    requires ready { IsReady w.old 1 }
    ensures goes_on { GoesOn 1 w.old w.new }
    ensures makes { Makes (recipe (leaves_of w.old) (tree.Leaf id)) w.old w.new result }
    ensures accepted { IsAccepted result }
    ensures types { TradesTypes
        (types_in (type_of (leaves_of w.old) (tree.Leaf id))) [] w.old w.new result }
    ensures stands { IfOk result (λ h. StandsIn w.old h (tree.Leaf id)) }
{
    are_well_typed(w.leaves);
    let ty = w.leaves.ty(id).copy(w.alloc)?;
    let shape = shape(w.alloc, &ty)?;
    let fields = one_field(w.alloc, Field::Leaf(id))?;
    let by = Growth {
        ty,
        weight: 1,
        key: Key::LeafRoot { shape },
        parts: Parts::of_fields(w.alloc, fields),
    };
    Handle::make_rooted(w, rt, by)
}

// Shows, for proofs, that the leaves of a manifest are well typed. It does nothing when it runs.
fn are_well_typed(leaves: &Leaves)
    ensures { IsWellTyped leaves.now }
{
    let _count = leaves.count();
    let _classes = leaves.classes().len();
}
