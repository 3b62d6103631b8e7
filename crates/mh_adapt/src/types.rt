//! The types of the handles that adapters make, found from the handles of their parts.

ghost use Rattle.mh_tree.specs.Adapters.{adapter_row};
ghost use Rattle.mh_tree.specs.Check.{TellsRow};
ghost use Rattle.mh_tree.specs.Joints.{joint_row};
ghost use Rattle.mh_handle.specs.Works.{classes_of};

use mh_handle::{Handle, Work};
use mh_tree::{Adapter, CheckError, Joint, Typed, check_adapter, check_joint};
use mh_values::MethodTy;

/// The type of the adapted handle, or the refusal.
pub(crate) fn adapter_type<'t>(
    w: &Work<'_, 't>,
    target: &Handle<'t>,
    adapter: &Adapter<'_>,
) -> Result<MethodTy, CheckError>
    ensures tells { TellsRow result
        (adapter_row (classes_of w.now) adapter.now target.now.ty target.now.weight) }
{
    let target = Typed {
        ty: target.ty(),
        weight: target.weight(),
    };
    check_adapter(w.alloc, target, adapter, w.classes())
}

/// The type of a handle joined with a part, or the refusal.
pub(crate) fn joint_type<'t>(
    w: &Work<'_, 't>,
    target: &Handle<'t>,
    joint: Joint,
    part: &Handle<'t>,
) -> Result<MethodTy, CheckError>
    ensures tells { TellsRow result
        (joint_row joint target.now.ty target.now.weight part.now.ty part.now.weight) }
{
    let target = Typed {
        ty: target.ty(),
        weight: target.weight(),
    };
    let part = Typed {
        ty: part.ty(),
        weight: part.weight(),
    };
    check_joint(w.alloc, target, joint, part, w.classes())
}
