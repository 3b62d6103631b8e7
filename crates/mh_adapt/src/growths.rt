//! What a joint adds to a handle, found from the handle and the part.

ghost use Rattle.std.specs.Prelude.{◌≡◌, IfOk, Ok};
ghost use Rattle.mh_tree.specs.Joints.{joint_row};
ghost use Rattle.mh_handle.specs.Stands.{IsShaped};
ghost use Rattle.mh_adapt.specs.Parts.{AddsPart, IsCounted, joint_key};

use mh_base::NoMemory;
use mh_edit::Key;
use mh_form::shape;
use mh_handle::{Growth, Handle, Parts};
use mh_tree::Joint;
use mh_values::MethodTy;
use std::alloc::Global;

/// The key of a joint with a part.
fn joint_key<'t>(alloc: Global, joint: Joint, part: &Handle<'t>) -> Result<Key, NoMemory>
    requires counted { IsCounted joint part.now.ty }
    ensures shaped { IsShaped part.now }
    ensures key { IfOk result (λ key. key ≡ joint_key joint part.now.ty) }
{
    let shape = shape(alloc, part.ty())?;
    match joint {
        Joint::Filter(pos) | Joint::Collect(pos) => Ok(Key::Collect {
            pos,
            basics: shape.params,
            ret: shape.ret,
        }),
        Joint::FilterReturn => Ok(Key::FilterReturn { ret: shape.ret }),
        Joint::Fold(pos) => Ok(Key::Fold {
            pos,
            count: part.ty().params.len() as u8,
            ret: shape.ret,
        }),
    }
}

/// What a joint of this type adds to `target`, with its key, before the part is added.
pub(crate) fn joint_growth<'t>(
    alloc: Global,
    ty: MethodTy,
    target: &Handle<'t>,
    joint: Joint,
    part: &Handle<'t>,
) -> Result<Growth<'t>, NoMemory>
    requires ruled { joint_row joint target.now.ty target.now.weight part.now.ty part.now.weight
        ≡ Ok ty }
    ensures shaped { IsShaped target.now }
    ensures part { IsShaped part.now }
    ensures ty { IfOk result (λ by. by.ty ≡ ty) }
    ensures adds { IfOk result (AddsPart target.now (joint_key joint part.now.ty) part.now) }
{
    // A target has the shape of its type, so a combiner takes few arguments.
    let _ty = target.ty();
    let key = joint_key(alloc, joint, part)?;
    Ok(Growth {
        ty,
        weight: 1 + target.weight() + part.weight(),
        key,
        parts: Parts::new(alloc),
    })
}
