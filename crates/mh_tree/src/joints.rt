ghost use Rattle.mh_tree.specs.Check.{TellsRow};
ghost use Rattle.mh_tree.specs.Joints.{joint_row};

use crate::CheckError;
use crate::adapters::{check_collect, check_filter, check_filterret, check_fold};
use mh_values::{Classes, MethodTy};
use std::alloc::Global;

/// How a tree is joined with a part that runs before or after it. The number is the position of the
/// parameter that the part computes.
#[derive(Clone, Copy, Debug)]
pub enum Joint {
    /// `MethodHandles.filterArguments` with one filter
    Filter(u8),
    /// `MethodHandles.filterReturnValue`
    FilterReturn,
    /// `MethodHandles.foldArguments`
    Fold(u8),
    /// `MethodHandles.collectArguments`
    Collect(u8),
}

/// A tree as the rules see it: its type and its weight.
#[derive(Clone, Copy, Debug)]
pub struct Typed<'a> {
    pub ty: &'a MethodTy,
    pub weight: u32,
}

/// The type of a tree joined with a part, or the refusal by the joint's rule.
pub fn check_joint(
    alloc: Global,
    target: Typed<'_>,
    joint: Joint,
    part: Typed<'_>,
    classes: &Classes,
) -> Result<MethodTy, CheckError>
    ensures { TellsRow result (joint_row joint target.entry.ty.now target.entry.weight
        part.entry.ty.now part.entry.weight) }
{
    let (ty, weight) = (target.ty, target.weight);
    match joint {
        Joint::Filter(at) => check_filter(alloc, ty, weight, at, part.ty, part.weight, classes),
        Joint::FilterReturn => check_filterret(alloc, ty, weight, part.ty, part.weight, classes),
        Joint::Fold(at) => check_fold(alloc, ty, weight, at, part.ty, part.weight, classes),
        Joint::Collect(at) => check_collect(alloc, ty, weight, at, part.ty, part.weight, classes),
    }
}
