ghost use Rattle.mh_tree.specs.Adapters.{adapter_row};
ghost use Rattle.mh_tree.specs.Check.{TellsRow};

use crate::CheckError;
use crate::adapters::{check_bind, check_drop};
use crate::joints::Typed;
use crate::reordering::check_permute;
use mh_values::{Classes, MethodTy, Tys, Value};
use std::alloc::Global;

/// An adapter of a tree's arguments that runs no part. It owns the value, types or order that the
/// adapted tree keeps.
#[derive(Debug, Drop)]
pub enum Adapter<'a> {
    /// `MethodHandles.insertArguments` with one value
    Bind {
        position: u8,
        value: Value,
    },
    /// `MethodHandles.dropArguments`
    Drop {
        position: u8,
        types: &'a Tys,
    },
    /// `MethodHandles.permuteArguments`
    Permute {
        asked: &'a MethodTy,
        order: &'a [u8],
    },
}

/// The type that an adapter gives to a tree, or the refusal by the adapter's rule.
pub fn check_adapter(
    alloc: Global,
    target: Typed<'_>,
    adapter: &Adapter<'_>,
    classes: &Classes,
) -> Result<MethodTy, CheckError>
    ensures { TellsRow result (adapter_row classes.now adapter.now
        target.entry.ty.now target.entry.weight) }
{
    let (ty, weight) = (target.ty, target.weight);
    match adapter {
        Adapter::Bind { position, value } => {
            check_bind(alloc, ty, weight, *position, value, classes)
        }
        Adapter::Drop { position, types } => {
            check_drop(alloc, ty, weight, *position, types, classes)
        }
        Adapter::Permute { asked, order } => {
            check_permute(alloc, ty, weight, asked, order, classes)
        }
    }
}
