ghost use Rattle.std.specs.Prelude.{◌≡◌, Some, slice_get};
ghost use Rattle.mh_values.specs.Same.{is_same_return};
ghost use Rattle.mh_tree.specs.Check.{TellsRow};
ghost use Rattle.mh_tree.specs.Rows.{names_types, permute_row};

use crate::CheckError;
use crate::error::refused;
use crate::limits::limited;
use mh_base::Copied;
use mh_values::{Classes, MethodTy, Ty, is_same_return};
use std::alloc::Global;

/// Whether a number names a parameter of the type.
fn names_type(params: &[Ty], number: u8, ty: Ty) -> bool
    ensures { result ≡ is_same_return (slice_get params.now number) (Some ty) }
{
    is_same_return(params.get(usize::from(number)).copied(), Some(ty))
}

/// Whether each number names a parameter of the type at its place in the other list.
fn names_types(params: &[Ty], reorder: &[u8], types: &[Ty]) -> bool
    ensures { result ≡ names_types params.now reorder.now types.now }
{
    if reorder.len() != types.len() {
        return false;
    }
    for i in 0..reorder.len() {
        if !names_type(params, reorder[i], types[i]) {
            return false;
        }
    }
    true
}

/// The type of a tree whose arguments are chosen by an order (`MethodHandles.permuteArguments`,
/// SE 17): the one that is asked for. Refused if the order does not have one entry for each
/// parameter, if an entry names no parameter or one of another type, or if the return types differ.
pub fn check_permute(
    alloc: Global,
    target: &MethodTy,
    target_weight: u32,
    ty: &MethodTy,
    reorder: &[u8],
    _classes: &Classes,
) -> Result<MethodTy, CheckError>
    ensures { TellsRow result (permute_row target.now target_weight ty.now reorder.now) }
{
    if !names_types(ty.params.as_slice(), reorder, target.params.as_slice())
        || !is_same_return(ty.ret, target.ret)
    {
        return Err(refused(alloc, b"permute"));
    }
    limited(
        alloc,
        b"permute",
        1 + u64::from(target_weight),
        ty.copy(alloc)?,
    )
}
