ghost use Rattle.std.specs.Prelude.{◌≡◌, ◌+◌, ◌++◌, ◌≤◌, nat_le, length, IfOk, OnOk};
ghost use Rattle.mh_values.specs.Computation.{spliced};
ghost use Rattle.mh_tree.specs.Check.{TellsRow};
ghost use Rattle.mh_tree.specs.Rows.{limited};

use crate::CheckError;
use crate::error::refused;
use mh_base::{NoMemory, Seq};
use mh_values::{ClassId, Exc, MOST_SLOTS, MethodTy, Ty, Tys, all_slots};
use std::alloc::Global;

/// The most that a tree can weigh, in nodes.
const MOST_WEIGHT: u64 = 256;

/// The type, if it is within the limits: at most 254 argument slots, and a weight of at most 256.
/// Otherwise refused with the combinator's word.
#[inline(always)]
pub(crate) fn limited(
    alloc: Global,
    word: &[u8],
    weight: u64,
    ty: MethodTy,
) -> Result<MethodTy, CheckError>
    ensures { TellsRow result (limited word.now weight ty) }
{
    if all_slots(ty.params.as_slice()) > MOST_SLOTS {
        return Err(refused(alloc, word));
    }
    if weight > MOST_WEIGHT {
        return Err(CheckError::Refused(Exc::saying(alloc, ClassId::INTERNAL_ERROR, b"weight")?));
    }
    Ok(ty)
}

/// These types with others in place of `taken` of them from a place on.
#[inline(always)]
pub(crate) fn spliced(
    alloc: Global,
    types: &[Ty],
    place: usize,
    taken: usize,
    given: &[Ty],
) -> Result<Tys, NoMemory>
    requires { place + taken ≤ length types.now }
    ensures { IfOk result (λ all. all ≡ spliced place taken given.now types.now) }
{
    let mut all = Vec::with_capacity(alloc, types.len() - taken + given.len())?;
    put_all(&mut all, &types[..place])?;
    put_all(&mut all, given)?;
    put_all(&mut all, &types[place + taken..])?;
    Ok(Seq::from_vec(all))
}

// Puts types at the end. It is quicker for no types than `extend_from_slice`.
#[inline(always)]
fn put_all(all: &mut Vec<Ty>, more: &[Ty]) -> Result<(), NoMemory>
    ensures { OnOk result (all.new.items ≡ all.old.items ++ more.now) }
{
    if !more.is_empty() {
        all.extend_from_slice(more)?;
    }
    Ok(())
}
