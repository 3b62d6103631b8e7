ghost use Rattle.std.specs.Prelude.{◌≡◌, replicate, IfOk};
ghost use Rattle.std.specs.List.{list_all};
ghost use Rattle.mh_values.specs.Same.{is_same_type};
ghost use Rattle.mh_tree.specs.Check.{TellsRow};
ghost use Rattle.mh_tree.specs.Rows.{component_of, ends_with, takes_array, spread_row, gather_row};

use crate::CheckError;
use crate::error::refused;
use crate::limits::{limited, spliced};
use mh_base::{NoMemory, Seq};
use mh_values::{Classes, Comp, MOST_ITEMS, MethodTy, Ty, Tys, is_same_type, is_type_below};
use std::alloc::Global;

/// The component of an array type.
fn component_of(ty: Option<Ty>) -> Option<Comp>
    ensures { result ≡ component_of ty }
{
    match ty {
        Some(Ty::Array(component)) => Some(component),
        _ => None,
    }
}

/// Whether all these types are one type.
fn are_all(types: &[Ty], ty: Ty) -> bool
    ensures { result ≡ list_all (λ t. is_same_type t ty) types.now }
{
    types.iter().all(|own| is_same_type(*own, ty))
}

/// Whether the last `count` parameters all have this type.
fn ends_with(params: &[Ty], count: usize, ty: Ty) -> bool
    ensures { result ≡ ends_with params.now count ty }
{
    count <= params.len() && are_all(params.split_at(params.len() - count).1, ty)
}

/// The type of a tree whose last arguments come in an array (`MethodHandle.asSpreader`, SE 17).
/// Refused if the type is no array, or if the last `count` parameters do not all have the type of
/// the array's items.
pub fn check_spread(
    alloc: Global,
    target: &MethodTy,
    target_weight: u32,
    array: Option<Ty>,
    count: u8,
    _classes: &Classes,
) -> Result<MethodTy, CheckError>
    ensures { TellsRow result (spread_row target.now target_weight array count) }
{
    let count = usize::from(count);
    let Some(component) = component_of(array) else {
        return Err(refused(alloc, b"spread"));
    };
    let params = target.params.as_slice();
    if !ends_with(params, count, component.item_type()) {
        return Err(refused(alloc, b"spread"));
    }
    let params = spliced(
        alloc,
        params,
        params.len() - count,
        count,
        &[Ty::Array(component)],
    )?;
    let weight = 1 + u64::from(target_weight);
    let ret = target.ret;
    limited(alloc, b"spread", weight, MethodTy { params, ret })
}

/// Whether an array of the component can be passed to the last parameter.
fn takes_array(component: Comp, last: Option<Ty>, classes: &Classes) -> bool
    ensures { result ≡ takes_array classes.now component last }
{
    match last {
        None => false,
        Some(last) => is_type_below(Ty::Array(component), last, classes),
    }
}

/// A type, `count` times.
fn repeated(alloc: Global, ty: Ty, count: usize) -> Result<Tys, NoMemory>
    ensures { IfOk result (λ types. types ≡ replicate count ty) }
{
    Ok(Seq::from_vec(vec![in alloc; ty; count]?))
}

/// The type of a tree whose last argument is an array of several (`MethodHandle.asCollector`, SE
/// 17). Refused if the type is no array, if such an array cannot be passed to the last parameter,
/// or if it would have more items than an array may have.
pub fn check_gather(
    alloc: Global,
    target: &MethodTy,
    target_weight: u32,
    array: Option<Ty>,
    count: u8,
    classes: &Classes,
) -> Result<MethodTy, CheckError>
    ensures { TellsRow result (gather_row classes.now target.now target_weight array count) }
{
    let count = usize::from(count);
    let Some(component) = component_of(array) else {
        return Err(refused(alloc, b"gather"));
    };
    let params = target.params.as_slice();
    if params.is_empty()
        || !takes_array(component, params.last().copied(), classes)
        || count > MOST_ITEMS
    {
        return Err(refused(alloc, b"gather"));
    }
    let items = repeated(alloc, component.item_type(), count)?;
    let params = spliced(alloc, params, params.len() - 1, 1, items.as_slice())?;
    let weight = 1 + u64::from(target_weight);
    let ret = target.ret;
    limited(alloc, b"gather", weight, MethodTy { params, ret })
}
