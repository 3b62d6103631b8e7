ghost use Rattle.std.specs.Prelude.{◌≡◌, option_to_list};
ghost use Rattle.mh_values.specs.Same.{are_same_types};
ghost use Rattle.mh_tree.specs.Check.{TellsRow};
ghost use Rattle.mh_tree.specs.Rows.{count_of, gives_at, bind_row, drop_row, filter_row, filterret_row, fold_row, collect_row};

use crate::CheckError;
use crate::error::refused;
use crate::limits::{limited, spliced};
use mh_convert::misfit;
use mh_values::{
    Classes, MethodTy, Ty, Tys, Value, are_same_types, begins_with_types, is_same_return,
};
use std::alloc::Global;

/// How many parameters the result of a part takes the place of: none if it is void.
fn count_of(ret: Option<Ty>) -> usize
    ensures { result ≡ count_of ret }
{
    match ret {
        None => 0,
        Some(_) => 1,
    }
}

/// Whether the result of a part can take the place of the parameter at a place.
fn gives_at(ret: Option<Ty>, place: usize, params: &[Ty]) -> bool
    ensures { result ≡ gives_at ret place params.now }
{
    match ret {
        None => place <= params.len(),
        Some(_) => is_same_return(params.get(place).copied(), ret),
    }
}

/// Whether a filter takes exactly the result, or nothing if there is none.
fn takes_result(params: &[Ty], ret: Option<Ty>) -> bool
    ensures { result ≡ are_same_types params.now (option_to_list ret) }
{
    match ret {
        None => are_same_types(params, &[]),
        Some(ret) => are_same_types(params, &[ret]),
    }
}

/// The type of a tree with a value bound to a parameter (`MethodHandles.insertArguments`, SE 17).
/// Refused if there is no such parameter, or if the value does not fit it.
pub fn check_bind(
    alloc: Global,
    target: &MethodTy,
    target_weight: u32,
    position: u8,
    value: &Value,
    classes: &Classes,
) -> Result<MethodTy, CheckError>
    ensures { TellsRow result (bind_row classes.now target.now target_weight position value.now) }
{
    let place = usize::from(position);
    let Some(parameter) = target.params.as_slice().get(place) else {
        return Err(refused(alloc, b"bind"));
    };
    if let Some(exc) = misfit(value, *parameter, classes) {
        return Err(CheckError::Refused(exc.with_message(alloc, b"bind")?));
    }
    let params = spliced(alloc, target.params.as_slice(), place, 1, &[])?;
    let weight = 1 + u64::from(target_weight);
    let ret = target.ret;
    limited(alloc, b"bind", weight, MethodTy { params, ret })
}

/// The type of a tree with parameters added, whose arguments are dropped
/// (`MethodHandles.dropArguments`, SE 17). Refused if the place is after the last parameter.
pub fn check_drop(
    alloc: Global,
    target: &MethodTy,
    target_weight: u32,
    position: u8,
    types: &Tys,
    _classes: &Classes,
) -> Result<MethodTy, CheckError>
    ensures { TellsRow result (drop_row target.now target_weight position types.now) }
{
    let place = usize::from(position);
    if place > target.params.len() {
        return Err(refused(alloc, b"drop"));
    }
    let params = spliced(alloc, target.params.as_slice(), place, 0, types.as_slice())?;
    let weight = 1 + u64::from(target_weight);
    let ret = target.ret;
    limited(alloc, b"drop", weight, MethodTy { params, ret })
}

/// The type of a tree with a filter on one argument (`MethodHandles.filterArguments`, SE 17).
/// Refused if there is no such parameter, or if the filter does not take one argument and give that
/// parameter's type.
pub fn check_filter(
    alloc: Global,
    target: &MethodTy,
    target_weight: u32,
    position: u8,
    filter: &MethodTy,
    filter_weight: u32,
    _classes: &Classes,
) -> Result<MethodTy, CheckError>
    ensures { TellsRow result
        (filter_row target.now target_weight position filter.now filter_weight) }
{
    let place = usize::from(position);
    if filter.params.len() != 1
        || filter.ret.is_none()
        || !gives_at(filter.ret, place, target.params.as_slice())
    {
        return Err(refused(alloc, b"filter"));
    }
    let params = spliced(
        alloc,
        target.params.as_slice(),
        place,
        1,
        filter.params.as_slice(),
    )?;
    let weight = 1 + u64::from(target_weight) + u64::from(filter_weight);
    let ret = target.ret;
    limited(alloc, b"filter", weight, MethodTy { params, ret })
}

/// The type of a tree with a filter on its result (`MethodHandles.filterReturnValue`, SE 17).
/// Refused if the filter does not take exactly that result, or nothing if there is none.
pub fn check_filterret(
    alloc: Global,
    target: &MethodTy,
    target_weight: u32,
    filter: &MethodTy,
    filter_weight: u32,
    _classes: &Classes,
) -> Result<MethodTy, CheckError>
    ensures { TellsRow result (filterret_row target.now target_weight filter.now filter_weight) }
{
    if !takes_result(filter.params.as_slice(), target.ret) {
        return Err(refused(alloc, b"filterret"));
    }
    let ty = MethodTy {
        params: target.params.copy()?,
        ret: filter.ret,
    };
    limited(
        alloc,
        b"filterret",
        1 + u64::from(target_weight) + u64::from(filter_weight),
        ty,
    )
}

/// The type of a tree one of whose arguments a combiner computes from those that follow
/// (`MethodHandles.foldArguments`, SE 17). Refused if the combiner gives a value that is not of the
/// parameter's type, or does not take the first parameters that follow.
pub fn check_fold(
    alloc: Global,
    target: &MethodTy,
    target_weight: u32,
    position: u8,
    combiner: &MethodTy,
    combiner_weight: u32,
    _classes: &Classes,
) -> Result<MethodTy, CheckError>
    ensures { TellsRow result
        (fold_row target.now target_weight position combiner.now combiner_weight) }
{
    let place = usize::from(position);
    if !gives_at(combiner.ret, place, target.params.as_slice()) {
        return Err(refused(alloc, b"fold"));
    }
    let params = spliced(
        alloc,
        target.params.as_slice(),
        place,
        count_of(combiner.ret),
        &[],
    )?;
    if !begins_with_types(&params.as_slice()[place..], combiner.params.as_slice()) {
        return Err(refused(alloc, b"fold"));
    }
    let weight = 1 + u64::from(target_weight) + u64::from(combiner_weight);
    let ret = target.ret;
    limited(alloc, b"fold", weight, MethodTy { params, ret })
}

/// The type of a tree one of whose arguments a filter computes from any number of its own
/// (`MethodHandles.collectArguments`, SE 17). A void filter only runs first. Refused if the filter
/// gives a value that is not of the parameter's type, or if it is void and the place is after the
/// last parameter.
pub fn check_collect(
    alloc: Global,
    target: &MethodTy,
    target_weight: u32,
    position: u8,
    filter: &MethodTy,
    filter_weight: u32,
    _classes: &Classes,
) -> Result<MethodTy, CheckError>
    ensures { TellsRow result
        (collect_row target.now target_weight position filter.now filter_weight) }
{
    let place = usize::from(position);
    if !gives_at(filter.ret, place, target.params.as_slice()) {
        return Err(refused(alloc, b"collect"));
    }
    let params = spliced(
        alloc,
        target.params.as_slice(),
        place,
        count_of(filter.ret),
        filter.params.as_slice(),
    )?;
    let weight = 1 + u64::from(target_weight) + u64::from(filter_weight);
    let ret = target.ret;
    limited(alloc, b"collect", weight, MethodTy { params, ret })
}
