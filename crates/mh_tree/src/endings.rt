ghost use Rattle.std.specs.Prelude.{◌≡◌, ◌&&◌, drop, length, IfOk};
ghost use Rattle.std.specs.List.{list_all};
ghost use Rattle.mh_values.specs.Same.{begins_with_types, is_same_method_type};
ghost use Rattle.mh_tree.specs.Check.{TellsRow};
ghost use Rattle.mh_tree.specs.Rows.{end_types, cleans_up, may_switch, turn_types, loop_params, may_loop};
ghost use Rattle.mh_tree.specs.Rows.{tryfinally_row, switch_row, counted_row};

use crate::CheckError;
use crate::error::refused;
use crate::limits::limited;
use mh_base::{Copied, NoMemory, Seq};
use mh_values::{
    ClassId, Classes, MethodTy, Primitive, Ty, Tys, begins_with_types, is_same_method_type,
    is_same_return,
};
use std::alloc::Global;

/// The most cases of a switch.
const MOST_CASES: usize = 16;

/// The weight of a loop without its parts: a node for each turn, and what else its calls can need.
const LOOP_WEIGHT: u64 = 126;

/// The types after the first `count`: none if there are fewer.
fn after(types: &[Ty], count: usize) -> &[Ty]
    ensures { result.now ≡ drop count types.now }
{
    match types {
        [_, others @ ..] if count > 0 => after(others, count - 1),
        _ => types,
    }
}

/// Whether a cleanup takes an exception or null, then the result if there is one, then the first
/// parameters of the target.
fn takes_end(cleanup: &[Ty], ret: Option<Ty>, target: &[Ty]) -> bool
    ensures { result ≡ begins_with_types cleanup.now (end_types ret)
        && begins_with_types target.now (drop (length (end_types ret)) cleanup.now) }
{
    let exception = Ty::Class(ClassId::THROWABLE);
    match ret {
        None => begins_with_types(cleanup, &[exception])
            && begins_with_types(target, after(cleanup, 1)),
        Some(ret) => {
            begins_with_types(cleanup, &[exception, ret])
                && begins_with_types(target, after(cleanup, 2))
        }
    }
}

/// The type of a target after which a cleanup runs, however it ends (`MethodHandles.tryFinally`, SE
/// 17). Refused if the cleanup returns another type, or does not take an exception, then the result
/// if there is one, then the first parameters of the target.
pub fn check_tryfinally(
    alloc: Global,
    target: &MethodTy,
    target_weight: u32,
    cleanup: &MethodTy,
    cleanup_weight: u32,
    _classes: &Classes,
) -> Result<MethodTy, CheckError>
    ensures { TellsRow result
        (tryfinally_row target.now target_weight cleanup.now cleanup_weight) }
{
    if !is_same_return(cleanup.ret, target.ret)
        || !takes_end(
            cleanup.params.as_slice(),
            target.ret,
            target.params.as_slice(),
        )
    {
        return Err(refused(alloc, b"tryfinally"));
    }
    let weight = 1 + u64::from(target_weight) + u64::from(cleanup_weight);
    limited(alloc, b"tryfinally", weight, target.copy(alloc)?)
}

/// Whether all these types are that of the fallback.
fn are_all(cases: &[MethodTy], fallback: &MethodTy) -> bool
    ensures { result ≡ list_all (λ c. is_same_method_type c fallback.now) cases.now }
{
    cases.iter().all(|case| is_same_method_type(case, fallback))
}

/// The type of a fallback whose first argument may choose one of several cases instead
/// (`MethodHandles.tableSwitch`, SE 17). The weight of the cases is that of all of them. Refused if
/// there are no cases or more than 16, if they differ in type, or if their first parameter is no
/// int.
pub fn check_switch(
    alloc: Global,
    fallback: &MethodTy,
    fallback_weight: u32,
    cases: &[MethodTy],
    cases_weight: u32,
    _classes: &Classes,
) -> Result<MethodTy, CheckError>
    ensures { TellsRow result
        (switch_row fallback.now fallback_weight cases.now cases_weight) }
{
    if cases.is_empty()
        || cases.len() > MOST_CASES
        || !are_all(cases, fallback)
        || !is_same_return(
            fallback.params.as_slice().first().copied(),
            Some(Ty::Prim(Primitive::I)),
        )
    {
        return Err(refused(alloc, b"switch"));
    }
    let weight = 1 + u64::from(fallback_weight) + u64::from(cases_weight);
    limited(alloc, b"switch", weight, fallback.copy(alloc)?)
}

/// How many parameters the body of a loop has before its further ones.
fn turn_count(ret: Option<Ty>) -> usize
    ensures { result ≡ length (turn_types ret) }
{
    match ret {
        None => 1,
        Some(_) => 2,
    }
}

/// Whether the body of a loop takes first its own result, if there is one, and the number of the
/// turn.
fn takes_turn(params: &[Ty], ret: Option<Ty>) -> bool
    ensures { result ≡ begins_with_types params.now (turn_types ret) }
{
    let number = Ty::Prim(Primitive::I);
    match ret {
        None => begins_with_types(params, &[number]),
        Some(ret) => begins_with_types(params, &[ret, number]),
    }
}

/// The parameters of a loop: the further ones of its body, or those of the iterations if there are
/// none.
fn loop_params<'a>(iterations: &'a MethodTy, body: &'a MethodTy) -> &'a [Ty]
    ensures { result.now ≡ loop_params iterations.now body.now }
{
    let further = after(body.params.as_slice(), turn_count(body.ret));
    if further.is_empty() {
        iterations.params.as_slice()
    } else {
        further
    }
}

/// A list of these types.
fn listed(alloc: Global, types: &[Ty]) -> Result<Tys, NoMemory>
    ensures { IfOk result (λ list. list ≡ types.now) }
{
    Ok(Seq::from_vec(Vec::from_slice(alloc, types)?))
}

/// The type of a body that runs as often as the iterations say. Each turn gets the result of the
/// turn before, and the first one gets that of the start (`MethodHandles.countedLoop`, SE 17).
/// Refused if the iterations give no int, or if the body does not take its own result and the
/// number of the turn first. Refused also if the start does not give that result, or if iterations
/// or start do not take the first parameters of the loop.
pub fn check_counted(
    alloc: Global,
    iterations: &MethodTy,
    iterations_weight: u32,
    init: &MethodTy,
    init_weight: u32,
    body: &MethodTy,
    body_weight: u32,
    _classes: &Classes,
) -> Result<MethodTy, CheckError>
    ensures { TellsRow result
        (counted_row iterations.now iterations_weight init.now init_weight body.now body_weight) }
{
    let params = loop_params(iterations, body);
    if !is_same_return(iterations.ret, Some(Ty::Prim(Primitive::I)))
        || !takes_turn(body.params.as_slice(), body.ret)
        || !is_same_return(init.ret, body.ret)
        || !begins_with_types(params, iterations.params.as_slice())
        || !begins_with_types(params, init.params.as_slice())
    {
        return Err(refused(alloc, b"counted"));
    }
    let weight = LOOP_WEIGHT
        + u64::from(iterations_weight)
        + u64::from(init_weight)
        + u64::from(body_weight);
    let params = listed(alloc, params)?;
    limited(
        alloc,
        b"counted",
        weight,
        MethodTy {
            params,
            ret: body.ret,
        },
    )
}
