//! The bodies that roots make.

ghost use Rattle.std.specs.Prelude.{◌≡◌, ◌∷◌, [], IfOk};
ghost use Rattle.std.specs.List.{range_with_len};
ghost use Rattle.mh_form.specs.declared.name.Name.TheVariants.{Link, Select};
ghost use Rattle.mh_edit.specs.Applied.{all_places, catch_body, concat_body, constant_body, guard_body, identity_body, leaf_body, loop_body, named_body, switch_body, throw_body, try_body};

use crate::frame::out_of;
use crate::names::{link, one_basic, range, single};
use crate::narrow::narrow;
use mh_base::{NoMemory, Seq};
use mh_form::{Basic, BasicRet, FormBody, LoopCounts, Name, Names, Operands, Shape};
use std::alloc::Global;

/// The places of all arguments.
fn all_places(alloc: Global, shape: &Shape) -> Result<Operands, NoMemory>
    ensures { IfOk result (λ places. places ≡ all_places shape.now) }
{
    range(alloc, 0, narrow(shape.params.len() as u64)?)
}

/// A body that runs one name.
fn named_body(alloc: Global, shape: &Shape, fields: u32, name: Name) -> Result<FormBody, NoMemory>
    ensures { IfOk result (λ body. body ≡ named_body shape.now fields name) }
{
    let count = narrow(shape.params.len() as u64)?;
    let names = single(alloc, name)?;
    let params = shape.params.copy()?;
    Ok(FormBody {
        params,
        fields,
        names,
        out: out_of(shape.ret, count),
    })
}

pub(crate) fn leaf_body(alloc: Global, shape: &Shape) -> Result<FormBody, NoMemory>
    ensures { IfOk result (λ body. body ≡ leaf_body shape.now) }
{
    let args = all_places(alloc, shape)?;
    named_body(alloc, shape, 1, Name::Call(0, args))
}

pub(crate) fn constant_body(alloc: Global) -> Result<FormBody, NoMemory>
    ensures { IfOk result (λ body. body ≡ constant_body) }
{
    let names = single(alloc, Name::Get(0))?;
    Ok(FormBody {
        params: Seq::new(alloc),
        fields: 1,
        names,
        out: Some(0),
    })
}

pub(crate) fn identity_body(alloc: Global, basic: Basic) -> Result<FormBody, NoMemory>
    ensures { IfOk result (λ body. body ≡ identity_body basic) }
{
    let params = one_basic(alloc, basic)?;
    Ok(FormBody {
        params,
        fields: 0,
        names: Seq::new(alloc),
        out: Some(0),
    })
}

pub(crate) fn throw_body(alloc: Global, ret: BasicRet) -> Result<FormBody, NoMemory>
    ensures { IfOk result (λ body. body ≡ throw_body ret) }
{
    let params = one_basic(alloc, Basic::L)?;
    let names = single(alloc, Name::Raise(0))?;
    Ok(FormBody {
        params,
        fields: 0,
        names,
        out: out_of(ret, 1),
    })
}

/// The names that run a test on the first arguments, and one of two parts on all arguments.
fn guard_names(alloc: Global, count: u32, test: u32) -> Result<Names, NoMemory>
    ensures { IfOk result (λ names. names ≡ Link 0 (range_with_len 0 test)
        ∷ Select count 1 2 (range_with_len 0 count) ∷ []) }
{
    let args = range(alloc, 0, count)?;
    let mut names = link(alloc, 0, 0, test)?;
    names.push(Name::Select(count, 1, 2, args))?;
    Ok(names)
}

pub(crate) fn guard_body(alloc: Global, shape: &Shape, test: u8) -> Result<FormBody, NoMemory>
    ensures { IfOk result (λ body. body ≡ guard_body shape.now test) }
{
    let count = narrow(shape.params.len() as u64)?;
    let made = narrow(count as u64 + 1)?;
    let names = guard_names(alloc, count, test as u32)?;
    let params = shape.params.copy()?;
    Ok(FormBody {
        params,
        fields: 3,
        names,
        out: out_of(shape.ret, made),
    })
}

pub(crate) fn catch_body(alloc: Global, shape: &Shape, kept: u8) -> Result<FormBody, NoMemory>
    ensures { IfOk result (λ body. body ≡ catch_body shape.now kept) }
{
    let args = all_places(alloc, shape)?;
    named_body(alloc, shape, 3, Name::Guarded(0, 1, 2, args, kept as u32))
}

pub(crate) fn try_body(alloc: Global, shape: &Shape, kept: u8) -> Result<FormBody, NoMemory>
    ensures { IfOk result (λ body. body ≡ try_body shape.now kept) }
{
    let args = all_places(alloc, shape)?;
    let name = Name::Finally(0, 1, args, kept as u32, shape.ret);
    named_body(alloc, shape, 2, name)
}

pub(crate) fn switch_body(alloc: Global, shape: &Shape, count: u8) -> Result<FormBody, NoMemory>
    ensures { IfOk result (λ body. body ≡ switch_body shape.now count) }
{
    let args = all_places(alloc, shape)?;
    let name = Name::Switch(0, 0, count as u32, args);
    named_body(alloc, shape, count as u32 + 1, name)
}

pub(crate) fn loop_body(
    alloc: Global,
    shape: &Shape,
    counts: LoopCounts,
) -> Result<FormBody, NoMemory>
    ensures { IfOk result (λ body. body ≡ loop_body shape.now counts) }
{
    let args = all_places(alloc, shape)?;
    named_body(alloc, shape, 3, Name::Loop(0, args, counts, shape.ret))
}

pub(crate) fn concat_body(alloc: Global, shape: &Shape) -> Result<FormBody, NoMemory>
    ensures { IfOk result (λ body. body ≡ concat_body shape.now) }
{
    let args = all_places(alloc, shape)?;
    named_body(alloc, shape, 1, Name::Join(0, args))
}
