ghost use Rattle.std.specs.Prelude.{◌≡◌, ◌+◌, ◌-◌, ◌<◌, ◌≤◌, ◌∷◌, [], IfOk, IsTrue, length, replicate};
ghost use Rattle.std.specs.List.{range_with_len};
ghost use Rattle.mh_form.specs.declared.name.Name.TheVariants.{CheckArray, MakeArray};
ghost use Rattle.mh_form.specs.Slots.{given};
ghost use Rattle.mh_edit.specs.Applied.{adding, applied, binding, collecting, converting, counts_of, elem_names, filtering, folding, gathering, permuting, places_of, returning, spreading};
ghost use Rattle.mh_edit.specs.Fit.{fits, taken_by};
ghost use Rattle.mh_edit.specs.Law.{Law};

use crate::fit::taken_by;
use crate::frame::{Splice, converting, edited, finished, reframed, returning};
use crate::names::{link, one_basic, push_elems, range, single};
use crate::narrow::narrow;
use crate::roots::{
    catch_body, concat_body, constant_body, guard_body, identity_body, leaf_body, loop_body,
    switch_body, throw_body, try_body,
};
use crate::{Key, Places, RetEntry};
use mh_base::{Copied, NoMemory, Seq};
use mh_form::{Basic, BasicRet, Basics, FormBody, LoopCounts, Name, Names, Operands};
use std::alloc::Global;

/// The place of a part's result as a list, which is empty if the part is void.
fn given(alloc: Global, ret: BasicRet, place: u32) -> Result<Operands, NoMemory>
    ensures { IfOk result (λ places. places ≡ given ret place) }
{
    match ret {
        BasicRet::V => Ok(Seq::new(alloc)),
        BasicRet::Is(_) => range(alloc, place, 1),
    }
}

fn binding(alloc: Global, body: &FormBody, pos: u8) -> Result<FormBody, NoMemory>
    requires { pos < length body.now.params }
    ensures { IfOk result (λ new. new ≡ binding pos body.now) }
{
    let made = range(alloc, narrow((body.params.len() - 1) as u64)?, 1)?;
    let before = single(alloc, Name::Get(body.fields))?;
    let splice = Splice {
        pos: pos as u32,
        taken: 1,
        basics: &Seq::new(alloc),
    };
    edited(alloc, body, splice, before, made, 1)
}

fn adding(alloc: Global, body: &FormBody, pos: u8, basics: &Basics) -> Result<FormBody, NoMemory>
    requires { pos ≤ length body.now.params }
    ensures { IfOk result (λ new. new ≡ adding pos basics.now body.now) }
{
    let splice = Splice {
        pos: pos as u32,
        taken: 0,
        basics,
    };
    edited(alloc, body, splice, Seq::new(alloc), Seq::new(alloc), 0)
}

/// The same places as numbers of 32 bits.
fn widened(alloc: Global, places: &Places) -> Result<Operands, NoMemory>
    ensures { IfOk result (λ wide. wide ≡ places.now) }
{
    let mut wide = Seq::new(alloc);
    for place in places.as_slice() {
        wide.push(*place as u32)?;
    }
    Ok(wide)
}

fn permuting(
    alloc: Global,
    body: &FormBody,
    basics: &Basics,
    reorder: &Places,
) -> Result<FormBody, NoMemory>
    ensures { IfOk result (λ new. new ≡ permuting basics.now reorder.now body.now) }
{
    let table = widened(alloc, reorder)?;
    let params = basics.copy()?;
    reframed(alloc, body, params, Seq::new(alloc), table.as_slice(), 0)
}

fn collecting(
    alloc: Global,
    body: &FormBody,
    pos: u8,
    basics: &Basics,
    ret: BasicRet,
) -> Result<FormBody, NoMemory>
    requires { pos + taken_by ret ≤ length body.now.params }
    ensures { IfOk result (λ new. new ≡ collecting pos basics.now ret body.now) }
{
    let put = narrow(basics.len() as u64)?;
    let splice = Splice {
        pos: pos as u32,
        taken: taken_by(ret) as u32,
        basics,
    };
    let width = narrow(body.params.len() as u64)? as u64 + put as u64;
    let made = given(alloc, ret, narrow(width - splice.taken as u64)?)?;
    let part = link(alloc, body.fields, pos as u32, put)?;
    edited(alloc, body, splice, part, made, 1)
}

fn folding(
    alloc: Global,
    body: &FormBody,
    pos: u8,
    count: u8,
    ret: BasicRet,
) -> Result<FormBody, NoMemory>
    requires { pos + taken_by ret ≤ length body.now.params }
    ensures { IfOk result (λ new. new ≡ folding pos count ret body.now) }
{
    let taken = taken_by(ret) as u32;
    let left = narrow((body.params.len() - taken as usize) as u64)?;
    let made = given(alloc, ret, left)?;
    let part = link(alloc, body.fields, pos as u32, count as u32)?;
    let splice = Splice {
        pos: pos as u32,
        taken,
        basics: &Seq::new(alloc),
    };
    edited(alloc, body, splice, part, made, 1)
}

/// The place of a result as a list, which is empty if there is no result.
fn places_of(alloc: Global, out: Option<u32>) -> Result<Operands, NoMemory>
    ensures { IfOk result (λ places. places ≡ places_of out) }
{
    match out {
        None => Ok(Seq::new(alloc)),
        Some(place) => range(alloc, place, 1),
    }
}

fn filtering(alloc: Global, body: &FormBody, ret: BasicRet) -> Result<FormBody, NoMemory>
    ensures { IfOk result (λ new. new ≡ filtering ret body.now) }
{
    let part = Name::Link(body.fields, places_of(alloc, body.out)?);
    let old = body.copy(alloc)?;
    finished(old, part, ret)
}

/// The names that check an array, and get each of its items.
fn spread_names(alloc: Global, array: u32, count: u32) -> Result<Names, NoMemory>
    ensures { IfOk result (λ names. names ≡ CheckArray array count ∷ elem_names array 0 count) }
{
    let mut names = single(alloc, Name::CheckArray(array, count))?;
    push_elems(&mut names, array, count)?;
    Ok(names)
}

fn spreading(alloc: Global, body: &FormBody, count: u8) -> Result<FormBody, NoMemory>
    requires { count ≤ length body.now.params }
    ensures { IfOk result (λ new. new ≡ spreading count body.now) }
{
    let pos = narrow((body.params.len() - count as usize) as u64)?;
    let items = range(alloc, narrow(pos as u64 + 2)?, count as u32)?;
    let before = spread_names(alloc, pos, count as u32)?;
    let array = one_basic(alloc, Basic::L)?;
    let splice = Splice {
        pos,
        taken: count as u32,
        basics: &array,
    };
    edited(alloc, body, splice, before, items, 0)
}

/// The same basic type, `count` times.
fn repeated(alloc: Global, count: u8, basic: Basic) -> Result<Basics, NoMemory>
    ensures { IfOk result (λ basics. basics ≡ replicate count basic) }
{
    let mut basics = Seq::new(alloc);
    for _ in 0..count {
        basics.push(basic)?;
    }
    Ok(basics)
}

/// A name that makes an array of `count` slots from a place on.
fn array_name(alloc: Global, comp: u32, from: u32, count: u8) -> Result<Names, NoMemory>
    ensures { IfOk result (λ names. names ≡ MakeArray comp (range_with_len from count) ∷ []) }
{
    let items = range(alloc, from, count as u32)?;
    single(alloc, Name::MakeArray(comp, items))
}

fn gathering(alloc: Global, body: &FormBody, count: u8, basic: Basic) -> Result<FormBody, NoMemory>
    requires { 1 ≤ length body.now.params }
    ensures { IfOk result (λ new. new ≡ gathering count basic body.now) }
{
    let pos = narrow((body.params.len() - 1) as u64)?;
    let made = range(alloc, narrow(pos as u64 + count as u64)?, 1)?;
    let before = array_name(alloc, body.fields, pos, count)?;
    let items = repeated(alloc, count, basic)?;
    let splice = Splice {
        pos,
        taken: 1,
        basics: &items,
    };
    edited(alloc, body, splice, before, made, 1)
}

fn converted(
    alloc: Global,
    body: &FormBody,
    params: &[Option<Basic>],
    ret: RetEntry,
) -> Result<FormBody, NoMemory>
    ensures { IfOk result (λ new. new ≡ returning ret (converting params.now body.now)) }
{
    returning(converting(alloc, body, params)?, ret)
}

/// How many arguments each part of a loop takes.
fn loop_counts(iterations: u8, init: u8, body: u8) -> LoopCounts
    ensures { result ≡ counts_of iterations init body }
{
    LoopCounts {
        iterations: iterations as u32,
        init: init as u32,
        body: body as u32,
    }
}

fn body_of(alloc: Global, body: &FormBody, key: &Key) -> Result<FormBody, NoMemory>
    requires { IsTrue (fits key.now body.now) }
    ensures { IfOk result (λ new. new ≡ applied key.now body.now) }
{
    match key {
        Key::LeafRoot { shape } => leaf_body(alloc, shape),
        Key::ConstRoot { .. } => constant_body(alloc),
        Key::IdentityRoot { basic } => identity_body(alloc, *basic),
        Key::ThrowRoot { ret } => throw_body(alloc, *ret),
        Key::GuardRoot { shape, test } => guard_body(alloc, shape, *test),
        Key::CatchRoot { shape, handler } => catch_body(alloc, shape, *handler),
        Key::TryRoot { shape, cleanup } => try_body(alloc, shape, *cleanup),
        Key::SwitchRoot { shape, count } => switch_body(alloc, shape, *count),
        Key::LoopRoot {
            shape,
            iterations,
            init,
            body: turns,
        } => loop_body(alloc, shape, loop_counts(*iterations, *init, *turns)),
        Key::ConcatRoot { shape } => concat_body(alloc, shape),
        Key::Bind { pos } => binding(alloc, body, *pos),
        Key::Add { pos, basics } => adding(alloc, body, *pos, basics),
        Key::Permute { basics, reorder } => permuting(alloc, body, basics, reorder),
        Key::Collect { pos, basics, ret } => collecting(alloc, body, *pos, basics, *ret),
        Key::Fold { pos, count, ret } => folding(alloc, body, *pos, *count, *ret),
        Key::FilterReturn { ret } => filtering(alloc, body, *ret),
        Key::Convert { params, ret } => converted(alloc, body, params.as_slice(), *ret),
        Key::Spread { count, .. } => spreading(alloc, body, *count),
        Key::Gather { count, basic } => gathering(alloc, body, *count, *basic),
    }
}

/// The body that a key makes of a body that it fits. It is exactly the body of the definition, so
/// forms can be found by their keys. The second clause is the key's law: what the new body's run
/// is, given the old body's run. A body whose numbers need more than 32 bits answers `NoMemory`.
pub fn apply(alloc: Global, body: &FormBody, key: &Key) -> Result<FormBody, NoMemory>
    requires { IsTrue (fits key.now body.now) }
    ensures exact { IfOk result (λ new. new ≡ applied key.now body.now) }
    ensures law { IfOk result (λ new. Law key.now body.now new) }
{
    body_of(alloc, body, key)
}
