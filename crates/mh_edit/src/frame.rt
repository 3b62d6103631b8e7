//! Bodies with new names: before the old ones, or one after them.

ghost use Rattle.std.specs.Prelude.{◌≡◌, ◌+◌, ◌-◌, ◌≤◌, ◌++◌, IfOk, length};
ghost use Rattle.mh_values.specs.Computation.{spliced};
ghost use Rattle.mh_edit.specs.Applied.{conv_table, converting, finishing, out_of, returning};
ghost use Rattle.mh_edit.specs.Rename.{edited, ending_with, reframed, table};

use crate::RetEntry;
use crate::names::{
    conv_count, push_all, push_conv_params, push_conv_places, push_convs, push_range, range,
};
use crate::narrow::narrow;
use crate::rename::{Renaming, place_if_any, rename_all};
use mh_base::{NoMemory, Seq};
use mh_form::{Basic, BasicRet, Basics, FormBody, Name, Names, Operands};
use std::alloc::Global;

/// At a position, `taken` parameters are replaced by the parameters `basics`.
#[derive(Clone, Copy)]
pub(crate) struct Splice<'a> {
    pub(crate) pos: u32,
    pub(crate) taken: u32,
    pub(crate) basics: &'a Basics,
}

/// The place of a result, or `None` if it is void.
pub(crate) fn out_of(ret: BasicRet, place: u32) -> Option<u32>
    ensures { result ≡ out_of ret place }
{
    match ret {
        BasicRet::V => None,
        BasicRet::Is(_) => Some(place),
    }
}

/// A body with new parameters, names before the old ones, and more fields. The table has the new
/// places of the old parameters.
pub(crate) fn reframed(
    alloc: Global,
    body: &FormBody,
    params: Basics,
    before: Names,
    table: &[u32],
    more: u32,
) -> Result<FormBody, NoMemory>
    ensures { IfOk result (λ new. new ≡ reframed body.now params before table.now more) }
{
    let base = narrow(params.len() as u64 + before.len() as u64)?;
    let fields = narrow(body.fields as u64 + more as u64)?;
    let to = Renaming { table, base };
    let out = place_if_any(to, body.out)?;
    let names = rename_all(alloc, to, before, &body.names)?;
    Ok(FormBody {
        params,
        fields,
        names,
        out,
    })
}

/// The new places of parameters around those that were taken out.
fn table(alloc: Global, pos: u32, put: u32, mid: Operands, rest: u32) -> Result<Operands, NoMemory>
    ensures { IfOk result (λ places. places ≡ table pos put mid rest) }
{
    let end = narrow(pos as u64 + put as u64)?;
    let mut places = range(alloc, 0, pos)?;
    places.append(mid)?;
    push_range(&mut places, end, rest)?;
    Ok(places)
}

fn spliced(alloc: Global, params: &Basics, splice: Splice<'_>) -> Result<Basics, NoMemory>
    requires { splice.pos + splice.taken ≤ length params.now }
    ensures { IfOk result
        (λ new. new ≡ spliced splice.entry.pos splice.entry.taken splice.entry.basics.now params.now) }
{
    let old = params.as_slice();
    let end = splice.pos as usize + splice.taken as usize;
    let mut new = Seq::new(alloc);
    push_all(&mut new, &old[..splice.pos as usize])?;
    push_all(&mut new, splice.basics.as_slice())?;
    push_all(&mut new, &old[end..])?;
    Ok(new)
}

/// A body with some parameters replaced, and names before the old ones. The places in the middle
/// stand for the parameters that are taken out.
pub(crate) fn edited(
    alloc: Global,
    body: &FormBody,
    splice: Splice<'_>,
    before: Names,
    mid: Operands,
    more: u32,
) -> Result<FormBody, NoMemory>
    requires { splice.pos + splice.taken ≤ length body.now.params }
    ensures { IfOk result (λ new. new ≡ edited body.now
        splice.entry.pos splice.entry.taken splice.entry.basics.now before mid more) }
{
    let places = spliced_table(alloc, &body.params, splice, mid)?;
    let params = spliced(alloc, &body.params, splice)?;
    reframed(alloc, body, params, before, places.as_slice(), more)
}

/// The new places of the old parameters when some are replaced.
fn spliced_table(
    alloc: Global,
    params: &Basics,
    splice: Splice<'_>,
    mid: Operands,
) -> Result<Operands, NoMemory>
    requires { splice.pos + splice.taken ≤ length params.now }
    ensures { IfOk result (λ places. places ≡ table splice.entry.pos
        (length splice.entry.basics.now) mid
        (length params.now - (splice.entry.pos + splice.entry.taken))) }
{
    let gone = splice.pos as usize + splice.taken as usize;
    let rest = narrow((params.len() - gone) as u64)?;
    let put = narrow(splice.basics.len() as u64)?;
    table(alloc, splice.pos, put, mid, rest)
}

/// A body with one more name, which takes the result, and one more field.
pub(crate) fn finished(body: FormBody, last: Name, ret: BasicRet) -> Result<FormBody, NoMemory>
    ensures { IfOk result (λ new. new ≡ ending_with body last
        (out_of ret (length body.params + length body.names))) }
{
    let place = narrow(body.params.len() as u64 + body.names.len() as u64)?;
    let fields = narrow(body.fields as u64 + 1)?;
    let FormBody {
        params,
        mut names,
        ..
    } = body;
    names.push(last)?;
    Ok(FormBody {
        params,
        fields,
        names,
        out: out_of(ret, place),
    })
}

/// The new places of parameters: those that have an entry are at the slots of their conversions.
fn conv_places(alloc: Global, entries: &[Option<Basic>], made: u32) -> Result<Operands, NoMemory>
    ensures { IfOk result (λ places. places ≡ conv_table entries.now 0 made) }
{
    let mut places = Seq::new(alloc);
    push_conv_places(&mut places, entries, 0, made)?;
    Ok(places)
}

/// A body that first converts each parameter that has an entry.
pub(crate) fn converting(
    alloc: Global,
    body: &FormBody,
    entries: &[Option<Basic>],
) -> Result<FormBody, NoMemory>
    ensures { IfOk result (λ new. new ≡ converting entries.now body.now) }
{
    let old = body.params.as_slice();
    let count = narrow(old.len() as u64)?;
    let more = conv_count(entries)?;
    let places = conv_places(alloc, entries, count)?;
    let mut params = Seq::new(alloc);
    push_conv_params(&mut params, entries, old)?;
    let mut names = Seq::new(alloc);
    push_convs(&mut names, entries, old, body.fields, 0)?;
    reframed(alloc, body, params, names, places.as_slice(), more)
}

/// A body that last converts its result, if there is an entry.
pub(crate) fn returning(body: FormBody, ret: RetEntry) -> Result<FormBody, NoMemory>
    ensures { IfOk result (λ new. new ≡ returning ret body) }
{
    match ret {
        RetEntry::Keep => Ok(body),
        RetEntry::New(ret) => {
            let last = Name::Ret(body.fields, body.out);
            finished(body, last, ret)
        }
    }
}
