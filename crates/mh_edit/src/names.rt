//! Places and names, made one after the other.

ghost use Rattle.std.specs.Prelude.{◌≡◌, ◌+◌, ◌^◌, ◌<◌, ◌++◌, ◌∷◌, [], IfOk, OnOk};
ghost use Rattle.std.specs.List.{range_with_len};
ghost use Rattle.mh_form.specs.declared.name.Name.TheVariants.{Link};
ghost use Rattle.mh_edit.specs.Applied.{conv_name, conv_names, conv_table, conv_params, conv_count, elem_names};

use crate::narrow::narrow;
use mh_base::{NoMemory, Seq};
use mh_form::{Basic, Basics, Name, Names, Operands};
use std::alloc::Global;

/// A list of one name.
pub(crate) fn single(alloc: Global, name: Name) -> Result<Names, NoMemory>
    ensures { IfOk result (λ names. names ≡ name ∷ []) }
{
    let mut names = Seq::new(alloc);
    names.push(name)?;
    Ok(names)
}

/// A list of one basic type.
pub(crate) fn one_basic(alloc: Global, basic: Basic) -> Result<Basics, NoMemory>
    ensures { IfOk result (λ basics. basics ≡ basic ∷ []) }
{
    let mut basics = Seq::new(alloc);
    basics.push(basic)?;
    Ok(basics)
}

pub(crate) fn push_range(places: &mut Operands, from: u32, count: u32) -> Result<(), NoMemory>
    ensures { OnOk result (places.new ≡ places.old ++ range_with_len from count) }
{
    let _end = narrow(from as u64 + count as u64)?;
    for k in 0..count {
        places.push(from + k)?;
    }
    Ok(())
}

/// The `count` places from `from` on.
pub(crate) fn range(alloc: Global, from: u32, count: u32) -> Result<Operands, NoMemory>
    ensures { IfOk result (λ places. places ≡ range_with_len from count) }
{
    let mut places = Seq::new(alloc);
    push_range(&mut places, from, count)?;
    Ok(places)
}

/// A list of one name, which runs the part in a field on `count` slots from a place on.
pub(crate) fn link(alloc: Global, field: u32, from: u32, count: u32) -> Result<Names, NoMemory>
    ensures { IfOk result (λ names. names ≡ Link field (range_with_len from count) ∷ []) }
{
    let args = range(alloc, from, count)?;
    single(alloc, Name::Link(field, args))
}

pub(crate) fn push_all(to: &mut Basics, from: &[Basic]) -> Result<(), NoMemory>
    ensures { OnOk result (to.new ≡ to.old ++ from.now) }
{
    for basic in from {
        to.push(*basic)?;
    }
    Ok(())
}

/// Names for the elements of the array at a place.
pub(crate) fn push_elems(names: &mut Names, array: u32, count: u32) -> Result<(), NoMemory>
    ensures { OnOk result (names.new ≡ names.old ++ elem_names array 0 count) }
{
    for item in 0..count {
        names.push(Name::Elem(array, item))?;
    }
    Ok(())
}

/// The name of a conversion of a slot of one basic type to another.
fn conv_name(from: Basic, to: Basic, conv: u32, slot: u32) -> Name
    ensures { result ≡ conv_name from to conv slot }
{
    match (from, to) {
        (Basic::L, Basic::L) => Name::Cast(conv, slot),
        _ => Name::Conv(conv, slot),
    }
}

/// A conversion for each parameter that has an entry.
pub(crate) fn push_convs(
    names: &mut Names,
    entries: &[Option<Basic>],
    params: &[Basic],
    conv: u32,
    slot: u32,
) -> Result<(), NoMemory>
    ensures { OnOk result (names.new ≡ names.old ++ conv_names entries.now params.now conv slot) }
{
    match (entries, params) {
        ([None, entries @ ..], [_, params @ ..]) => {
            push_convs(names, entries, params, conv, narrow(slot as u64 + 1)?)
        }
        ([Some(basic), entries @ ..], [param, params @ ..]) => {
            names.push(conv_name(*basic, *param, conv, slot))?;
            let later = narrow(conv as u64 + 1)?;
            push_convs(names, entries, params, later, narrow(slot as u64 + 1)?)
        }
        _ => Ok(()),
    }
}

/// The places of the old parameters: their own, or that of the slot of their conversion.
pub(crate) fn push_conv_places(
    places: &mut Operands,
    entries: &[Option<Basic>],
    slot: u32,
    made: u32,
) -> Result<(), NoMemory>
    ensures { OnOk result (places.new ≡ places.old ++ conv_table entries.now slot made) }
{
    match entries {
        [] => Ok(()),
        [None, entries @ ..] => {
            places.push(slot)?;
            push_conv_places(places, entries, narrow(slot as u64 + 1)?, made)
        }
        [Some(_), entries @ ..] => {
            places.push(made)?;
            let later = narrow(made as u64 + 1)?;
            push_conv_places(places, entries, narrow(slot as u64 + 1)?, later)
        }
    }
}

/// The parameters before conversion: an entry gives its basic type.
pub(crate) fn push_conv_params(
    to: &mut Basics,
    entries: &[Option<Basic>],
    params: &[Basic],
) -> Result<(), NoMemory>
    ensures { OnOk result (to.new ≡ to.old ++ conv_params entries.now params.now) }
{
    match (entries, params) {
        ([None, entries @ ..], [param, params @ ..]) => {
            to.push(*param)?;
            push_conv_params(to, entries, params)
        }
        ([Some(basic), entries @ ..], [_, params @ ..]) => {
            to.push(*basic)?;
            push_conv_params(to, entries, params)
        }
        _ => Ok(()),
    }
}

/// How many entries there are.
pub(crate) fn conv_count(entries: &[Option<Basic>]) -> Result<u32, NoMemory>
    ensures { IfOk result (λ count. count ≡ conv_count entries.now) }
{
    match entries {
        [] => Ok(0),
        [None, entries @ ..] => conv_count(entries),
        [Some(_), entries @ ..] => narrow(conv_count(entries)? as u64 + 1),
    }
}
