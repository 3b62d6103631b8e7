//! Names with their places renamed.

ghost use Rattle.std.specs.Prelude.{◌≡◌, ◌++◌, IfOk, map};
ghost use Rattle.std.specs.Option.{option_map};
ghost use Rattle.mh_edit.specs.Rename.{place_by, renamed};

use crate::narrow::narrow;
use mh_base::{NoMemory, Seq};
use mh_form::{Name, Names, Operands};
use std::alloc::Global;

/// The new places of the old parameters, and the place where the slots of the old names begin.
#[derive(Clone, Copy)]
pub(crate) struct Renaming<'a> {
    pub(crate) table: &'a [u32],
    pub(crate) base: u32,
}

/// The new place of an old one.
pub(crate) fn place(to: Renaming<'_>, old: u32) -> Result<u32, NoMemory>
    ensures { IfOk result (λ new. new ≡ place_by to.entry.table.now to.entry.base old) }
{
    let at = old as usize;
    if at < to.table.len() {
        Ok(to.table[at])
    } else {
        narrow((at - to.table.len()) as u64 + to.base as u64)
    }
}

pub(crate) fn place_if_any(to: Renaming<'_>, old: Option<u32>) -> Result<Option<u32>, NoMemory>
    ensures { IfOk result
        (λ new. new ≡ option_map (place_by to.entry.table.now to.entry.base) old) }
{
    match old {
        None => Ok(None),
        Some(old) => Ok(Some(place(to, old)?)),
    }
}

fn places(alloc: Global, to: Renaming<'_>, old: &Operands) -> Result<Operands, NoMemory>
    ensures { IfOk result
        (λ new. new ≡ map (place_by to.entry.table.now to.entry.base) old.now) }
{
    let mut new = Seq::new(alloc);
    for operand in old.as_slice() {
        new.push(place(to, *operand)?)?;
    }
    Ok(new)
}

fn rename(alloc: Global, to: Renaming<'_>, name: &Name) -> Result<Name, NoMemory>
    ensures { IfOk result
        (λ new. new ≡ renamed (place_by to.entry.table.now to.entry.base) name.now) }
{
    Ok(match name {
        Name::Get(field) => Name::Get(*field),
        Name::Call(leaf, args) => Name::Call(*leaf, places(alloc, to, args)?),
        Name::Link(part, args) => Name::Link(*part, places(alloc, to, args)?),
        Name::Select(test, part, other, args) => {
            Name::Select(place(to, *test)?, *part, *other, places(alloc, to, args)?)
        }
        Name::Guarded(part, class, handler, args, kept) => {
            Name::Guarded(*part, *class, *handler, places(alloc, to, args)?, *kept)
        }
        Name::Finally(part, cleanup, args, kept, ret) => {
            Name::Finally(*part, *cleanup, places(alloc, to, args)?, *kept, *ret)
        }
        Name::Switch(slot, first, count, args) => {
            Name::Switch(place(to, *slot)?, *first, *count, places(alloc, to, args)?)
        }
        Name::Loop(first, args, counts, ret) => {
            Name::Loop(*first, places(alloc, to, args)?, *counts, *ret)
        }
        Name::Conv(conv, slot) => Name::Conv(*conv, place(to, *slot)?),
        Name::Cast(conv, slot) => Name::Cast(*conv, place(to, *slot)?),
        Name::Ret(conv, slot) => Name::Ret(*conv, place_if_any(to, *slot)?),
        Name::MakeArray(comp, args) => Name::MakeArray(*comp, places(alloc, to, args)?),
        Name::CheckArray(slot, count) => Name::CheckArray(place(to, *slot)?, *count),
        Name::Elem(slot, item) => Name::Elem(place(to, *slot)?, *item),
        Name::Join(pieces, args) => Name::Join(*pieces, places(alloc, to, args)?),
        Name::Raise(slot) => Name::Raise(place(to, *slot)?),
    })
}

/// The old names after new ones, with their places renamed.
pub(crate) fn rename_all(
    alloc: Global,
    to: Renaming<'_>,
    before: Names,
    old: &Names,
) -> Result<Names, NoMemory>
    ensures { IfOk result
        (λ all. all ≡ before ++ map (renamed (place_by to.entry.table.now to.entry.base)) old.now) }
{
    let mut all = before;
    for name in old.as_slice() {
        all.push(rename(alloc, to, name)?)?;
    }
    Ok(all)
}
