//! Forms, which passes make on one table.

ghost use Rattle.std.specs.Prelude.{◌≡◌, ◌≤◌, ◌+◌, ◌^◌, OnOk};
ghost use Rattle.mh_handle.specs.Joins.{split_room};
ghost use Rattle.mh_handle.specs.Passes.{IsPassOf};
ghost use Rattle.mh_handle.specs.Works.{GoesOn, IsReady};

use mh_base::{NoMemory, Seq};
use mh_edit::Key;
use mh_form::{Basic, BasicRet, Basics, Shape};
use mh_handle::{EditError, FormPass, FormTable, HandleError, Work};
use std::alloc::Global;
use std::sync::Wait;
use std::thread::{Threads, join_mut};

/// Nine basic types, by the digits of a number to the base three.
fn digits(alloc: Global, number: u32) -> Result<Basics, NoMemory> {
    let mut rest = number;
    let mut basics = Seq::new(alloc);
    for _ in 0..9 {
        basics.push(match rest % 3 {
            0 => Basic::I,
            1 => Basic::J,
            _ => Basic::L,
        })?;
        rest /= 3;
    }
    Ok(basics)
}

/// Makes this many forms, each of a leaf of another shape.
pub(crate) fn forms<'t, R: Wait>(
    w: &mut Work<'_, 't>,
    rt: &R,
    turns: u32,
) -> Result<u64, HandleError>
    requires ready { IsReady w.old turns }
    ensures goes_on { OnOk result (GoesOn turns w.old w.new) }
{
    let mut sum: u64 = 0;
    for turn in 0..turns {
        let shape = Shape {
            params: digits(w.alloc, turn)?,
            ret: BasicRet::V,
        };
        let base = w.forms.base();
        let form = w.edit(rt, base, Key::LeafRoot { shape })?;
        sum = sum.wrapping_add(form.number());
    }
    Ok(sum)
}

/// How many forms a pass knows that is split.
const KNOWN_FORMS: u32 = 1_000;

/// Splits a pass in two, and joins the two. Gives how many forms the second one knows.
fn split_and_join(w: &mut Work<'_, '_>) -> Result<u64, HandleError>
    requires ready { IsReady w.old (1 + split_room) }
    ensures ready { OnOk result (IsReady w.new (1 + split_room)) }
{
    let table = w.forms;
    let other = table.split(w.alloc, w.pass)?;
    let known = u64::from(other.len());
    table.join(w.pass, other)?;
    Ok(known)
}

/// Makes 1,000 forms, and this many times splits the pass that knows them, and joins it.
pub(crate) fn splits<'t, R: Wait>(
    w: &mut Work<'_, 't>,
    rt: &R,
    turns: u32,
) -> Result<u64, HandleError>
    requires ready { IsReady w.old (2 ^ 33) }
{
    forms(w, rt, KNOWN_FORMS)?;
    let mut sum: u64 = 0;
    for _ in 0..turns {
        sum = sum.wrapping_add(split_and_join(w)?);
    }
    Ok(sum)
}

/// The forms that a pass makes: this many, from a number on.
#[derive(Clone, Copy)]
struct Made {
    first: u32,
    count: u32,
}

/// Makes forms by a pass, each of a leaf of another shape.
fn make<'t, R: Wait>(
    rt: &R,
    alloc: Global,
    table: &'t FormTable,
    pass: &mut FormPass<'t>,
    made: Made,
) -> Result<u64, EditError>
    requires pass { IsPassOf table.now pass.old }
    requires room { made.count ≤ pass.old.seat.room }
    ensures table { pass.new.table ≡ pass.old.table }
{
    let mut sum: u64 = 0;
    for turn in 0..made.count {
        let shape = Shape {
            params: digits(alloc, made.first.wrapping_add(turn))?,
            ret: BasicRet::V,
        };
        let form = table.edit(rt, alloc, pass, table.base(), Key::LeafRoot { shape })?;
        sum = sum.wrapping_add(form.number());
    }
    Ok(sum)
}

/// Makes this many forms by each of two passes, in two threads, and joins the passes.
fn make_beside<'t, R: Threads + Wait + Sync>(
    rt: &R,
    alloc: Global,
    table: &'t FormTable,
    passes: (FormPass<'t>, FormPass<'t>),
    count: u32,
) -> Result<u64, EditError>
    requires one { IsPassOf table.now passes.0 × (count ≤ passes.0.seat.room) }
    requires two { IsPassOf table.now passes.1 × (count ≤ passes.1.seat.room) }
{
    let (mut one, mut two) = passes;
    let low = Made { first: 0, count };
    let high = Made {
        first: count,
        count,
    };
    let (a, b) = join_mut(
        rt,
        &mut || make(rt, alloc, table, &mut two, high),
        &mut || make(rt, alloc, table, &mut one, low),
    );
    let (a, b) = (a?, b?);
    table.join(&mut one, two)?;
    Ok(a.wrapping_add(b))
}

/// Makes this many forms on one table, half of them in another thread.
pub(crate) fn made_beside<R: Threads + Wait + Sync>(
    rt: &R,
    alloc: Global,
    turns: u32,
) -> Result<u64, EditError> {
    let (table, seat) = FormTable::new(alloc)?;
    let mut pass = table.first_pass(alloc, seat)?;
    let other = table.split(alloc, &mut pass)?;
    make_beside(rt, alloc, &table, (pass, other), turns / 2)
}
