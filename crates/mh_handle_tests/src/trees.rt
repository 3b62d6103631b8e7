//! Handles that are made by steps on a table of their own, and called.

ghost use Rattle.std.specs.Prelude.{◌≡◌, ◌≤◌, [], length, IfOk, IsTrue};
ghost use Rattle.mh_seats.specs.Room.{limit};
ghost use Rattle.mh_intern.specs.Views.{new_seat};
ghost use Rattle.mh_handle.specs.Passes.{seat_at};
ghost use Rattle.mh_handle.specs.Works.{GoesOn, IsReady};
ghost use Rattle.mh_steps.specs.AnyTypes.{ExchangesAny};

use crate::calls::{Way, call};
use mh_handle::{Answer, FormTable, HandleError, Work};
use mh_intern::{TypeSeat, TypeTable};
use mh_leaves::Leaves;
use mh_steps::{Broken, Root, Start, Step, check, items_of, made};
use mh_values::Items;
use std::alloc::Global;
use std::sync::Wait;

/// What a handle is made from, and the steps that adapt it.
#[derive(Clone, Copy)]
pub(crate) struct Making {
    pub(crate) root: Root,
    pub(crate) steps: &'static [Step],
}

fn has_few_steps(making: &Making) -> bool
    ensures { IsTrue result → length making.now.steps.now ≤ 100 }
{
    making.steps.len() <= 100
}

/// How a handle is called, and the literals of the arguments.
#[derive(Clone, Copy)]
pub(crate) struct Call<'a> {
    pub(crate) way: Way,
    pub(crate) arguments: &'a [&'a str],
}

fn answer_on<'t, R: Wait>(
    w: &mut Work<'_, 't>,
    rt: &R,
    making: &Making,
    way: Way,
    args: &Items,
) -> Result<Answer, Broken>
    requires ready { IsReady w.old 220 }
    requires few { length making.now.steps.now ≤ 100 }
    ensures goes_on { GoesOn 220 w.old w.new }
    ensures types { ExchangesAny [] [] w.old.seat.now w.new.seat.now }
{
    let handle = made(w, rt, making.root, making.steps)?;
    let answer = call(w, rt, &handle, way, args);
    handle.give_back(w);
    answer
}

fn answer_at<R: Wait>(
    rt: &R,
    start: Start<'_>,
    held: &mut TypeSeat,
    making: &Making,
    way: Way,
    args: &Items,
) -> Result<Answer, Broken>
    requires first { start.seat ≡ seat_at start.table.now 0 }
    requires held { held.old ≡ new_seat start.types.now limit }
    requires few { length making.now.steps.now ≤ 100 }
    ensures types { ExchangesAny [] [] held.old held.new }
{
    let Start {
        alloc,
        table,
        seat,
        types,
        leaves,
    } = start;
    let mut pass = table.first_pass(alloc, seat)?;
    let mut w = Work {
        alloc,
        types,
        seat: held,
        forms: table,
        pass: &mut pass,
        leaves,
    };
    let answer = answer_on(&mut w, rt, making, way, args);
    let Work {
        alloc: _,
        types: _,
        seat: _,
        forms: _,
        pass: _,
        leaves: _,
    } = w;
    answer
}

/// What comes of a handle that is made, called and given back, or is refused: the answer, and how
/// many types are held then.
#[derive(Drop)]
pub(crate) struct Came {
    pub(crate) answer: Result<Answer, HandleError>,
    pub(crate) types: u32,
}

/// What comes of such a handle on tables of its own.
pub(crate) fn came_of<R: Wait>(
    rt: &R,
    alloc: Global,
    leaves: &Leaves,
    making: &Making,
    by: &Call<'_>,
) -> Result<Came, Broken> {
    if !has_few_steps(making) {
        return Err(Broken::Fixture("more than 100 steps"));
    }
    check(alloc, leaves, making.root, making.steps)?;
    let args = items_of(alloc, by.arguments, leaves.classes())?;
    let (types, mut held) = TypeTable::new(alloc)?;
    let (table, seat) = FormTable::new(alloc)?;
    let start = Start {
        alloc,
        table: &table,
        seat,
        types: &types,
        leaves,
    };
    let answer = match answer_at(rt, start, &mut held, making, by.way, &args) {
        Ok(answer) => Ok(answer),
        Err(Broken::Handle(error)) => Err(error),
        Err(broken) => return Err(broken),
    };
    Ok(Came {
        answer,
        types: types.close(held),
    })
}
