//! The tables that linked call sites share, and the linking of the call sites over them.

ghost use Rattle.std.specs.Prelude.{◌≡◌, ◌<◌, ◌≤◌, ◌^◌, IfOk, IfErr, OnOk, length};
ghost use Rattle.mh_seats.specs.Room.{limit};
ghost use Rattle.mh_tickets.specs.Seats as serials_seat;
ghost use Rattle.mh_handle.specs.Joins.{split_room};
ghost use Rattle.mh_handle.specs.Passes.{IsPassOf, KnowsAll, seat_at};
ghost use Rattle.mh_intern.specs.Seats.{Knows};
ghost use Rattle.mh_intern.specs.Views.{new_seat};
ghost use Rattle.mh_jobs.specs.Given.{AreJobs};
ghost use Rattle.mh_drawn.specs.Answer.{StopsShowing};
ghost use Rattle.mh_drawn.specs.Linked.{AreConstantsOf, HasLinked, IsLinked, StopsLinking};
ghost use Rattle.mh_drawn.specs.Reading.{IsGiven, most_sites};
ghost use Rattle.mh_drawn.specs.Words.{Asked};

use crate::constants::settle;
use crate::linking::link_all;
use crate::reading::Given;
use crate::stop::Stop;
use mh_attempt::{ConstantsOf, Linkage, WorkError};
use mh_base::{NoMemory, Seq};
use mh_condy::{ConstPass, ConstSeat, ConstTable};
use mh_handle::{FormPass, FormSeat, FormTable, Work};
use mh_intern::{TypeSeat, TypeTable};
use mh_jobs::Run;
use std::alloc::Global;
use std::sync::Wait;

/// The table of types, and the table of forms.
#[derive(Drop)]
pub(crate) struct Tables {
    pub(crate) types: TypeTable,
    pub(crate) forms: FormTable,
}

/// The first seats of new tables: of types, of forms, and of the serials of dynamic constants.
#[derive(Drop)]
pub(crate) struct FirstSeats {
    pub(crate) types: TypeSeat,
    pub(crate) forms: FormSeat,
    pub(crate) serials: ConstSeat,
}

/// The only seat of the table of types, and the only passes over the table of forms and over that
/// of the dynamic constants.
#[derive(Drop)]
pub(crate) struct Seats<'s, 't, J: Run> {
    pub(crate) types: TypeSeat,
    pub(crate) forms: FormPass<'t>,
    pub(crate) constants: ConstPass<'s, 't, ConstantsOf<J>>,
}

// There are as many constants as a `u32` can number. More take more memory than there is.
fn few_constants(count: usize) -> Result<(), NoMemory>
    ensures { OnOk result (count < 2 ^ 32) }
{
    let _count = u32::try_from(count).or(Err(NoMemory))?;
    Ok(())
}

/// The only seat and passes of new tables, before an attempt.
pub(crate) fn first_seats<'s, 't, J: Run>(
    alloc: Global,
    tables: &'t Tables,
    constants: &'s ConstTable<'t, ConstantsOf<J>>,
    first: FirstSeats,
) -> Result<Seats<'s, 't, J>, NoMemory>
    requires types { first.types ≡ new_seat tables.now.types limit }
    requires forms { first.forms ≡ seat_at tables.now.forms 0 }
    requires serials { first.serials ≡ serials_seat.new_seat constants.now.serials limit }
    ensures forms { IfOk result (λ seats. IsPassOf tables.now.forms seats.forms) }
    ensures types { IfOk result (λ seats. seats.types.table ≡ tables.now.types) }
    ensures constants { IfOk result (λ seats. seats.constants.table ≡ constants.entry.now) }
    ensures fresh { IfOk result
        (λ seats. HasLinked J.given 0 seats.forms seats.types seats.constants) }
{
    few_constants(constants.len())?;
    let FirstSeats {
        types,
        forms,
        serials,
    } = first;
    let pass = tables.forms.first_pass(alloc, forms)?;
    let asked = constants.first_pass(serials)?;
    Ok(Seats {
        types,
        forms: pass,
        constants: asked,
    })
}

// Looks at a table of forms, so that its only pass knows all numbers that were drawn.
fn look_at_forms<'t>(
    alloc: Global,
    forms: &'t FormTable,
    pass: &mut FormPass<'t>,
) -> Result<(), NoMemory>
    requires table { IsPassOf forms.now pass.old }
    requires room { split_room < pass.old.seat.room }
    ensures numbers { pass.new.seat.numbers ≡ pass.old.seat.numbers }
    ensures room { OnOk result (pass.new.seat.room ≡ pass.old.seat.room) }
    ensures known { OnOk result (KnowsAll pass.new.seat) }
{
    let other = forms.split(alloc, pass)?;
    forms.join(pass, other)
}

// Looks at a table of types, so that its only seat knows which types were asked for.
fn look_at_types(types: &TypeTable, seat: &mut TypeSeat)
    requires table { seat.old.table ≡ types.now }
    requires room { 1 < seat.old.room }
    ensures same { seat.new ≡ seat.old }
    ensures known { Knows seat.new }
{
    let other = types.split(seat, 1);
    types.join(seat, other);
}

// Why attempts stopped.
fn stop_of<'t, J: Run>(
    alloc: Global,
    tables: &'t Tables,
    seats: &mut Seats<'_, 't, J>,
    error: WorkError,
) -> Stop<'static>
    requires forms { IsPassOf tables.now.forms seats.old.forms }
    requires types { seats.old.types.table ≡ tables.now.types }
    requires few { length J.given.jobs ≤ most_sites }
    requires stopped { StopsLinking J.given seats.old.forms seats.old.types error }
    ensures { (asked : Asked) → StopsShowing J.given asked result }
{
    match error {
        WorkError::NoMemory => Stop::NoMemory,
        WorkError::FormsFull { drawn: _ } => {
            match look_at_forms(alloc, &tables.forms, &mut seats.forms) {
                Ok(()) => Stop::FormsFull,
                Err(_) => Stop::NoMemory,
            }
        }
        WorkError::TypesFull { bucket: _ } => {
            look_at_types(&tables.types, &mut seats.types);
            Stop::TypesFull
        }
    }
}

/// Links the call sites that were read, over these tables. It also looks whether all that is known
/// of the constants was recorded by these attempts.
pub(crate) fn link<'s, 't, J: Run, R: Wait>(
    rt: &R,
    alloc: Global,
    given: &'t Given,
    tables: &'t Tables,
    constants: &'s ConstTable<'t, ConstantsOf<J>>,
    seats: &mut Seats<'s, 't, J>,
) -> Result<Seq<Linkage<'t, J>>, Stop<'static>>
    requires given { IsGiven given.now J.given }
    requires are_jobs { AreJobs J.given }
    requires constants { AreConstantsOf J.given }
    requires few { length J.given.jobs ≤ most_sites }
    requires forms { IsPassOf tables.now.forms seats.old.forms }
    requires types { seats.old.types.table ≡ tables.now.types }
    requires table { seats.old.constants.table ≡ constants.now }
    requires fresh { HasLinked J.given 0 seats.old.forms seats.old.types seats.old.constants }
    ensures linked { IfOk result (IsLinked J.given seats.new.forms) }
    ensures stop { IfErr result (λ stop. (asked : Asked) → StopsShowing J.given asked stop) }
{
    let mut w = Work {
        alloc,
        types: &tables.types,
        seat: &mut seats.types,
        forms: &tables.forms,
        pass: &mut seats.forms,
        leaves: &given.leaves,
    };
    let linkages = link_all(&mut w, rt, constants, &mut seats.constants, given);
    let Work {
        alloc: _,
        types: _,
        seat: _,
        forms: _,
        pass: _,
        leaves: _,
    } = w;
    settle(rt, alloc, &seats.constants)?;
    match linkages {
        Ok(linkages) => Ok(linkages),
        Err(error) => Err(stop_of::<J>(alloc, tables, seats, error)),
    }
}
