// The table of holders: its rule, and the kinds of step that keep it.
ghost use Rattle.std.specs.Prelude.{ℕ, List, []};
ghost use Rattle.mh_values.specs.declared.types.MethodTy.{MethodTy};
ghost use Rattle.mh_intern.specs.declared.holding.Entry.{Entry};
ghost use Rattle.mh_intern.specs.Held.{Held};
ghost use Rattle.mh_intern.specs.Lists.{entry};
ghost use Rattle.mh_intern.specs.Kinds.{caller, joined_views, nothing, first, without_first, first_keeper, less_room, after_request, request, after_reply, reply, refusal};
ghost use Rattle.mh_intern.specs.Plays.{dups, releases, keeps_more, keeps_asked, keeps_less, counts, reads, raises, looks};

use crate::holding::{Entry, Holding};
use atomic_table::{Join, Play, Seat, Shared, Split, Table, TableRule};
use mh_values::MethodTy;
use std::alloc::Global;
use std::marker::{Brand, PhantomData};

/// The rule of the table of holders.
pub(crate) struct Rule;

/// The table of holders: a word for each slot, which is the number of its holds that are counted.
pub(crate) type Holders = Table<(), Holding, (), Rule, Global>;

/// The steps of a table of holders.
pub(crate) type Steps = Shared<(), Holding, (), Rule>;

/// A seat of a table of holders.
pub(crate) type Place = Seat<(), Holding>;

impl TableRule<(), Holding, ()> for Rule {
    ghost holds = { λ _ s. Held s };

    ghost first = { λ _. first };
}

/// A join: one seat has all that the two had.
pub(crate) struct Joining;

impl Join<Holding> for Joining {
    ghost both = { joined_views };

    ghost spent = { nothing };
}

/// How much room goes to a new caller.
pub(crate) trait Part {
    ghost room: { ℕ };
}

impl Part for Brand {
    ghost room = { 0 };
}

/// A split of a caller: a new caller has a part of its room.
pub(crate) struct SplittingRoom<P> {
    of: PhantomData<P>,
}

impl<P: Part> Split<Holding> for SplittingRoom<P> {
    ghost left = { less_room P.room };

    ghost right = { λ _. caller [] P.room [] [] };
}

/// The type that is asked for.
pub(crate) trait Wanted {
    ghost wanted: { MethodTy };
}

impl Wanted for Brand {
    ghost wanted = { record { params = []; ret = Rattle.std.specs.Prelude.None } };
}

/// A split of a caller: a request goes to a keeper.
pub(crate) struct Requesting<W> {
    of: PhantomData<W>,
}

impl<W: Wanted> Split<Holding> for Requesting<W> {
    ghost left = { after_request W.wanted };

    ghost right = { λ _. request W.wanted };
}

/// A split of a keeper: its hold goes to the caller that asked for it.
pub(crate) struct Replying;

impl Split<Holding> for Replying {
    ghost left = { after_reply };

    ghost right = { reply };
}

/// A split of a keeper: the room of the request goes back to the caller, with the full bucket.
pub(crate) struct Refusing;

impl Split<Holding> for Refusing {
    ghost left = { after_reply };

    ghost right = { refusal };
}

/// A split of the first seat: its first bucket gets a keeper of its own.
pub(crate) struct SplittingKeeper;

impl Split<Holding> for SplittingKeeper {
    ghost left = { without_first };

    ghost right = { first_keeper };
}

/// The hold of a step, how often it is taken, and the list of the bucket after it.
pub(crate) trait Operand {
    ghost hold: { Entry };

    ghost count: { ℕ };

    ghost entries: { List Entry };
}

impl Operand for Brand {
    ghost hold = { entry 0 (record { params = []; ret = Rattle.std.specs.Prelude.None }) };

    ghost count = { 0 };

    ghost entries = { [] };
}

/// A raise: a caller has one hold more of what it holds.
pub(crate) struct Duplicating<O> {
    of: PhantomData<O>,
}

impl<O: Operand> Play<(), Holding> for Duplicating<O> {
    ghost then = { dups O.hold };
}

/// A lowering: a caller has one hold less.
pub(crate) struct Releasing<O> {
    of: PhantomData<O>,
}

impl<O: Operand> Play<(), Holding> for Releasing<O> {
    ghost then = { releases O.hold };
}

/// A read: a caller keeps one hold more of what it holds.
pub(crate) struct Keeping<O> {
    of: PhantomData<O>,
}

impl<O: Operand> Play<(), Holding> for Keeping<O> {
    ghost then = { keeps_more O.hold };
}

/// A read: the same, after the caller asked for the type.
pub(crate) struct Asking<O> {
    of: PhantomData<O>,
}

impl<O: Operand> Play<(), Holding> for Asking<O> {
    ghost then = { keeps_asked O.hold };
}

/// A read: a caller keeps one hold less, and as many as before are counted.
pub(crate) struct Leaving<O> {
    of: PhantomData<O>,
}

impl<O: Operand> Play<(), Holding> for Leaving<O> {
    ghost then = { keeps_less O.hold };
}

/// A raise: more of a caller's holds are counted.
pub(crate) struct Counting<O> {
    of: PhantomData<O>,
}

impl<O: Operand> Play<(), Holding> for Counting<O> {
    ghost then = { counts O.count O.hold };
}

/// A raise: a keeper has the hold that it was asked for, and its list has the entry.
pub(crate) struct Raising<O> {
    of: PhantomData<O>,
}

impl<O: Operand> Play<(), Holding> for Raising<O> {
    ghost then = { raises O.hold O.entries };
}

/// A read of a slot by its keeper, which notes what it found.
pub(crate) struct Reading;

impl Play<(), Holding> for Reading {
    ghost then = { reads };
}

/// A read that changes nothing, and shows what the rule says of the seat.
pub(crate) struct Looking;

impl Play<(), Holding> for Looking {
    ghost then = { looks };
}
