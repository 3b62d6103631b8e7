// The counter: its rule, and the kinds of step that keep it.
ghost use Rattle.std.specs.Prelude.{ℕ, []};
ghost use Rattle.mh_seats.specs.Room.{limit};
ghost use Rattle.mh_tickets.specs.Draws.{Kept, drawn, draws, looks, joined_views, without};

use crate::drawn::Drawn;
use atomic_table::{Join, Play, Seat, Shared, Split, Table, TableRule};
use std::alloc::Global;
use std::marker::{Brand, PhantomData};

/// The rule of the counter.
pub(crate) struct Rule;

/// The counter: one word, the number that was drawn last.
pub(crate) type Counter = Table<(), Drawn, (), Rule, Global>;

/// The steps of a counter.
pub(crate) type Steps = Shared<(), Drawn, (), Rule>;

/// A seat of a counter.
pub(crate) type Place = Seat<(), Drawn>;

impl TableRule<(), Drawn, ()> for Rule {
    ghost holds = { λ _ s. Kept s };

    ghost first = { λ _. drawn [] limit };
}

/// A draw: one number more, and one room less.
pub(crate) struct Drawing;

impl Play<(), Drawn> for Drawing {
    ghost then = { draws };
}

/// A read that changes nothing, and shows what the rule says of the seat.
pub(crate) struct Looking;

impl Play<(), Drawn> for Looking {
    ghost then = { looks };
}

/// A join: one seat has all that the two had.
pub(crate) struct Joining;

impl Join<Drawn> for Joining {
    ghost both = { joined_views };

    ghost spent = { drawn [] 0 };
}

/// How much room goes to a new seat.
pub(crate) trait Part {
    ghost room: { ℕ };
}

impl Part for Brand {
    ghost room = { 0 };
}

/// A split: a new seat has a part of the room.
pub(crate) struct Splitting<P> {
    of: PhantomData<P>,
}

impl<P: Part> Split<Drawn> for Splitting<P> {
    ghost left = { without P.room };

    ghost right = { λ _. drawn [] P.room };
}
