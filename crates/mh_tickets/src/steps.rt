// The counter: each kind of step, over a bare seat. No step takes memory or waits.
ghost use Rattle.std.specs.Prelude.{◌≡◌, ◌<◌, ◌≤◌, [], length, IfOk};
ghost use Rattle.mh_seats.specs.Room.{limit};
ghost use Rattle.mh_seats.specs.Steps.{Begins, Moves};
ghost use Rattle.mh_tickets.specs.Draws.{AreDistinct, Drew, EachOnce, drawn, held_by, without, joined_views};
ghost use Rattle.mh_tickets.specs.Steps.{IsCounter, IsOfCounter};

use crate::kinds::{Counter, Drawing, Joining, Looking, Part, Place, Splitting, Steps};
use std::alloc::{AllocError, Global};
use std::marker::Brand;

/// A counter before the first draw, and its first seat.
pub(crate) fn new_counter(alloc: Global) -> Result<(Counter, Place), AllocError>
    ensures counter { IfOk result (λ t. IsCounter t.0.shared.table_id) }
    ensures seat { IfOk result (λ t. Begins (drawn [] limit) t.0.shared.table_id t.1) }
{
    Counter::of_words(alloc, &[0], &())
}

/// Draws a number, and gives the one that was drawn last before it.
pub(crate) fn draw(steps: &Steps, seat: &mut Place) -> u64
    requires seat { IsOfCounter seat.old.table_id steps.now.table_id }
    requires room { 0 < seat.old.me.0.room }
    ensures stays { (seat.new.table_id ≡ seat.old.table_id) × (seat.new.me.1 ≡ seat.old.me.1) }
    ensures drew { Drew seat.old.me.0 result seat.new.me.0 }
{
    steps.fetch_add::<Drawing>(seat, 0, 1)
}

/// What the rule says of a seat. Nothing changes.
pub(crate) fn look(steps: &Steps, seat: &mut Place)
    requires { IsOfCounter seat.old.table_id steps.now.table_id }
    ensures stays { (seat.new.table_id ≡ seat.old.table_id) × (seat.new.me ≡ seat.old.me) }
    ensures distinct { AreDistinct seat.old.me.0.numbers }
    ensures all { held_by seat.old.me.0 ≡ limit → EachOnce seat.old.me.0.numbers }
{
    steps.load::<Looking>(seat, 0);
}

/// A new seat with a part of a seat's room.
fn cut<P: Part>(steps: &Steps, seat: &mut Place) -> Place
    requires seat { IsOfCounter seat.old.table_id steps.now.table_id }
    requires room { P.room ≤ seat.old.me.0.room }
    ensures left { Moves (without P.room) seat.old seat.new }
    ensures right { Begins (drawn [] P.room) seat.old.table_id result }
{
    steps.split_seat::<Splitting<P>>(seat)
}

/// The same, with a room that is known when it runs.
fn cut_room<P: Part>(steps: &Steps, seat: &mut Place, room: u64) -> Place
    requires seat { IsOfCounter seat.old.table_id steps.now.table_id }
    requires room { room ≤ seat.old.me.0.room }
    requires part { P.room ≡ room }
    ensures left { Moves (without room) seat.old seat.new }
    ensures right { Begins (drawn [] room) seat.old.table_id result }
{
    let _room = room;
    cut::<P>(steps, seat)
}

/// A new seat with this much of a seat's room.
pub(crate) fn split(steps: &Steps, seat: &mut Place, room: u64) -> Place
    requires seat { IsOfCounter seat.old.table_id steps.now.table_id }
    requires room { room ≤ seat.old.me.0.room }
    ensures left { Moves (without room) seat.old seat.new }
    ensures right { Begins (drawn [] room) seat.old.table_id result }
{
    cut_room::<Brand>(steps, seat, room)
}

/// The seat has all that the two had.
pub(crate) fn join(steps: &Steps, seat: &mut Place, other: Place)
    requires seat { IsOfCounter seat.old.table_id steps.now.table_id }
    requires other { (other.table_id ≡ steps.now.table_id) × (other.me.1 ≡ []) }
    ensures { Moves (λ v. joined_views v other.me.0) seat.old seat.new }
{
    steps.join_seat::<Joining>(seat, other);
}

/// The number that was drawn last, from the seat that has all of them.
pub(crate) fn last(counter: Counter, seat: Place) -> u64
    requires seat { (seat.table_id ≡ counter.shared.table_id) × (seat.me.1 ≡ []) }
    requires counter { IsCounter counter.shared.table_id }
    requires whole { held_by seat.me.0 ≡ limit }
    ensures last { result ≡ length seat.me.0.numbers }
    ensures each_once { EachOnce seat.me.0.numbers }
{
    let closed = counter.close_with(seat);
    let last = closed.word(0);
    closed.free();
    last
}
