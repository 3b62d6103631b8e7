ghost use Rattle.std.specs.Prelude.{◌≡◌, ◌+◌, ◌<◌, ◌≤◌, length, IfOk};
ghost use Rattle.mh_seats.specs.Room.{limit};
ghost use Rattle.mh_tickets.specs.Draws.{AreDistinct, EachOnce};
ghost use Rattle.mh_tickets.specs.Seats.{Draws, KnowsAll, joined_seats, new_seat, with_less_room};

use crate::kinds::Counter;
use crate::seat::TicketSeat;
use crate::steps;
use mh_base::NoMemory;
use std::alloc::Global;
use std::marker::Model;

/// A counter that threads share: the numbers 1, 2, 3 and so on are drawn of it, each once.
/// Contracts see which counter it is.
///
/// Its seats have 2^62 room together: each number takes one, and is never given back.
#[derive(Drop)]
pub struct Tickets {
    counter: Counter,
}

impl Model for Tickets {
    ghost use Rattle.mh_tickets.specs.Steps.{IsCounter};
    ghost use Rattle.mh_tickets.specs.Seats.{TicketsId};
    ghost use Rattle.atomic_table.specs.Seated.{table_id_coded};

    ghost Value = { TicketsId };

    ghost coded = { table_id_coded };

    ghost view = { λ t. t.counter.shared.table_id };

    ghost invariant = { λ t. IsCounter t.counter.shared.table_id };
}

impl Tickets {
    /// A counter before the first draw, and the first seat, which has all the room: 2^62. It fails
    /// only if no memory is left.
    pub fn new(alloc: Global) -> Result<(Tickets, TicketSeat), NoMemory>
        ensures { IfOk result (λ t. t.1 ≡ new_seat t.0 limit) }
    {
        let (counter, place) = steps::new_counter(alloc)?;
        Ok((Tickets { counter }, TicketSeat { place }))
    }

    /// A number from 1 to 2^62 that no other draw gives, greater than all that the seat has. The
    /// seat must have room. It is one atomic addition, takes no memory and does not wait.
    pub fn draw(&self, seat: &mut TicketSeat) -> u64
        requires seat { seat.old.tickets ≡ self.now }
        requires room { 1 ≤ seat.old.room }
        ensures draws { Draws result seat.old seat.new }
        ensures range { (1 ≤ result) × (result ≤ limit) }
        ensures known { KnowsAll seat.new }
    {
        steps::draw(&self.counter.shared, &mut seat.place) + 1
    }

    /// A new seat with a part of the room, for another thread. It takes no memory and does not
    /// wait.
    pub fn split(&self, seat: &mut TicketSeat, room: u64) -> TicketSeat
        requires seat { seat.old.tickets ≡ self.now }
        requires room { (1 ≤ room) × (room < seat.old.room) }
        ensures seat { seat.new ≡ with_less_room room seat.old }
        ensures new { result ≡ new_seat seat.old.tickets room }
    {
        TicketSeat {
            place: steps::split(&self.counter.shared, &mut seat.place, room),
        }
    }

    /// The seat has the numbers and the room of both. No number is in it twice, whichever seats are
    /// still out. It takes no memory and does not wait.
    pub fn join(&self, seat: &mut TicketSeat, other: TicketSeat)
        requires seat { (seat.old.tickets ≡ self.now) × (other.tickets ≡ self.now) }
        ensures joined { seat.new ≡ joined_seats seat.old other }
        ensures distinct { AreDistinct seat.new.numbers }
        ensures known { KnowsAll seat.new }
    {
        let TicketSeat { place } = other;
        steps::join(&self.counter.shared, &mut seat.place, place);
        steps::look(&self.counter.shared, &mut seat.place);
    }

    /// How many numbers were drawn: 1 to that number, each once. The seat's room and its numbers
    /// together are 2^62 if and only if all other seats were joined to it.
    pub fn close(self, seat: TicketSeat) -> u64
        requires seat { seat.tickets ≡ self }
        requires whole { seat.room + length seat.numbers ≡ limit }
        ensures last { result ≡ length seat.numbers }
        ensures each_once { EachOnce seat.numbers }
    {
        let Tickets { counter } = self;
        let TicketSeat { place } = seat;
        steps::last(counter, place)
    }
}
