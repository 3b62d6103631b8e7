use crate::kinds::Place;
use std::marker::Model;

/// The right to draw numbers of one counter. A thread has one of its own. Contracts see the
/// counter, the numbers that were drawn with it, and how many more it may draw (its room).
#[derive(Drop)]
pub struct TicketSeat {
    pub(crate) place: Place,
}

impl Model for TicketSeat {
    ghost use Rattle.mh_tickets.specs.Seats.{SeatView, seat_coded};
    ghost use Rattle.std.specs.Prelude.{◌≡◌, ◌+◌, ◌≤◌, [], length};

    ghost Value = { SeatView };

    ghost coded = { seat_coded };

    ghost view = { λ s. record {
      tickets = s.place.table_id;
      numbers = s.place.me.0.numbers;
      room = s.place.me.0.room;
    } };

    ghost invariant = { λ s. (s.place.me.1 ≡ [])
        × (1 ≤ s.place.me.0.room + length s.place.me.0.numbers) };
}
