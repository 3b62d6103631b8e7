ghost use Rattle.std.specs.Prelude.{◌≡◌, ◌≤◌, ◌<◌};
ghost use Rattle.mh_tickets.specs.Draws.{AreDistinct};
ghost use Rattle.mh_handle.specs.Seats.{Draws, KnowsAll, joined_seats, new_seat, with_less_room};

use crate::table::FormTable;
use mh_tickets::TicketSeat;
use std::marker::Model;
use std::snapshot::Snapshot;

/// The right to draw numbers for a table's forms. Each pass over the table has a seat of its own,
/// which cannot be copied. Contracts see its table, the numbers drawn with it, and how many more it
/// may draw (its room).
#[derive(Drop)]
pub struct FormSeat {
    // The table whose numbers it draws. It has no bytes.
    table: Snapshot<FormTable>,
    tickets: TicketSeat,
}

impl Model for FormSeat {
    ghost use Rattle.std.specs.Prelude.{◌≡◌};
    ghost use Rattle.mh_handle.specs.Seats.{SeatView};

    ghost Value = { SeatView };

    ghost view = { λ s. record {
      table = s.table.value;
      numbers = s.tickets.numbers;
      room = s.tickets.room;
    } };

    ghost invariant = { λ s. s.tickets.tickets ≡ s.table.value.tickets };
}

impl FormSeat {
    /// A seat of a table, made from a seat of its counter.
    pub(crate) fn of(table: &FormTable, tickets: TicketSeat) -> FormSeat
        requires { tickets.tickets ≡ table.now.tickets }
        ensures { result ≡ record
            { table = table.now; numbers = tickets.numbers; room = tickets.room } }
    {
        FormSeat {
            table: Snapshot::of(table),
            tickets,
        }
    }

    /// A number that no other seat has drawn.
    pub(crate) fn draw(&mut self, table: &FormTable) -> u64
        requires table { self.old.table ≡ table.now }
        requires room { 1 ≤ self.old.room }
        ensures { Draws result self.old self.new }
    {
        table.tickets().draw(&mut self.tickets)
    }

    /// A new seat with a part of the room.
    pub(crate) fn split(&mut self, table: &FormTable, room: u64) -> FormSeat
        requires table { self.old.table ≡ table.now }
        requires room { (1 ≤ room) × (room < self.old.room) }
        ensures left { self.new ≡ with_less_room room self.old }
        ensures new { result ≡ new_seat self.old.table room }
    {
        let tickets = table.tickets().split(&mut self.tickets, room);
        FormSeat::of(table, tickets)
    }

    /// Adds the numbers and the room of another seat. No number is there twice.
    pub(crate) fn join(&mut self, table: &FormTable, other: FormSeat)
        requires table { (self.old.table ≡ table.now) × (other.table ≡ table.now) }
        ensures joined { self.new ≡ joined_seats self.old other }
        ensures distinct { AreDistinct self.new.numbers }
        ensures known { KnowsAll self.new }
    {
        let FormSeat { table: _, tickets } = other;
        table.tickets().join(&mut self.tickets, tickets);
    }
}
