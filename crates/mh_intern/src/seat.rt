use crate::caller::Caller;
use crate::claims::ClaimSeat;
use std::marker::Model;

/// The right to hold types of one table. A thread has one of its own. Contracts see the table, the
/// holds, how many more it may take (its room), the types that it asked for and the full buckets
/// that it found.
#[derive(Drop)]
pub struct TypeSeat {
    pub(crate) claimer: ClaimSeat,
    pub(crate) caller: Caller,
}

impl Model for TypeSeat {
    ghost use Rattle.std.specs.Prelude.{◌≡◌, Some};
    ghost use Rattle.mh_intern.specs.Claims.{named, IsIdle};
    ghost use Rattle.mh_intern.specs.Views.{SeatView, seat_view};
    ghost use Rattle.mh_intern.specs.Seats.{IsSeated};

    ghost Value = { SeatView };

    ghost view = { λ s. seat_view s.claimer.table_id s.caller.table s.caller.view };

    ghost invariant = { λ s. IsIdle s.claimer.me
        × (named s.claimer.me.0 ≡ Some s.caller.table)
        × IsSeated s.caller.view.holds s.caller.view.room s.caller.view.asked s.caller.view.full };
}
