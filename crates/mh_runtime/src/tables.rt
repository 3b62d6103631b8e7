use mh_base::NoMemory;
use mh_handle::{FormSeat, FormTable};
use mh_intern::{TypeSeat, TypeTable};
use mh_tickets::{TicketSeat, Tickets};
use std::alloc::Global;

/// What the threads of a run share in addition to its call sites: the table of types, the table of
/// forms, and the counter of the attempts' serials.
#[derive(Drop)]
pub struct Tables {
    pub types: TypeTable,
    pub forms: FormTable,
    pub serials: Tickets,
}

/// A seat of each of the tables.
#[derive(Drop)]
pub struct Seats {
    pub types: TypeSeat,
    pub forms: FormSeat,
    pub serials: TicketSeat,
}

impl Tables {
    ghost use Rattle.std.specs.Prelude.{IfOk};
    ghost use Rattle.mh_runtime.specs.Linkers.{HaveAll};

    /// New tables, and their seats, which have all the room.
    pub fn new(alloc: Global) -> Result<(Tables, Seats), NoMemory>
        ensures { IfOk result (λ made. HaveAll made.0 made.1) }
    {
        let (types, type_seat) = TypeTable::new(alloc)?;
        let (forms, form_seat) = FormTable::new(alloc)?;
        let (serials, serial_seat) = Tickets::new(alloc)?;
        let tables = Tables {
            types,
            forms,
            serials,
        };
        let seats = Seats {
            types: type_seat,
            forms: form_seat,
            serials: serial_seat,
        };
        Ok((tables, seats))
    }
}
