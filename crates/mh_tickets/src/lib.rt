//! Numbers that threads draw, each once: 1, 2, 3 and so on. No call waits.
#![tactic(auto)]

mod drawn;
mod kinds;
mod seat;
mod steps;
mod tickets;

pub use seat::TicketSeat;
pub use tickets::Tickets;
