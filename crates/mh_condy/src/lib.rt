//! Dynamic constants: each is resolved once, by whichever thread records first, after the constants
//! among its static arguments. A thread has a [`ConstPass`] of its own, and shares the
//! [`ConstTable`].
#![tactic(auto)]

mod attempt;
mod constant;
mod depths;
mod ended;
mod finding;
mod known;
mod pass;
mod resolving;
mod run;
mod script;
mod table;
mod thrown;
mod value;

pub use attempt::Asked;
pub use constant::Const;
pub use finding::Finding;
pub use known::KnownConsts;
pub use mh_tickets::TicketSeat as ConstSeat;
pub use pass::{ConstAttempt, ConstPass};
pub use run::ConstRun;
pub use table::ConstTable;
pub use value::ConstValue;
