//! Method types that threads share: each type that is held has one slot of a table, and the slot's
//! word counts holds. Of the holds of one seat at least one is counted, and others may stand on it,
//! so that threads which hold the same types seldom change the same word. A slot that nobody holds
//! is given to another type. No call except `intern` waits.
#![tactic(auto)]

mod bucket;
mod caller;
mod claims;
mod error;
mod held;
mod holders;
mod holding;
mod keeper;
mod kinds;
mod list;
mod many;
mod notes;
mod seat;
mod serve;
mod table;

pub use error::InternError;
pub use held::HeldType;
pub use seat::TypeSeat;
pub use table::TypeTable;
