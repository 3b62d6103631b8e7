//! Concurrent workers that take numbers from one deque, each number once, and link the item of
//! each.
#![tactic(auto)]

mod linking;
mod prelinking;
mod rule;
mod sharing;
mod tally;
mod thieves;
mod worked;
mod working;

pub use linking::Linking;
pub use prelinking::prelink;
pub use sharing::{SharesOut, share_out};
pub use worked::{Numbers, Passes, Worked, Workers};
