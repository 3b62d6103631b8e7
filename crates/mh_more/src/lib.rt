//! Handles of further combinators: explicit conversions, cleanups, switches and loops.
#![tactic(auto)]

mod cleanups;
mod conversions;
mod loops;
mod several;
mod switches;

pub use cleanups::{tryfinally, tryfinally_of};
pub use conversions::explicit;
pub use loops::{Looped, counted, counted_of};
pub use several::{Handles, with_first};
pub use switches::{Switched, switch, switch_of};
