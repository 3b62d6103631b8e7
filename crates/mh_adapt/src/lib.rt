//! Adapters of method handles: bound values, dropped and permuted arguments, and parts that run
//! before or after a handle. A call that makes no handle gives back those that were passed to it.
#![tactic(auto)]

mod adapting;
mod growths;
mod inserting;
mod joining;
mod nodes;
mod parts;
mod types;

pub use adapting::adapt;
pub use inserting::{bind, drop_args, permute};
pub use joining::{Pair, join};
pub use parts::{collect, filter, filterret, fold};
