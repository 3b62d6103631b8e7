//! Work that many threads do concurrently, each on a lane of its own.
#![tactic(auto)]

mod beside;
mod each;
mod forking;

pub use beside::call_beside;
pub use each::{Task, run_each};
pub use forking::{ForkJoin, fork_join};
