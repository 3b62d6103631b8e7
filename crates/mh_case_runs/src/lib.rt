//! Runs of cases in memory: which give what they must, and at which line the others differ.
#![tactic(auto)]

mod checking;
mod made;
mod running;
mod saying;

pub use checking::check_files;
pub use saying::GaveUp;
