//! The program as a library: its words, its inputs, the run, and what it writes.
#![tactic(auto)]

mod answer;
mod classes;
mod generated;
mod jobs;
mod lines;
mod listing;
mod program;
mod reading;
mod reporting;
mod running;
pub mod status;
mod stop;
mod sums;

pub use answer::TopAnswer;
pub use mh_report::{Attempt, Attempts, Serials};
pub use program::{Output, Program};
pub use running::top;
