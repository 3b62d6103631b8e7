//! Cells in a row, which are each set once, and what a thread has learnt of them. A value belongs
//! to the cell at its key. What is learnt takes two words for each cell; learning takes no memory.
#![tactic(auto)]

mod cells;
mod known;
mod learnt;
mod once;

pub use cells::Cells;
pub use known::Known;
