//! The words of the command line: what they ask for.
#![tactic(auto)]

mod command;
mod number;
mod options;
mod words;

pub use command::{Command, Names};
pub use words::read_words;
