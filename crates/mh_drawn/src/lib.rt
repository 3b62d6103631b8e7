//! What the program `mh_draw` does: it reads its words and inputs, links all call sites, and writes
//! their drawing, or why two of them share a form or do not.
#![tactic(auto)]

mod constants;
mod linking;
mod program;
mod reading;
mod show;
pub mod status;
mod stop;
mod tables;
mod words;

pub use program::draw;
