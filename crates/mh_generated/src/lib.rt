//! The input of a run that is made from a number.
#![tactic(auto)]

mod counts;
mod files;
mod plan;
mod sites;
mod texts;

pub use files::{CLASS, GeneratedFiles, LEAVES, PLAN, SCRIPTS, generate};
