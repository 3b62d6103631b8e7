//! Handles that take an array in place of their last arguments.
#![tactic(auto)]

mod spreading;

pub use spreading::{check_spread_use, spread};
