//! The listing of the call sites of class files.
#![tactic(auto)]

mod printing;

pub use printing::{push_count, push_sites};
