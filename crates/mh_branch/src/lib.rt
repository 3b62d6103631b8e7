//! Roots, branches and arrays: constants, identities, throws, guards, catches and gathers.
#![tactic(auto)]

mod arrays;
mod branches;
mod growths;
mod roots;

pub use arrays::{Gathered, gather, gather_of};
pub use branches::{catch, catch_of, guard, guard_of};
pub use growths::{Branches, Caught, with_part};
pub use roots::{constant, identity, throw};
