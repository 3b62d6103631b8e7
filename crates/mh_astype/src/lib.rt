//! Conversion of method handles to other types, and their exact and generic calls.
#![tactic(auto)]

mod calls;
mod conversions;
mod use_as;

pub use calls::{
    invoke_exact, invoke_exact_on, invoke_exact_with, invoke_generic, invoke_generic_with,
};
pub use use_as::{as_type, use_by};
