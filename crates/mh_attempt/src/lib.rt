//! Attempts: they run a script over method handles, and so link a call site.
#![tactic(auto)]

mod attempts;
mod call;
mod concatenation;
mod constants;
mod error;
mod handle;
mod lines;
mod linkage;
mod literal;
mod names;
mod registers;
mod script;
mod thrown;

pub use attempts::attempt;
pub use constants::ConstantsOf;
pub use error::WorkError;
pub use linkage::{Linkage, Linked};
