//! A class file that is made for a list of call sites: for tests, and for inputs that are
//! generated.
#![tactic(auto)]

mod constants;
mod layout;
mod making;
mod numbers;
mod parts;
mod site;

pub use making::make_class;
pub use site::{MadeArg, MadeArgs, MadeSite, MadeSites};
