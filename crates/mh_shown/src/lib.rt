//! Forms as texts: the keys that make them, and the names that they run.
#![tactic(auto)]

mod key;
mod name;
mod push;
mod same;

pub use key::{push_basics, push_key};
pub use name::{push_name, push_out};
pub use push::push_number;
pub use same::shows_keys;
