//! Edits of forms: nineteen kinds of key, the body that each makes of another, and its law.
#![tactic(auto)]

mod copy;
mod edit;
mod fit;
mod frame;
mod key;
mod names;
mod narrow;
mod rename;
mod roots;

pub use edit::apply;
pub use fit::key_fits;
pub use key::{Entries, Key, Places, RetEntry};
