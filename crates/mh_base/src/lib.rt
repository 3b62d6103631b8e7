//! What every layer names: lack of memory, lists, and the lines of a text.
#![tactic(auto)]

mod copied;
mod frozen;
mod lines;
mod memory;
mod seq;
mod shared;
mod split;

pub use copied::Copied;
pub use frozen::Frozen;
pub use lines::{LineError, LineFault, is_passed, is_plain};
pub use memory::{NoMemory, clear_within};
pub use seq::Seq;
pub use shared::Shared;
pub use split::{split_at_byte, split_once};
