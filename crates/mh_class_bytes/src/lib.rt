//! The bytes of a class file: numbers, runs of bytes, texts, and formats of these.
#![tactic(auto)]

mod chars;
mod cursor;
mod fault;
mod text;

pub use chars::CharsError;
pub use cursor::{Cursor, Short};
pub use fault::Fault;
pub use text::{BadText, Text, mutf8_check};
