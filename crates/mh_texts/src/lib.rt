//! Values, types and exceptions as text: literals that are read, and texts that are printed.
#![tactic(auto)]

mod escape;
mod literal;
mod number;
mod printed;
mod shown;

pub use literal::{LiteralError, read_literal};
pub use number::read_unsigned;
pub use shown::{show_exc, show_name, show_text, show_type, show_value};
