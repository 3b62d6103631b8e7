//! String concatenation: the pieces of a recipe, and what they join to.
#![tactic(auto)]

mod joined;
mod lengths;
mod piece;
mod recipe;
mod texts;

pub use joined::{args_after, join_pieces};
pub use lengths::text_length;
pub use piece::{Piece, Pieces};
pub use recipe::{RecipeError, read_recipe};
pub use texts::{push_chars, push_text};
