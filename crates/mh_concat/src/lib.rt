//! String concatenation with constants: handles that join the pieces of a recipe.
#![tactic(auto)]

mod joining;

pub use joining::concat;
pub use mh_pieces::{RecipeError, read_recipe};
